//! Blobs whose rows fill statements of 32 rows, fall short of that, or go past it: rows are written 32 by one statement,
//! and those that are left one by one.

ghost use Rattle.osm_value.specs.Ranges.{IsWide};

use super::tables::expect_rows;
use osm_rows::{BlobKeeper, StoreFault};
use osm_value::{Element, Info, Member, MemberKind, Node, Relation, Way};
use pbf_frame::Kind;
use std::alloc::{AllocError, Global};
use std::test::*;
use store_vectors::memory::{CountedRows, NewStore, TablesInMemory};
use store_vectors::steps::loaded_lines;

/// How many elements a blob has, in turn.
const SIZES: [u8; 7] = [0, 1, 31, 32, 33, 64, 65];

/// 65 elements are 22 nodes, 22 ways and 21 relations. Their rows stand in the order of the elements: of each three, which
/// are a node, a way and a relation, the way has one tag and two links, the relation two and three.
const ROWS_OF_65: &[CountedRows] = &[
    ("SELECT count(*) FROM element", 65),
    ("SELECT count(*) FROM tag", 64),
    ("SELECT count(*) FROM link", 107),
    ("SELECT count(*) FROM element WHERE rowid = pos + 1", 65),
    ("SELECT count(*) FROM tag WHERE rowid = pos + k", 64),
    (
        "SELECT count(*) FROM link WHERE rowid = pos / 3 * 5 + pos % 3 * 2 - 1 + k",
        107,
    ),
];

fn no_info<'a>() -> Info<'a> {
    Info::new(None, None, None, None, None, None)
}

/// A way with two nodes and one tag.
fn way(alloc: Global, id: i64) -> Result<Element<'static>, AllocError>
    requires { IsWide id }
{
    let nodes = vec![in alloc; 5, 6]?;
    let tags = vec![in alloc; ("a", "bb")]?;
    Ok(Element::Way(Way::new(id, nodes, tags, no_info())))
}

/// A relation with three members and two tags.
fn relation(alloc: Global, id: i64) -> Result<Element<'static>, AllocError>
    requires { IsWide id }
{
    let members = vec![in alloc;
        Member::new(MemberKind::Way, 7, "c"),
        Member::new(MemberKind::Node, -1, ""),
        Member::new(MemberKind::Node, 2, ""),
    ]?;
    let tags = vec![in alloc; ("a", ""), ("bb", "a")]?;
    Ok(Element::Relation(Relation::new(id, members, tags, no_info())))
}

/// Nodes, ways and relations by turns, so that statements end between elements and inside them.
fn element_at(alloc: Global, position: u8) -> Result<Element<'static>, AllocError> {
    let place = i64::from(position);
    match position % 3 {
        0 => {
            let node = Node::new(place + 1000, place, place, Vec::new(alloc), no_info());
            Ok(Element::Node(node))
        }
        1 => way(alloc, place + 1000),
        _ => relation(alloc, place + 1000),
    }
}

fn elements_of(alloc: Global, size: u8) -> Result<Vec<Element<'static>>, AllocError> {
    let mut elements = Vec::new(alloc);
    for position in 0..size {
        elements.push(element_at(alloc, position)?)?;
    }
    Ok(elements)
}

/// The lines of so many elements.
fn lines_of(alloc: Global, size: u8) -> Result<Vec<u8>, Fail> {
    let mut lines = Vec::new(alloc);
    for position in 0..size {
        let id = i64::from(position) + 1000;
        let line = match position % 3 {
            0 => format!(in alloc; "n {id} {position} {position} [] {{}}\n")?,
            1 => format!(in alloc; "w {id} (5,6) [] {{a=bb}}\n")?,
            _ => format!(in alloc; "r {id} (w7@c,n-1@,n2@) [] {{a=,bb=a}}\n")?,
        };
        lines.extend_from_slice(line.as_bytes())?;
    }
    Ok(lines)
}

/// A store of tables with one blob of so many elements, at 100.
fn filled(alloc: Global, size: u8) -> Result<TablesInMemory, StoreFault> {
    let mut store = TablesInMemory::new_store(alloc)?;
    let elements = elements_of(alloc, size)?;
    store.put(alloc, 100, 200, &[5; 32], Kind::OsmData, &elements)?;
    Ok(store)
}

#[test]
fn loaded_batches(rt: HostRuntime) -> Result<(), Fail> {
    for size in SIZES {
        let mut store = filled(rt.alloc(), size)?;
        let loaded = loaded_lines(rt.alloc(), &mut store, 100)?;
        let wanted = lines_of(rt.alloc(), size)?;
        assert!(rt; loaded.as_slice() == wanted.as_slice(), "{size}");
    }
    Ok(())
}

#[test]
fn rows_of_batches(rt: HostRuntime) -> Result<(), Fail> {
    let mut tables = filled(rt.alloc(), 65)?.into_connection();
    expect_rows(&rt, &mut tables, ROWS_OF_65);
    Ok(())
}
