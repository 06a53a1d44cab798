//! Tests of what `status --counts` counts, and of it where the output fails or a store can't be opened.

ghost use Rattle.std.specs.Prelude.{◌≡◌, None};
ghost use Rattle.osm_value.specs.Ranges.{IsInfo};

use super::parts::Ranges;
use super::stores::{Columns, NewStore, import_two_nodes};
use super::support::{Closed, TWO_NODES};
use osm_value::{Element, Info, Member, MemberKind, Node, Outlet, Relation, Way};
use pbfrow_commands::counts::{status_parts_with_counts, status_with_counts};
use pbfrow_counts::{ElementCounts, put_element_counts};
use std::test::*;

fn at<'a>(time: Option<i64>) -> Info<'a>
    requires { IsInfo (record { version = None; time = time; changeset = None; uid = None; user = None; visible = None }) }
    ensures { result ≡ record { version = None; time = time; changeset = None; uid = None; user = None; visible = None } }
{
    Info::new(None, time, None, None, None, None)
}

#[test]
fn elements_are_counted(rt: HostRuntime) -> Result<(), Fail> {
    let alloc = rt.alloc();
    let node = Node::new(
        1,
        0,
        0,
        vec![in alloc; ("a", "b"), ("c", "d")]?,
        at(Some(3000)),
    );
    let way = Way::new(
        2,
        vec![in alloc; 1, 5, 1]?,
        vec![in alloc; ("a", "b")]?,
        at(Some(-7)),
    );
    let member = Member::new(MemberKind::Way, 2, "outer");
    let relation = Relation::new(3, vec![in alloc; member]?, vec![in alloc]?, at(None));
    let elements = vec![in alloc;
        Element::Node(node),
        Element::Way(way),
        Element::Relation(relation),
    ]?;
    let mut counts = ElementCounts::none();
    counts.add(&elements);
    counts.add(&elements[..1]);
    let mut out = Outlet::new(Vec::new(alloc));
    put_element_counts(&mut out, &counts);
    assert!(rt;
        out.into_inner().as_slice()
            == b"nodes 2 ways 1 relations 1\ntags 5 links 4\noldest -7 newest 3000\n".as_slice()
    );
    Ok(())
}

#[test]
fn counts_that_cannot_be_written(rt: HostRuntime) -> Result<(), Fail> {
    let alloc = rt.alloc();
    let mut store = Columns::new_store(alloc).ok_or("a store")?;
    import_two_nodes(&rt, &mut store);
    let mut closed = Outlet::new(Closed);
    assert_eq!(rt; status_with_counts(alloc, &mut store, None, &mut closed), 1);
    Ok(())
}

/// The counts of two stores and of a third one that isn't there end with the line of its fault.
#[test]
fn counts_of_a_part_that_cannot_be_opened(rt: HostRuntime) {
    let alloc = rt.alloc();
    let mut openings = Ranges {
        alloc,
        file: TWO_NODES,
        stores: &[&[(47, 84, 47)], &[(0, 47, 0)]],
        failures: 0,
    };
    let mut out = Outlet::new(Vec::new(alloc));
    let status = status_parts_with_counts::<Columns, _, _>(alloc, &mut openings, 3, None, &mut out);
    assert_eq!(rt; status, 1);
    assert!(rt; out.into_inner().as_slice() == b"fault 65 Disk\n".as_slice());
}
