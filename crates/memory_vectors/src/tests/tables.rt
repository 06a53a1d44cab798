//! The rows of numbers and texts of stores in memory, by values from outside, and the answers of both layouts for elements
//! with tags, nodes and members.

use osm_import::Answer;
use osm_old_store::BodyStore;
use osm_rows::StoreFault;
use osm_sql_store::TableStore;
use osm_value::MemberKind;
use sqlite::{Alter, Connection, MemStore};
use std::alloc::Global;
use std::process::Abort;
use std::test::*;
use store_vectors::fixtures::{
    LINES, PLACED_HEADER, PLACED_NODES, PLACED_RELATION, PLACED_WAY, RELATION, RELATION_FRAME, WAY,
    WAY_FRAME,
};
use store_vectors::memory::{CountedRows, NODES_AS_ROWS, TablesInMemory, number};
use store_vectors::steps::{
    PUT_HEADER, PUT_NODES, STORE_HEADER, STORE_NODES, Step, followed, over_all_stores,
};

const PUT_RELATION: Step = Step::Put(PLACED_RELATION, RELATION, Ok(()));

const PUT_WAY: Step = Step::Put(PLACED_WAY, WAY, Ok(()));

/// The file, and behind it the frames of a relation and of a way, the latter with its fields in pieces.
const FOUR_BLOBS: &[Step] = &[
    STORE_HEADER,
    STORE_NODES,
    Step::Deliver(84, RELATION_FRAME, Answer::Stored(1)),
    Step::Deliver(151, WAY_FRAME, Answer::Stored(1)),
];

/// What is shown of the four blobs, beside the numbers of the nodes. Digests are as coreutils' sha256sum prints them.
const ROWS: &[CountedRows] = &[
    ("SELECT sum(version) FROM meta", 2),
    ("SELECT count(*) FROM blob", 4),
    (
        "SELECT count(*) FROM blob WHERE off = 47 AND fin = 84 AND kind = 1 AND n = 2",
        1,
    ),
    (
        "SELECT count(*) FROM blob WHERE off = 84 AND fin = 151 AND digest = x'04508D51E338613C2142CCF784DB0C6C1FB7CF403D278D5F9B071FA508213550' AND kind = 1 AND n = 1",
        1,
    ),
    (
        "SELECT count(*) FROM blob WHERE off = 151 AND fin = 201 AND digest = x'D81232FE3C6B2628AA6BD286FFBBB6F4E575AE07738E737A4FD4A06AB18D79DE' AND kind = 1 AND n = 1",
        1,
    ),
    // no element says anything of its last change
    (
        "SELECT count(*) FROM element WHERE version IS NULL AND time IS NULL AND changeset IS NULL AND uid IS NULL AND user IS NULL AND visible IS NULL",
        4,
    ),
    // the nodes have neither tags nor links
    ("SELECT count(*) FROM tag WHERE off = 47", 0),
    ("SELECT count(*) FROM link WHERE off = 47", 0),
    // the relation
    (
        "SELECT count(*) FROM element WHERE off = 84 AND pos = 0 AND kind = 2 AND id = 9 AND lat IS NULL AND lon IS NULL",
        1,
    ),
    (
        "SELECT count(*) FROM tag WHERE off = 84 AND pos = 0 AND k = 0 AND key = 'name' AND val = 'a b,c'",
        1,
    ),
    ("SELECT count(*) FROM link WHERE off = 84", 2),
    (
        "SELECT count(*) FROM link WHERE off = 84 AND pos = 0 AND k = 0 AND kind = 0 AND ref = 1 AND role = 'outer'",
        1,
    ),
    (
        "SELECT count(*) FROM link WHERE off = 84 AND pos = 0 AND k = 1 AND kind = 1 AND ref = -2 AND role = ''",
        1,
    ),
    // the way
    (
        "SELECT count(*) FROM element WHERE off = 151 AND pos = 0 AND kind = 1 AND id = 7 AND lat IS NULL AND lon IS NULL",
        1,
    ),
    (
        "SELECT count(*) FROM tag WHERE off = 151 AND pos = 0 AND k = 0 AND key = 'a' AND val = 'b'",
        1,
    ),
    (
        "SELECT count(*) FROM link WHERE off = 151 AND pos = 0 AND kind = 0 AND role = ''",
        4,
    ),
    ("SELECT ref FROM link WHERE off = 151 AND k = 0", 5),
    ("SELECT ref FROM link WHERE off = 151 AND k = 1", 6),
    ("SELECT ref FROM link WHERE off = 151 AND k = 2", 7),
    ("SELECT ref FROM link WHERE off = 151 AND k = 3", 6),
    ("SELECT count(*) FROM element", 4),
    ("SELECT count(*) FROM tag", 2),
    ("SELECT count(*) FROM link", 6),
];

/// The tables once these steps were taken.
pub(crate) fn filled(alloc: Global, steps: &[Step]) -> Result<Connection<MemStore>, Fail> {
    let store: TablesInMemory = followed(alloc, "tables", steps)?;
    Ok(store.into_connection())
}

/// Expects that each query shows its number.
pub(crate) fn expect_rows<S: Alter, R: Abort>(
    rt: &R,
    connection: &mut Connection<S>,
    rows: &[CountedRows],
) {
    for (sql, wanted) in rows {
        assert_eq!(rt; number(connection, sql), Some(*wanted), "{sql}");
    }
}

#[test]
fn rows_of_four_blobs(rt: HostRuntime) -> Result<(), Fail> {
    let mut tables = filled(rt.alloc(), FOUR_BLOBS)?;
    expect_rows(&rt, &mut tables, ROWS);
    expect_rows(&rt, &mut tables, NODES_AS_ROWS);
    Ok(())
}

#[test]
fn another_layout_is_refused(rt: HostRuntime) -> Result<(), Fail> {
    let tables = filled(rt.alloc(), FOUR_BLOBS)?;
    assert!(rt; tables.is_autocommit());
    match BodyStore::adopt(tables) {
        Ok(_) => return Err("a store of bodies".into()),
        Err((fault, connection)) => {
            assert!(rt; fault == StoreFault::NotThisStore(Some(2)));
            assert!(rt; TableStore::adopt(connection).is_ok());
        }
    }
    Ok(())
}

#[test]
fn a_store_of_bodies_is_refused(rt: HostRuntime) -> Result<(), Fail> {
    let connection = Connection::open_in_memory(rt.alloc())?;
    let store = BodyStore::create(connection).ok().ok_or("a store")?;
    let bodies = store.into_connection();
    assert!(rt; bodies.is_autocommit());
    match TableStore::adopt(bodies) {
        Ok(_) => return Err("a store of tables".into()),
        Err((fault, connection)) => {
            assert!(rt; fault == StoreFault::NotThisStore(Some(1)));
            assert!(rt; BodyStore::adopt(connection).is_ok());
        }
    }
    Ok(())
}

#[test]
fn loaded_and_found_elements(rt: HostRuntime) -> Result<(), Fail> {
    const STEPS: &[Step] = &[
        PUT_HEADER,
        PUT_NODES,
        PUT_RELATION,
        PUT_WAY,
        Step::Loads(47, LINES),
        Step::Loads(150, b"w 7 (5,6,7,6) [] {a=b}\n"),
        Step::Finds(
            MemberKind::Relation,
            9,
            b"84 0 r 9 (n1@outer,w-2@) [] {name=a%20b%2Cc}\n",
        ),
        Step::Finds(MemberKind::Node, 9, b""),
        Step::Extents(&[PLACED_HEADER, PLACED_NODES, PLACED_RELATION, PLACED_WAY]),
        Step::Touching(83, 85, &[PLACED_NODES, PLACED_RELATION]),
        Step::Failures(0),
    ];
    over_all_stores(rt.alloc(), STEPS)
}

/// Why tables that these statements changed aren't adopted.
fn adopting_after(
    mut tables: Connection<MemStore>,
    statements: &[&str],
) -> Result<Option<StoreFault>, Fail> {
    for statement in statements {
        tables.execute(statement, &[])?;
    }
    if !tables.is_autocommit() {
        return Ok(None);
    }
    Ok(match TableStore::adopt(tables) {
        Ok(_) => None,
        Err((fault, _)) => Some(fault),
    })
}

/// A table that is gone, one of another name, and one that lacks a column.
#[test]
fn tables_that_are_not_whole(rt: HostRuntime) -> Result<(), Fail> {
    const CHANGES: [&[&str]; 3] = [
        &["DROP TABLE link"],
        &[
            "DROP TABLE blob",
            "CREATE TABLE blobs (off INTEGER PRIMARY KEY)",
        ],
        &[
            "DROP TABLE tag",
            "CREATE TABLE tag (off INTEGER, pos INTEGER, k INTEGER, key TEXT, value TEXT)",
        ],
    ];
    for change in CHANGES {
        let fault = adopting_after(filled(rt.alloc(), FOUR_BLOBS)?, change)?;
        assert_eq!(rt; fault, Some(StoreFault::NotThisStore(None)));
    }
    let beside = ["CREATE INDEX tag_by_key ON tag (key)"];
    let fault = adopting_after(filled(rt.alloc(), FOUR_BLOBS)?, &beside)?;
    assert_eq!(rt; fault, None);
    Ok(())
}
