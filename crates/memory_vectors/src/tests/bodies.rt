//! The rows of stores of bodies in memory, by values from outside, and which databases are stores of this kind.

use super::tables::expect_rows;
use osm_old_store::BodyStore;
use osm_rows::StoreFault;
use sqlite::{Connection, MemStore};
use std::alloc::Global;
use std::process::Abort;
use std::test::*;
use store_vectors::fixtures::{HELD_HEADER, HELD_NODES};
use store_vectors::memory::{BodiesInMemory, CountedRows, NODES_AS_BODIES};
use store_vectors::steps::{
    PUT_HEADER, PUT_NODES, STORE_EXTRA, STORE_HEADER, STORE_NODES, Step, followed,
};

/// Of a header's blob at 0 and a blob of two nodes at 47.
const TWO_BLOBS: &[CountedRows] = &[
    ("SELECT count(*) FROM meta", 1),
    ("SELECT version FROM meta", 1),
    ("SELECT count(*) FROM blob", 2),
    (
        "SELECT count(*) FROM blob WHERE off = 0 AND fin = 47 AND kind = 0 AND n = 0",
        1,
    ),
    (
        "SELECT count(*) FROM blob WHERE off = 47 AND fin = 84 AND kind = 1 AND n = 2",
        1,
    ),
    ("SELECT count(*) FROM body", 2),
];

/// The digests with which they are put.
const PUT_DIGESTS: &[CountedRows] = &[
    (
        "SELECT count(*) FROM blob WHERE off = 0 AND digest = x'0101010101010101010101010101010101010101010101010101010101010101'",
        1,
    ),
    (
        "SELECT count(*) FROM blob WHERE off = 47 AND digest = x'0202020202020202020202020202020202020202020202020202020202020202'",
        1,
    ),
];

/// Those of their frames, as coreutils' sha256sum prints them.
const DIGESTS: &[CountedRows] = &[
    (
        "SELECT count(*) FROM blob WHERE off = 0 AND digest = x'21174055AD6AAF5DC86049F762EA2F3BF6B45EE30BF18731181BDF8E26FA7ADB'",
        1,
    ),
    (
        "SELECT count(*) FROM blob WHERE off = 47 AND digest = x'3CB873ED49C8E9CB7557CD110EAE8BD5A1853D08DB3B0FD4A445197047B413A0'",
        1,
    ),
];

/// Of these and a blob of another type; its digest too is as coreutils' sha256sum prints it.
const THREE_BLOBS: &[CountedRows] = &[
    ("SELECT count(*) FROM blob", 3),
    (
        "SELECT count(*) FROM blob WHERE off = 84 AND digest = x'72C0BB206B932BF0862686CD876EF7B5A02FAC8D2785922BC4DA85B62CB2FE7F'",
        1,
    ),
    (
        "SELECT count(*) FROM blob WHERE off = 84 AND fin = 100 AND kind = 2 AND n = 0",
        1,
    ),
    ("SELECT count(*) FROM body", 2),
    ("SELECT count(*) FROM body WHERE off = 84", 0),
];

/// The database of a new store of bodies after these steps.
fn database_after(alloc: Global, steps: &[Step]) -> Result<Connection<MemStore>, Fail> {
    let store: BodiesInMemory = followed(alloc, "bodies", steps)?;
    Ok(store.into_connection())
}

/// Expects these rows after these steps.
fn expect_rows_after<R: Abort + Alloc<A = Global>>(
    rt: &R,
    steps: &[Step],
    tables: &[&[CountedRows]],
) -> Result<(), Fail> {
    let mut database = database_after(rt.alloc(), steps)?;
    for rows in tables {
        expect_rows(rt, &mut database, rows);
    }
    Ok(())
}

#[test]
fn rows_of_two_blobs(rt: HostRuntime) -> Result<(), Fail> {
    const STEPS: &[Step] = &[PUT_NODES, PUT_HEADER];
    expect_rows_after(&rt, STEPS, &[TWO_BLOBS, PUT_DIGESTS, NODES_AS_BODIES])
}

#[test]
fn rows_of_a_delivered_file(rt: HostRuntime) -> Result<(), Fail> {
    const STEPS: &[Step] = &[
        STORE_HEADER,
        STORE_NODES,
        Step::Extents(&[HELD_HEADER, HELD_NODES]),
    ];
    expect_rows_after(&rt, STEPS, &[TWO_BLOBS, DIGESTS, NODES_AS_BODIES])
}

#[test]
fn rows_of_another_type(rt: HostRuntime) -> Result<(), Fail> {
    const STEPS: &[Step] = &[STORE_NODES, STORE_HEADER, STORE_EXTRA];
    expect_rows_after(&rt, STEPS, &[THREE_BLOBS, DIGESTS])
}

/// Why the database isn't adopted.
fn adopting(connection: Connection<MemStore>) -> Option<StoreFault> {
    if !connection.is_autocommit() {
        return None;
    }
    match BodyStore::adopt(connection) {
        Ok(_) => None,
        Err((fault, _)) => Some(fault),
    }
}

/// Why the tables aren't made.
fn creating(connection: Connection<MemStore>) -> Option<StoreFault> {
    if !connection.is_autocommit() {
        return None;
    }
    match BodyStore::create(connection) {
        Ok(_) => None,
        Err((fault, _)) => Some(fault),
    }
}

#[test]
fn adopted_databases(rt: HostRuntime) -> Result<(), Fail> {
    const STEPS: &[Step] = &[PUT_NODES, PUT_HEADER];
    let empty = Connection::open_in_memory(rt.alloc())?;
    assert_eq!(rt; adopting(empty), Some(StoreFault::NotThisStore(None)));
    let mut other = database_after(rt.alloc(), STEPS)?;
    other.execute("UPDATE meta SET version = 2", &[])?;
    assert_eq!(rt; adopting(other), Some(StoreFault::NotThisStore(Some(2))));
    assert_eq!(rt; adopting(database_after(rt.alloc(), STEPS)?), None);
    Ok(())
}

/// Tables of a store, and one of another program.
#[test]
fn a_table_stands_already(rt: HostRuntime) -> Result<(), Fail> {
    let store = database_after(rt.alloc(), &[PUT_NODES, PUT_HEADER])?;
    assert_eq!(rt; creating(store), Some(StoreFault::NotThisStore(None)));
    let mut other = Connection::open_in_memory(rt.alloc())?;
    other.execute("CREATE TABLE note (id INTEGER PRIMARY KEY) STRICT", &[])?;
    assert_eq!(rt; creating(other), Some(StoreFault::NotThisStore(None)));
    Ok(())
}
