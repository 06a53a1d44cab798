//! Whether indexes added to a store's tables are whole.

use osm_databases::stores::with_whole_added_indexes;
use sqlite::{Alter, MemStore};
use std::alloc::{AllocError, Global};
use std::test::*;
use store_vectors::damage::{add_entry, take_entry, write_element};
use store_vectors::memory::TablesInMemory;
use store_vectors::steps::{FIVE_BLOBS, followed};

/// Indexes of one's own: one in the plain order, and two in others. Their trees are those behind the nine of a store.
const ADDED: &str =
    "CREATE INDEX tag_by_key ON tag (key, val); CREATE INDEX backwards ON element (id DESC, kind); CREATE INDEX link_by_role ON link (role COLLATE NOCASE DESC, ref)";

/// The tree of the first of them.
const TAG_BY_KEY: u32 = 9;

/// The trees of the five blobs, with these indexes.
fn indexed_blobs(alloc: Global) -> Result<MemStore, Fail> {
    let store: TablesInMemory = followed(alloc, "tables", FIVE_BLOBS)?;
    let mut connection = store.into_connection();
    connection.execute_batch(ADDED)?;
    Ok(connection.into_store())
}

/// The fault of trees of which an index that the user has added isn't whole, and what is said of it.
fn told_of_added<S: Alter + Drop>(alloc: Global, trees: S) -> Result<String, AllocError> {
    match with_whole_added_indexes(alloc, trees) {
        Ok(_) => format!(in alloc; "whole"),
        Err(refusal) => format!(in alloc; "{:?}, {}", refusal.fault, refusal.reason),
    }
}

/// Indexes that the user has added: whole, without an entry, with one too many, and with that of another row.
#[test]
fn added_indexes(rt: HostRuntime) -> Result<(), Fail> {
    const TAGS_TOLD: &str = "Disk, damaged: its index tag_by_key has not one entry for each row";
    const ELEMENTS_TOLD: &str = "Disk, damaged: its index backwards has not one entry for each row";
    let alloc = rt.alloc();
    let trees = indexed_blobs(alloc)?;
    assert_eq!(rt; told_of_added(alloc, trees)?.as_str(), "whole");
    let mut trees = indexed_blobs(alloc)?;
    take_entry(alloc, &mut trees, TAG_BY_KEY).ok_or("an entry")?;
    assert_eq!(rt; told_of_added(alloc, trees)?.as_str(), TAGS_TOLD);
    let mut trees = indexed_blobs(alloc)?;
    add_entry(alloc, &mut trees, TAG_BY_KEY).ok_or("an entry")?;
    assert_eq!(rt; told_of_added(alloc, trees)?.as_str(), TAGS_TOLD);
    let mut trees = indexed_blobs(alloc)?;
    write_element(alloc, &mut trees, 13, 5).ok_or("a row")?;
    assert_eq!(rt; told_of_added(alloc, trees)?.as_str(), ELEMENTS_TOLD);
    Ok(())
}
