//! Tests of `merge` over a store that can't be opened and over a writer that fails.

use super::stores::{Columns, NewStore, expect_import, import_two_nodes};
use super::support::{Closed, TWO_NODES};
use osm_parts::Shelf;
use osm_rows::BlobKeeper;
use osm_value::{Form, Outlet};
use pbfrow_commands::export::export;
use pbfrow_commands::merge::merge_all;
use std::alloc::Global;
use std::io::Cursor;
use std::process::Abort;
use std::test::*;

fn import_header<K: BlobKeeper>(rt: &(impl Abort + Alloc<A = Global>), store: &mut K) {
    let text = b"0 stored 0\nblobs stored 1 held 0 bad 0 refused 0\n";
    expect_import(rt, store, Cursor::new(&TWO_NODES[..47]), 0, 0, text);
}

/// Imports the file without its first 47 bytes.
fn import_nodes<K: BlobKeeper>(rt: &(impl Abort + Alloc<A = Global>), store: &mut K) {
    let text = b"47 stored 2\nblobs stored 1 held 0 bad 0 refused 0\n";
    expect_import(rt, store, Cursor::new(&TWO_NODES[..]), 47, 0, text);
}

/// The file of two nodes is held, and nothing else.
fn expect_both_nodes<K: BlobKeeper>(rt: &(impl Abort + Alloc<A = Global>), store: &mut K) {
    let mut out = Outlet::new(Vec::new(rt.alloc()));
    assert_eq!(rt;
        export(rt.alloc(), store, Some(84), false, Form::Lines, &mut out),
        0
    );
    let lines = b"n 1 1000 -100 [] {}\nn 2 900 -100 [] {}\n";
    assert!(rt; out.into_inner().as_slice() == lines.as_slice());
}

/// Stores of the second part of the file, of the first one, and of both.
fn shelf_of_parts<K: NewStore>(rt: &(impl Abort + Alloc<A = Global>)) -> Result<Shelf<K>, Fail> {
    let mut shelf = Shelf::new(rt.alloc());
    let mut nodes = K::new_store(rt.alloc()).ok_or("a store")?;
    import_nodes(rt, &mut nodes);
    shelf.push(nodes)?;
    let mut header = K::new_store(rt.alloc()).ok_or("a store")?;
    import_header(rt, &mut header);
    shelf.push(header)?;
    let mut whole = K::new_store(rt.alloc()).ok_or("a store")?;
    import_two_nodes(rt, &mut whole);
    shelf.push(whole)?;
    Ok(shelf)
}

/// A merge of the stores at so many places of a shelf, its exit status, and what it writes.
fn expect_merge_of<F: NewStore, T: BlobKeeper>(
    rt: &(impl Abort + Alloc<A = Global>),
    shelf: &mut Shelf<F>,
    count: u64,
    into: &mut T,
    status: u8,
    text: &[u8],
) {
    let mut out = Outlet::new(Vec::new(rt.alloc()));
    let ended = merge_all::<F, _, _, _>(rt.alloc(), shelf, count, into, &mut out);
    assert_eq!(rt; ended, status);
    assert!(rt; out.into_inner().as_slice() == text);
}

/// A place without a store ends a merge. What the stores before it hold was copied, and stays.
fn merges_that_fail_of<F: NewStore, T: NewStore>(
    rt: &(impl Abort + Alloc<A = Global>),
) -> Result<(), Fail> {
    let mut shelf = shelf_of_parts::<F>(rt)?;
    let mut into = T::new_store(rt.alloc()).ok_or("a store")?;
    let text = b"copied 1 held 0\ncopied 1 held 0\ncopied 0 held 2\nfault 65 Disk\n";
    expect_merge_of(rt, &mut shelf, 4, &mut into, 1, text);
    expect_both_nodes(rt, &mut into);
    let mut closed = Outlet::new(Closed);
    assert_eq!(rt;
        merge_all::<F, _, _, _>(rt.alloc(), &mut shelf, 3, &mut into, &mut closed),
        1
    );
    Ok(())
}

#[test]
fn merges_that_fail(rt: HostRuntime) -> Result<(), Fail> {
    merges_that_fail_of::<Columns, Columns>(&rt)
}
