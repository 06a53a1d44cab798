//! Tests of `import` of what has to reach an offset over readers that fail before it and behind it, and of where one seeks to.

use super::stores::{Blocks, Columns, NewStore};
use super::support::{Breaking, TWO_NODES};
use osm_import::Told;
use osm_rows::BlobKeeper;
use osm_value::Outlet;
use pbfrow_commands::import::{Start, import, seek_start};
use std::alloc::Global;
use std::io::Cursor;
use std::process::Abort;
use std::test::*;

/// Imports what a reader gives before it fails, which has to reach as far as `to`.
fn expect_import_to<K: BlobKeeper>(
    rt: &(impl Abort + Alloc<A = Global>),
    store: &mut K,
    given: &[u8],
    to: u8,
    status: u8,
    text: &[u8],
) {
    let mut out = Outlet::new(Vec::new(rt.alloc()));
    let start = Start { dropped: 0, at: 0 };
    if start.at < u64::from(to) {
        let ended = import(
            rt.alloc(),
            Breaking { given },
            store,
            start,
            Some(u64::from(to)),
            &Told::All,
            &mut out,
        );
        assert_eq!(rt; ended, status);
    }
    assert!(rt; out.into_inner().as_slice() == text);
}

fn reads_no_further_of<K: NewStore, R: Abort + Alloc<A = Global>>(rt: &R) -> Result<(), Fail> {
    let mut store = K::new_store(rt.alloc()).ok_or("a store")?;
    // what fails behind the offset isn't read
    let text = b"0 stored 0\nblobs stored 1 held 0 bad 0 refused 0\n";
    expect_import_to(rt, &mut store, &TWO_NODES[..47], 47, 0, text);
    let text = b"0 held\nfault 68 ReadFailed at 47\n";
    expect_import_to(rt, &mut store, &TWO_NODES[..60], 84, 1, text);
    Ok(())
}

#[test]
fn reads_no_further(rt: HostRuntime) -> Result<(), Fail> {
    reads_no_further_of::<Blocks, _>(&rt)?;
    reads_no_further_of::<Columns, _>(&rt)
}

#[test]
fn seeks_to_the_last_dropped_byte(rt: HostRuntime) {
    for (dropped, left, place) in [(0, 0, 0), (1, 1, 0), (47, 1, 46), (1000, 1, 999)] {
        let mut input = Cursor::new(&TWO_NODES[..]);
        let start = seek_start(&mut input, Start { dropped, at: 1000 });
        assert_eq!(rt; start.dropped, left);
        assert_eq!(rt; start.at, 1000);
        assert_eq!(rt; input.position(), place);
    }
}
