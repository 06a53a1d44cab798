//! Tests of `verify` over readers and writers that fail.

use super::stores::{Columns, NewStore, import_two_nodes};
use super::support::{Breaking, Closed, TWO_NODES, Unwatched};
use osm_value::Outlet;
use osm_verify::Depth;
use pbfrow_commands::verify::verify;
use std::io::Cursor;
use std::test::*;

#[test]
fn ends_where_a_read_fails(rt: HostRuntime) -> Result<(), Fail> {
    let alloc = rt.alloc();
    let mut store = Columns::new_store(alloc).ok_or("a store")?;
    import_two_nodes(&rt, &mut store);
    let mut out = Outlet::new(Vec::new(alloc));
    let mut input = Breaking {
        given: &TWO_NODES[..60],
    };
    let depth = Depth::Extents;
    let ended = verify(alloc, &mut store, &mut input, depth, &Unwatched, &mut out);
    assert_eq!(rt; ended, 1);
    assert!(rt; out.into_inner().as_slice() == b"fault 68 ReadFailed at 47\n".as_slice());
    Ok(())
}

#[test]
fn fails_where_nothing_is_written(rt: HostRuntime) -> Result<(), Fail> {
    let alloc = rt.alloc();
    let mut store = Columns::new_store(alloc).ok_or("a store")?;
    import_two_nodes(&rt, &mut store);
    let mut out = Outlet::new(Closed);
    let mut input = Cursor::new(&TWO_NODES[..]);
    let depth = Depth::Extents;
    let ended = verify(alloc, &mut store, &mut input, depth, &Unwatched, &mut out);
    assert_eq!(rt; ended, 1);
    Ok(())
}
