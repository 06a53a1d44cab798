//! Tests of `import` over readers and writers that fail.

use super::stores::{Blocks, Columns, NewStore, expect_import};
use super::support::{Breaking, Closed, TWO_NODES};
use osm_import::Told;
use osm_value::Outlet;
use pbfrow_commands::import::{Start, import};
use std::alloc::Global;
use std::io::Cursor;
use std::process::Abort;
use std::test::*;

/// The first byte of a whole file.
const START: Start = Start { dropped: 0, at: 0 };

fn stops_where_a_read_fails_of<K: NewStore, R: Abort + Alloc<A = Global>>(
    rt: &R,
) -> Result<(), Fail> {
    let mut store = K::new_store(rt.alloc()).ok_or("a store")?;
    expect_import(
        rt,
        &mut store,
        Breaking {
            given: &TWO_NODES[..60],
        },
        0,
        1,
        b"0 stored 0\nfault 68 ReadFailed at 47\n",
    );
    expect_import(
        rt,
        &mut store,
        Breaking {
            given: &TWO_NODES[..60],
        },
        70,
        1,
        b"fault 68 ReadFailed at 70\n",
    );
    Ok(())
}

#[test]
fn stops_where_a_read_fails(rt: HostRuntime) -> Result<(), Fail> {
    stops_where_a_read_fails_of::<Blocks, _>(&rt)?;
    stops_where_a_read_fails_of::<Columns, _>(&rt)
}

fn stops_where_a_write_fails_of<K: NewStore, R: Abort + Alloc<A = Global>>(
    rt: &R,
) -> Result<(), Fail> {
    let mut store = K::new_store(rt.alloc()).ok_or("a store")?;
    let mut out = Outlet::new(Closed);
    assert_eq!(rt;
        import(
            rt.alloc(),
            Cursor::new(&TWO_NODES[..]),
            &mut store,
            START,
            None,
            &Told::All,
            &mut out
        ),
        1
    );
    expect_import(
        rt,
        &mut store,
        Cursor::new(&TWO_NODES[..]),
        0,
        0,
        b"0 held\n47 stored 2\nblobs stored 1 held 1 bad 0 refused 0\n",
    );
    Ok(())
}

#[test]
fn stops_where_a_write_fails(rt: HostRuntime) -> Result<(), Fail> {
    stops_where_a_write_fails_of::<Blocks, _>(&rt)?;
    stops_where_a_write_fails_of::<Columns, _>(&rt)
}
