//! Tests of `migrate` over a writer that fails.

use super::stores::{Blocks, Columns, NewStore, import_two_nodes};
use super::support::Closed;
use osm_rows::BlobKeeper;
use osm_value::Outlet;
use pbfrow_commands::migrate::migrate;
use pbfrow_commands::status::status;
use std::alloc::Global;
use std::process::Abort;
use std::test::*;

fn expect_status<K: BlobKeeper>(rt: &(impl Abort + Alloc<A = Global>), store: &mut K, text: &[u8]) {
    let mut out = Outlet::new(Vec::new(rt.alloc()));
    assert_eq!(rt; status(rt.alloc(), store, None, &mut out), 0);
    assert!(rt; out.into_inner().as_slice() == text);
}

/// The blobs are copied, also where the line can't be written.
#[test]
fn migrates_with_no_output(rt: HostRuntime) -> Result<(), Fail> {
    let mut old = Blocks::new_store(rt.alloc()).ok_or("a store")?;
    import_two_nodes(&rt, &mut old);
    let mut new = Columns::new_store(rt.alloc()).ok_or("a store")?;
    assert_eq!(rt;
        migrate(rt.alloc(), &mut old, &mut new, &mut Outlet::new(Closed)),
        1
    );
    expect_status(&rt, &mut new, b"blobs 2 end 84 gaps 0\n");
    Ok(())
}
