//! Tests of `status`, `export` and `find` over writers that fail, and of the line of refused memory.

use super::stores::{Blocks, Columns, NewStore, import_two_nodes};
use super::support::Closed;
use osm_value::{Form, MemberKind, Outlet};
use pbfrow_commands::export::export;
use pbfrow_commands::find::find;
use pbfrow_commands::status::status;
use pbfrow_reading::report::refuse_memory;
use std::alloc::Global;
use std::process::Abort;
use std::test::*;

fn a_write_that_fails_ends_with_1_of<K: NewStore, R: Abort + Alloc<A = Global>>(
    rt: &R,
) -> Result<(), Fail> {
    let mut store = K::new_store(rt.alloc()).ok_or("a store")?;
    import_two_nodes(rt, &mut store);
    assert_eq!(rt;
        status(rt.alloc(), &mut store, None, &mut Outlet::new(Closed)),
        1
    );
    assert_eq!(rt;
        find(
            rt.alloc(),
            &mut store,
            MemberKind::Node,
            2,
            &mut Outlet::new(Closed)
        ),
        1
    );
    assert_eq!(rt;
        export(
            rt.alloc(),
            &mut store,
            None,
            false,
            Form::Lines,
            &mut Outlet::new(Closed)
        ),
        1
    );
    Ok(())
}

#[test]
fn a_write_that_fails_ends_with_1(rt: HostRuntime) -> Result<(), Fail> {
    a_write_that_fails_ends_with_1_of::<Blocks, _>(&rt)?;
    a_write_that_fails_ends_with_1_of::<Columns, _>(&rt)
}

#[test]
fn lines_of_refused_memory(rt: HostRuntime) {
    for (at, line) in [
        (None, b"fault 65 Memory\n".as_slice()),
        (Some(47), b"fault 65 Memory at 47\n".as_slice()),
    ] {
        let mut out = Outlet::new(Vec::new(rt.alloc()));
        assert_eq!(rt; refuse_memory(&mut out, at), 1);
        assert!(rt; out.into_inner().as_slice() == line);
    }
}
