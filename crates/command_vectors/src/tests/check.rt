//! Tests of `check` over readers and writers that fail.

use super::support::{Breaking, Closed, TWO_NODES, Unwatched};
use osm_value::Outlet;
use pbfrow_reading::check::check;
use std::alloc::Global;
use std::io::Cursor;
use std::process::Abort;
use std::test::*;

fn expect_broken(rt: &(impl Abort + Alloc<A = Global>), length: usize, text: &[u8]) {
    let mut out = Outlet::new(Vec::new(rt.alloc()));
    let mut input = Breaking {
        given: TWO_NODES.split_at(length.min(84)).0,
    };
    assert_eq!(rt; check(rt.alloc(), &mut input, &Unwatched, &mut out), 1);
    assert!(rt; out.into_inner().as_slice() == text);
}

#[test]
fn ends_with_a_read_error(rt: HostRuntime) {
    for length in 0..47 {
        expect_broken(&rt, length, b"fault 68 ReadFailed at 0\n");
    }
    for length in 47..84 {
        expect_broken(&rt, length, b"fault 68 ReadFailed at 47\n");
    }
    expect_broken(&rt, 84, b"fault 68 ReadFailed at 84\n");
}

#[test]
fn reports_a_write_error(rt: HostRuntime) {
    assert_eq!(rt;
        check(
            rt.alloc(),
            &mut Cursor::new(&TWO_NODES[..47]),
            &Unwatched,
            &mut Outlet::new(Closed)
        ),
        1
    );
}
