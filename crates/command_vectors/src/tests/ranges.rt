//! Tests of `ranges` over readers and writers that fail.

use super::support::{Breaking, Closed, TWO_NODES};
use osm_value::Outlet;
use pbfrow_reading::ranges::ranges;
use std::io::Cursor;
use std::test::*;

#[test]
fn prints_no_range_before_a_read_that_fails(rt: HostRuntime) {
    let mut out = Outlet::new(Vec::new(rt.alloc()));
    let mut input = Breaking {
        given: &TWO_NODES[..50],
    };
    assert_eq!(rt; ranges(rt.alloc(), &mut input, 2, &mut out), 1);
    assert!(rt; out.into_inner().as_slice() == b"fault 68 ReadFailed at 47\n".as_slice());
}

#[test]
fn ranges_that_cannot_be_written(rt: HostRuntime) {
    let mut out = Outlet::new(Closed);
    assert_eq!(rt;
        ranges(rt.alloc(), &mut Cursor::new(&TWO_NODES[..]), 2, &mut out),
        1
    );
}
