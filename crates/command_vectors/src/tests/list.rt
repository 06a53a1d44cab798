//! Tests of `list` over input in pieces, and over readers and writers that fail.

use super::support::{Breaking, Closed, Dripping, TWO_NODES};
use osm_value::Outlet;
use pbfrow_reading::list::list;
use std::alloc::Global;
use std::io::{Cursor, Read};
use std::process::Abort;
use std::test::*;

fn expect_list<R: Read>(
    rt: &(impl Abort + Alloc<A = Global>),
    input: &mut R,
    status: u8,
    text: &[u8],
) {
    let mut out = Outlet::new(Vec::new(rt.alloc()));
    assert_eq!(rt; list(rt.alloc(), input, &mut out), status);
    assert!(rt; out.into_inner().as_slice() == text);
}

#[test]
fn lists_pieces_of_each_length(rt: HostRuntime) {
    for step in 1..85 {
        let mut input = Dripping {
            given: &TWO_NODES[..],
            step,
        };
        expect_list(&rt, &mut input, 0, b"0 OSMHeader 30\n47 OSMData 22\n");
    }
}

fn expect_broken(rt: &(impl Abort + Alloc<A = Global>), given: &[u8], text: &[u8]) {
    expect_list(rt, &mut Breaking { given }, 1, text);
}

#[test]
fn reports_a_read_error_at_the_frame_that_was_read(rt: HostRuntime) {
    let two_nodes = &TWO_NODES[..];
    for length in 0..47 {
        expect_broken(&rt, &two_nodes[..length], b"fault 68 ReadFailed at 0\n");
    }
    for length in 47..84 {
        expect_broken(
            &rt,
            &two_nodes[..length],
            b"0 OSMHeader 30\nfault 68 ReadFailed at 47\n",
        );
    }
    expect_broken(
        &rt,
        two_nodes,
        b"0 OSMHeader 30\n47 OSMData 22\nfault 68 ReadFailed at 84\n",
    );
}

#[test]
fn reports_a_fault_before_it_reads_on(rt: HostRuntime) {
    expect_broken(&rt, &[0u8, 1, 0, 0], b"fault 11 HeaderTooLong at 0\n");
    expect_broken(&rt, &[0u8; 4], b"fault 14 NoType at 0\n");
    expect_broken(&rt, &[0u8, 1, 0], b"fault 68 ReadFailed at 0\n");
}

#[test]
fn reports_a_write_error(rt: HostRuntime) {
    assert_eq!(rt;
        list(
            rt.alloc(),
            &mut Cursor::new(&TWO_NODES[..]),
            &mut Outlet::new(Closed)
        ),
        1
    );
    assert_eq!(rt;
        list(
            rt.alloc(),
            &mut Cursor::new(&TWO_NODES[..0]),
            &mut Outlet::new(Closed)
        ),
        0
    );
}
