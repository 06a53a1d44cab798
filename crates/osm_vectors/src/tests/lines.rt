//! Lines of elements, the numbers and texts in them, and writers that fail.

use super::nothing_known;
use crate::FailingWriter;
use crate::vectors::*;
use osm_block::read_block;
use osm_value::{
    Element, Info, LineFault, Member, MemberKind, Node, Outlet, Relation, Sink, Way, put,
    put_digits, put_escaped, put_number, write_line,
};
use std::alloc::Global;
use std::io::BufWriter;
use std::process::Abort;
use std::test::*;

/// Whether this is the element's line.
fn has_line(rt: &HostRuntime, element: &Element, line: &str) -> Result<bool, Fail> {
    let mut outlet = Outlet::new(Vec::new(rt.alloc()));
    write_line(element, &mut outlet)?;
    Ok(outlet.into_inner().as_slice() == line.as_bytes())
}

#[test]
fn lines_of_nodes(rt: HostRuntime) -> Result<(), Fail> {
    let alloc = rt.alloc();
    let bare = Node::new(2, 900, -100, vec![in alloc]?, nothing_known());
    assert!(rt; has_line(&rt, &Element::Node(bare), "n 2 900 -100 [] {}\n")?);
    let greatest = 4_611_686_018_427_387_903;
    let widest = Node::new(1, greatest, 0, vec![in alloc]?, nothing_known());
    assert!(rt;
        has_line(
            &rt,
            &Element::Node(widest),
            "n 1 4611686018427387903 0 [] {}\n"
        )?
    );
    Ok(())
}

#[test]
fn lines_of_known_nodes(rt: HostRuntime) -> Result<(), Fail> {
    let info = Info::new(Some(1), Some(1000), Some(5), Some(7), Some("u"), None);
    let known = Node::new(1, 0, 0, vec![in rt.alloc()]?, info);
    assert!(rt;
        has_line(
            &rt,
            &Element::Node(known),
            "n 1 0 0 [v=1,t=1000,c=5,i=7,u=u] {}\n"
        )?
    );
    let info = Info::new(None, None, None, None, Some("x y"), None);
    let escaped = Node::new(-3, 5, 0, vec![in rt.alloc(); ("k", "é%")]?, info);
    assert!(rt;
        has_line(
            &rt,
            &Element::Node(escaped),
            "n -3 5 0 [u=x%20y] {k=é%25}\n"
        )?
    );
    Ok(())
}

#[test]
fn lines_of_ways(rt: HostRuntime) -> Result<(), Fail> {
    let refs = vec![in rt.alloc(); 5, 6, 7, 6]?;
    let way = Way::new(7, refs, vec![in rt.alloc(); ("a", "b")]?, nothing_known());
    assert!(rt; has_line(&rt, &Element::Way(way), "w 7 (5,6,7,6) [] {a=b}\n")?);
    let info = Info::new(Some(2), Some(3000), Some(4), Some(-1), Some("u"), None);
    let known = Way::new(7, vec![in rt.alloc()]?, vec![in rt.alloc()]?, info);
    assert!(rt;
        has_line(
            &rt,
            &Element::Way(known),
            "w 7 () [v=2,t=3000,c=4,i=-1,u=u] {}\n"
        )?
    );
    Ok(())
}

/// The flag of visibility stands behind the user.
#[test]
fn lines_of_flags(rt: HostRuntime) -> Result<(), Fail> {
    let alloc = rt.alloc();
    let visible = Info::new(None, None, None, None, None, Some(true));
    let node = Node::new(1, 100, 100, vec![in alloc]?, visible);
    assert!(rt; has_line(&rt, &Element::Node(node), "n 1 100 100 [x=1] {}\n")?);
    let deleted = Info::new(Some(2), None, None, None, Some("u"), Some(false));
    let way = Way::new(7, vec![in alloc]?, vec![in alloc]?, deleted);
    assert!(rt; has_line(&rt, &Element::Way(way), "w 7 () [v=2,u=u,x=0] {}\n")?);
    Ok(())
}

#[test]
fn line_of_a_relation(rt: HostRuntime) -> Result<(), Fail> {
    let first = Member::new(MemberKind::Node, 1, "outer");
    let second = Member::new(MemberKind::Way, -2, "");
    let members = vec![in rt.alloc(); first, second]?;
    let tags = vec![in rt.alloc(); ("name", "a b,c")]?;
    let relation = Element::Relation(Relation::new(9, members, tags, nothing_known()));
    let line = "r 9 (n1@outer,w-2@) [] {name=a%20b%2Cc}\n";
    assert!(rt; has_line(&rt, &relation, line)?);
    Ok(())
}

/// Each byte that separates, the space, a control byte and the byte 127 are escaped; others stand as they are.
#[test]
fn escaped_bytes(rt: HostRuntime) {
    let mut outlet = Outlet::new(Vec::new(rt.alloc()));
    put_escaped(&mut outlet, "%=,@[]{}() \n\x7F!~é");
    assert!(rt; !outlet.failed());
    let text = outlet.into_inner();
    let expected = "%25%3D%2C%40%5B%5D%7B%7D%28%29%20%0A%7F!~é";
    assert!(rt; text.as_slice() == expected.as_bytes());
}

#[test]
fn numbers(rt: HostRuntime) {
    let mut outlet = Outlet::new(Vec::new(rt.alloc()));
    for number in [0, 9, 10, -1, i64::MAX, i64::MIN] {
        put_number(&mut outlet, number);
        put(&mut outlet, b" ");
    }
    put_digits(&mut outlet, u64::MAX);
    assert!(rt; !outlet.failed());
    assert!(rt; outlet.flush() == Ok(()));
    let text = outlet.into_inner();
    let expected = b"0 9 10 -1 9223372036854775807 -9223372036854775808 18446744073709551615";
    assert!(rt; text.as_slice() == expected.as_slice());
}

#[test]
fn a_buffer_is_empty_behind_a_flush(rt: HostRuntime) -> Result<(), Fail> {
    let alloc = rt.alloc();
    let held = BufWriter::new(alloc, Vec::new(alloc)).map_err(|_| "a buffer")?;
    let mut outlet = Outlet::new(held);
    put_digits(&mut outlet, 70);
    assert!(rt; outlet.flush_all() == Ok(()));
    let written = outlet.into_inner();
    assert!(rt; written.buffer().is_empty() && written.get_ref().as_slice() == b"70".as_slice());
    Ok(())
}

/// An element over a writer that fails after so many bytes: exactly those of its line go out, and the fault is told.
fn expect_fronts(rt: &(impl Abort + Alloc<A = Global>), element: &Element, line: &[u8]) {
    for room in 0..=line.len() {
        let mut outlet = Outlet::new(FailingWriter {
            inner: Vec::new(rt.alloc()),
            room,
        });
        let written = write_line(element, &mut outlet);
        let expected = if room < line.len() {
            Err(LineFault::WriteFailed)
        } else {
            Ok(())
        };
        assert!(rt; written == expected, "after {room} bytes");
        assert!(rt; outlet.failed() == written.is_err(), "after {room} bytes");
        assert!(rt; outlet.flush().is_ok(), "after {room} bytes");
        let FailingWriter { inner, .. } = outlet.into_inner();
        assert!(rt; inner.as_slice() == &line[..room], "after {room} bytes");
    }
}

#[test]
fn a_writer_that_fails(rt: HostRuntime) -> Result<(), Fail> {
    let node = Node::new(2, 900, -100, vec![in rt.alloc()]?, nothing_known());
    expect_fronts(&rt, &Element::Node(node), b"n 2 900 -100 [] {}\n");
    let ways = read_block(rt.alloc(), &WAY_BLOCK)?;
    assert_eq!(rt; ways.len(), 1);
    expect_fronts(&rt, &ways[0], b"w 7 (5,6,7,6) [] {a=b}\n");
    Ok(())
}

#[test]
fn the_fault_of_a_line(rt: HostRuntime) {
    assert_eq!(rt; LineFault::WriteFailed.number(), 24);
    assert!(rt; LineFault::WriteFailed.name() == "WriteFailed");
}
