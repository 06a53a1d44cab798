//! Framers: frames of an input that comes in pieces.

use crate::vectors::*;
use pbf_frame::{FrameFault, Framer};
use std::process::Abort;
use std::test::*;

/// Each part of a frame is taken alone: its length, its header and its blob; then the frame waits.
#[test]
fn parts_of_two_frames(rt: HostRuntime) -> Result<(), Fail> {
    let mut framer = Framer::new(rt.alloc(), 0);
    let mut at = 0;
    for expected in [4_usize, 13, 30, 0] {
        assert!(rt; at <= TWO_NODES_FILE.len());
        let count = framer.feed(&TWO_NODES_FILE[at..])?;
        assert!(rt; count == expected, "{count} at {at}");
        at += count;
    }
    assert!(rt; framer.held_bytes() == 47);
    assert!(rt; matches!(framer.next_frame(), Ok(Some((0, frame))) if frame.len() == 47));
    for expected in [4_usize, 11, 22, 0] {
        assert!(rt; at <= TWO_NODES_FILE.len());
        let count = framer.feed(&TWO_NODES_FILE[at..])?;
        assert!(rt; count == expected, "{count} at {at}");
        at += count;
    }
    assert!(rt; matches!(framer.next_frame(), Ok(Some((47, frame))) if frame.len() == 37));
    assert!(rt; framer.held_bytes() == 37);
    assert!(rt; matches!(framer.next_frame(), Ok(None)));
    assert!(rt; framer.held_bytes() == 0);
    assert!(rt; framer.end().is_ok());
    Ok(())
}

/// A fault applies once it is seen: nothing more is taken, and each call answers it.
#[test]
fn standing_faults(rt: HostRuntime) -> Result<(), Fail> {
    let rows: [([u8; 4], FrameFault); 2] = [
        ([0, 1, 0, 0], FrameFault::HeaderTooLong),
        ([0, 0, 0, 0], FrameFault::NoType),
    ];
    for (front, fault) in rows {
        let mut framer = Framer::new(rt.alloc(), 0);
        assert!(rt; framer.feed(&front)? == 4, "{fault:?}");
        assert!(rt; framer.feed(&[1])? == 0, "{fault:?}");
        assert!(rt; framer.next_frame().err() == Some(fault), "{fault:?}");
        assert!(rt; framer.end() == Err(fault), "{fault:?}");
        assert!(rt; framer.next_frame().err() == Some(fault), "{fault:?}");
    }
    Ok(())
}

/// A length and a header: the frame's end is cut, or above 2^62 where the input stands there already.
#[test]
fn frames_without_a_blob(rt: HostRuntime) -> Result<(), Fail> {
    let mut framer = Framer::new(rt.alloc(), 4_611_686_018_427_387_904);
    assert!(rt; framer.feed(&TWO_NODES_FILE[..17])? == 4);
    assert!(rt; framer.feed(&TWO_NODES_FILE[4..17])? == 13);
    assert!(rt; matches!(framer.next_frame(), Err(FrameFault::OffsetTooLarge)));
    let mut framer = Framer::new(rt.alloc(), 0);
    assert!(rt; framer.feed(&TWO_NODES_FILE[..17])? == 4);
    assert!(rt; framer.feed(&TWO_NODES_FILE[4..17])? == 13);
    assert!(rt; matches!(framer.next_frame(), Ok(None)));
    assert!(rt; framer.end() == Err(FrameFault::BlobCut));
    Ok(())
}

/// The same frames come, whatever pieces the input comes in.
#[test]
fn pieces_of_each_length(rt: HostRuntime) -> Result<(), Fail> {
    for len in 1..=84 {
        let mut framer = Framer::new(rt.alloc(), 0);
        let mut rest: &[u8] = &TWO_NODES_FILE;
        let mut at = 0;
        for _ in 0..200 {
            let piece = &rest[..rest.len().min(len)];
            let count = framer.feed(piece)?;
            rest = &rest[count..];
            if let Ok(Some((offset, frame))) = framer.next_frame() {
                assert!(rt; offset == at && at < 84, "{len}");
                assert!(rt;
                    frame
                        == if at == 0 {
                            HEADER_FRAME.as_slice()
                        } else {
                            &TWO_NODES_FRAME
                        },
                    "{len}"
                );
                at = if at == 0 { 47 } else { 84 };
            }
        }
        assert!(rt; at == 84 && rest.is_empty(), "{len}");
        assert!(rt; framer.end().is_ok(), "{len}");
    }
    Ok(())
}

/// A frame that is begun is what the end says, up to the part that is cut.
#[test]
fn unfinished_frames(rt: HostRuntime) -> Result<(), Fail> {
    let mut framer = Framer::new(rt.alloc(), 9);
    assert!(rt; framer.end().is_ok());
    assert!(rt; framer.feed(&TWO_NODES_FRAME[..4])? == 4);
    assert!(rt; framer.end() == Err(FrameFault::HeaderCut));
    assert!(rt; framer.feed(&TWO_NODES_FRAME[4..15])? == 11);
    assert!(rt; framer.end() == Err(FrameFault::BlobCut));
    assert!(rt; framer.feed(&TWO_NODES_FRAME[15..])? == 22);
    assert!(rt; framer.end().is_ok());
    lent_and_let_go(&rt, framer)
}

/// A lent frame is let go by the next call.
fn lent_and_let_go(rt: &impl Abort, mut framer: Framer) -> Result<(), Fail> {
    assert!(rt; framer.feed(&TWO_NODES_FILE)? == 0);
    assert!(rt; matches!(framer.next_frame(), Ok(Some((9, frame))) if frame.len() == 37));
    assert!(rt; framer.held_bytes() == 37);
    assert!(rt; framer.feed(&TWO_NODES_FILE[..3])? == 3);
    assert!(rt; framer.held_bytes() == 3);
    assert!(rt; framer.end() == Err(FrameFault::LengthCut));
    Ok(())
}

/// Where memory is refused, the framer takes nothing.
#[test]
fn refused_memory(rt: HostRuntime) {
    let mut framer = Framer::new(rt.alloc(), 0);
    match framer.feed(&TWO_NODES_FILE) {
        Ok(count) => assert!(rt; count == 4 && framer.held_bytes() == 4),
        Err(_) => assert!(rt; framer.held_bytes() == 0 && framer.end().is_ok()),
    }
}
