//! Frames: what is read, what is written, and what is refused.

use crate::frame_around;
use crate::vectors::*;
use pbf_frame::{Frame, FrameFault, Kind, read_frame, whole_frame, write_frame};
use pbf_wire::{WireFault, WireFaultKind};
use std::test::*;

/// A frame whose header has its type and its datasize twice, and a field of an unknown number; a byte follows it.
const REPEATED_FIELDS: [u8; 20] = [
    0, 0, 0, 14, 0x0A, 1, b'A', 0x18, 9, 0x0A, 1, b'B', 0x18, 1, 0x20, 3, 0x12, 0, 7, 8,
];

/// A frame of the type `Extra` with three bytes, and one byte behind it.
const EXTRA_AND_A_BYTE: [u8; 17] = [
    0, 0, 0, 9, 0x0A, 5, b'E', b'x', b't', b'r', b'a', 0x18, 3, 1, 2, 3, 4,
];

fn frame<'a>(kind: Kind, type_name: &'a [u8], blob: &'a [u8], length: u64) -> Frame<'a> {
    Frame {
        kind,
        type_name,
        blob,
        length,
    }
}

fn is_same(left: &Frame, right: &Frame) -> bool {
    left.kind == right.kind
        && left.type_name == right.type_name
        && left.blob == right.blob
        && left.length == right.length
}

/// The frame at the front of the bytes: whole where it stands alone, and trailed where bytes follow it.
#[test]
fn frames_at_the_front(rt: HostRuntime) {
    let header = &TWO_NODES_FILE[17..47];
    let data = &TWO_NODES_FILE[62..];
    let rows: [(&str, &[u8], Frame); 6] = [
        (
            "a header and more",
            &TWO_NODES_FILE,
            frame(Kind::OsmHeader, b"OSMHeader", header, 47),
        ),
        (
            "a header",
            &HEADER_FRAME,
            frame(Kind::OsmHeader, b"OSMHeader", header, 47),
        ),
        (
            "two nodes",
            &TWO_NODES_FILE[47..],
            frame(Kind::OsmData, b"OSMData", data, 37),
        ),
        (
            "another type",
            &EXTRA_FRAME,
            frame(Kind::Other, b"Extra", &[0xFF, 0xFF, 0xFF], 16),
        ),
        (
            "another type and a byte",
            &EXTRA_AND_A_BYTE,
            frame(Kind::Other, b"Extra", &[1, 2, 3], 16),
        ),
        (
            "the last type and datasize",
            &REPEATED_FIELDS,
            frame(Kind::Other, b"B", &[7], 19),
        ),
    ];
    for (name, bytes, expected) in rows {
        let found = read_frame(bytes).ok().expect(&rt, name);
        assert!(rt; is_same(&found, &expected), "{name}");
        let (front, rest) = bytes.split_at(found.length as usize);
        let alone = whole_frame(front).ok().expect(&rt, name);
        assert!(rt; is_same(&alone, &expected), "{name}");
        if !rest.is_empty() {
            assert!(rt;
                whole_frame(bytes).err() == Some(FrameFault::Trailing),
                "{name}"
            );
        }
    }
}

fn wire(kind: WireFaultKind, at: usize) -> FrameFault {
    FrameFault::HeaderWire(WireFault { kind, at })
}

#[test]
fn faults_of_frames(rt: HostRuntime) {
    let rows: [(&str, &[u8], FrameFault); 11] = [
        ("three bytes", &[0, 0, 0], FrameFault::LengthCut),
        (
            "65,536 bytes of header",
            &[0, 1, 0, 0],
            FrameFault::HeaderTooLong,
        ),
        (
            "65,535 bytes of header",
            &[0, 0, 0xFF, 0xFF],
            FrameFault::HeaderCut,
        ),
        ("an empty header", &[0, 0, 0, 0], FrameFault::NoType),
        (
            "a group",
            &[0, 0, 0, 1, 0x0B],
            wire(WireFaultKind::BadWireType, 0),
        ),
        ("no type", &[0, 0, 0, 2, 0x18, 0], FrameFault::NoType),
        (
            "no datasize",
            &[0, 0, 0, 3, 0x0A, 1, b'A'],
            FrameFault::NoSize,
        ),
        (
            "a datasize of -1",
            &[
                0, 0, 0, 13, 0x0A, 0, 0x18, 0xFF, 0xFF, 0xFF, 0xFF, 0xFF, 0xFF, 0xFF, 0xFF, 0xFF,
                0x01,
            ],
            FrameFault::SizeOutOfRange,
        ),
        (
            "a datasize one above the bound",
            &[0, 0, 0, 7, 0x0A, 0, 0x18, 0x81, 0x80, 0x84, 0x10],
            FrameFault::SizeOutOfRange,
        ),
        (
            "a datasize at the bound",
            &[0, 0, 0, 7, 0x0A, 0, 0x18, 0x80, 0x80, 0x84, 0x10],
            FrameFault::BlobCut,
        ),
        (
            "a cut field behind type and datasize",
            &[
                0, 0, 0, 13, 0x0A, 1, b'A', 0x18, 9, 0x0A, 1, b'B', 0x18, 1, 0x20, 3, 0x12, 0xFF,
            ],
            wire(WireFaultKind::NumberCut, 12),
        ),
    ];
    for (name, bytes, fault) in rows {
        assert!(rt; read_frame(bytes).err() == Some(fault), "{name}");
    }
}

/// The first bytes of each frame alone: up to the length, the header and the blob.
#[test]
fn cut_frames(rt: HostRuntime) {
    let rows: [(&[u8], usize); 2] = [(&HEADER_FRAME, 17), (&TWO_NODES_FRAME, 15)];
    for (frame, blob) in rows {
        for length in 0..frame.len() {
            let fault = if length < 4 {
                FrameFault::LengthCut
            } else if length < blob {
                FrameFault::HeaderCut
            } else {
                FrameFault::BlobCut
            };
            assert!(rt;
                whole_frame(&frame[..length]).err() == Some(fault),
                "{length}"
            );
        }
    }
}

#[test]
fn written_frames(rt: HostRuntime) -> Result<(), Fail> {
    let mut file = Vec::new(rt.alloc());
    write_frame(Kind::OsmHeader, &TWO_NODES_FILE[19..47], &mut file)?;
    write_frame(Kind::OsmData, &TWO_NODES_BLOCK, &mut file)?;
    assert!(rt; file.as_slice() == TWO_NODES_FILE.as_slice());
    let mut frame = Vec::new(rt.alloc());
    write_frame(Kind::OsmData, &PLAIN_NODE_BLOCK, &mut frame)?;
    assert!(rt; frame.as_slice() == PLAIN_NODE_FRAME.as_slice());
    let built = frame_around(rt.alloc(), b"Extra", &[0xFF, 0xFF, 0xFF])?;
    assert!(rt; built.as_slice() == EXTRA_FRAME.as_slice());
    Ok(())
}

#[test]
fn numbers_and_names_of_faults(rt: HostRuntime) {
    let wire = WireFault {
        kind: WireFaultKind::FieldCut,
        at: 0,
    };
    let rows = [
        (FrameFault::LengthCut, 10, "LengthCut"),
        (FrameFault::HeaderTooLong, 11, "HeaderTooLong"),
        (FrameFault::HeaderCut, 12, "HeaderCut"),
        (FrameFault::HeaderWire(wire), 13, "HeaderWire"),
        (FrameFault::NoType, 14, "NoType"),
        (FrameFault::NoSize, 16, "NoSize"),
        (FrameFault::SizeOutOfRange, 17, "SizeOutOfRange"),
        (FrameFault::BlobCut, 18, "BlobCut"),
        (FrameFault::Trailing, 19, "Trailing"),
        (FrameFault::OffsetTooLarge, 60, "OffsetTooLarge"),
    ];
    for (fault, number, name) in rows {
        assert!(rt; fault.number() == number && fault.name() == name, "{name}");
    }
}

/// Where memory is refused, the vector stays as it was.
#[test]
fn refused_memory(rt: HostRuntime) {
    let mut out = Vec::new(rt.alloc());
    match write_frame(Kind::OsmData, &TWO_NODES_BLOCK, &mut out) {
        Ok(()) => assert!(rt; out.as_slice() == TWO_NODES_FRAME.as_slice()),
        Err(_) => assert!(rt; out.is_empty()),
    }
}
