//! Blobs: their raw payload, or why there is none.

use crate::blob_of_length;
use crate::vectors::*;
use pbf_frame::{BlobFault, Compression, raw, read_frame};
use pbf_wire::{WireFault, WireFaultKind};
use std::test::*;

#[test]
fn raw_payloads(rt: HostRuntime) -> Result<(), Fail> {
    let rows: [(&str, &[u8], &[u8]); 3] = [
        ("no byte", &[0x0A, 0x00], &[]),
        (
            "the last of two",
            &[0x0A, 0x01, 0x01, 0x10, 0x07, 0x0A, 0x01, 0x02],
            &[2],
        ),
        (
            "a block of two nodes",
            read_frame(&TWO_NODES_FRAME)?.blob,
            &TWO_NODES_BLOCK,
        ),
    ];
    for (name, blob, payload) in rows {
        assert!(rt; raw(blob) == Ok(payload), "{name}");
    }
    Ok(())
}

/// Among compressed data the lowest field counts, and a field 3 that holds no bytes is none.
#[test]
fn faults_of_blobs(rt: HostRuntime) {
    let wire = BlobFault::BlobWire(WireFault {
        kind: WireFaultKind::BadWireType,
        at: 2,
    });
    let rows: [(&str, &[u8], BlobFault); 9] = [
        (
            "zlib beside raw data",
            &[0x1A, 0x01, 0x00, 0x0A, 0x00],
            BlobFault::Compressed(Compression::Zlib),
        ),
        (
            "lzma",
            &[0x22, 0x00],
            BlobFault::Compressed(Compression::Lzma),
        ),
        (
            "bzip2",
            &[0x2A, 0x00],
            BlobFault::Compressed(Compression::Bzip2),
        ),
        (
            "lz4",
            &[0x32, 0x00],
            BlobFault::Compressed(Compression::Lz4),
        ),
        (
            "zstd",
            &[0x3A, 0x00],
            BlobFault::Compressed(Compression::Zstd),
        ),
        (
            "lzma behind zstd",
            &[0x3A, 0x00, 0x22, 0x00],
            BlobFault::Compressed(Compression::Lzma),
        ),
        ("a number in field 3", &[0x18, 0x00], BlobFault::NoData),
        ("no field", &[], BlobFault::NoData),
        ("a group behind raw data", &[0x0A, 0x00, 0x0B], wire),
    ];
    for (name, blob, fault) in rows {
        assert!(rt; raw(blob) == Err(fault), "{name}");
    }
}

/// The greatest raw payload is one byte short of 32 MiB.
#[test]
fn greatest_raw_payload(rt: HostRuntime) -> Result<(), Fail> {
    let blob = blob_of_length(rt.alloc(), 33_554_431)?;
    assert_eq!(rt; raw(&blob)?.len(), 33_554_431);
    let blob = blob_of_length(rt.alloc(), 33_554_432)?;
    assert_eq!(rt; blob.len(), 33_554_437);
    assert!(rt; raw(&blob) == Err(BlobFault::RawTooLarge));
    Ok(())
}

#[test]
fn numbers_and_names_of_faults(rt: HostRuntime) {
    let wire = WireFault {
        kind: WireFaultKind::FieldCut,
        at: 0,
    };
    let rows = [
        (BlobFault::BlobWire(wire), 20, "BlobWire"),
        (
            BlobFault::Compressed(Compression::Zlib),
            21,
            "CompressedZlib",
        ),
        (
            BlobFault::Compressed(Compression::Lzma),
            21,
            "CompressedLzma",
        ),
        (
            BlobFault::Compressed(Compression::Bzip2),
            21,
            "CompressedBzip2",
        ),
        (BlobFault::Compressed(Compression::Lz4), 21, "CompressedLz4"),
        (
            BlobFault::Compressed(Compression::Zstd),
            21,
            "CompressedZstd",
        ),
        (BlobFault::NoData, 22, "NoData"),
        (BlobFault::RawTooLarge, 23, "RawTooLarge"),
    ];
    for (fault, number, name) in rows {
        assert!(rt; fault.number() == number && fault.name() == name, "{name}");
    }
}
