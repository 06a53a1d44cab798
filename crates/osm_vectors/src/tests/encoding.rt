//! Blocks and the canonical blocks that their elements become.

use super::nothing_known;
use crate::vectors::*;
use osm_block::read_block;
use osm_value::{Element, Info, Node, Way};
use osm_write::{encode_block, encode_header, encode_one};
use pbf_frame::{Kind, write_frame};
use std::alloc::Global;
use std::process::Abort;
use std::test::*;

/// The elements of each block become this canonical block.
fn expect_canonical(
    rt: &(impl Abort + Alloc<A = Global>),
    rows: &[(&str, &[u8], &[u8])],
) -> Result<(), Fail> {
    for (name, block, canonical) in rows {
        let elements = read_block(rt.alloc(), block).expect(rt, name);
        let encoded = encode_block(rt.alloc(), &elements)?;
        assert!(rt; encoded.as_slice() == *canonical, "{name}");
    }
    Ok(())
}

#[test]
fn canonical_blocks_stay(rt: HostRuntime) -> Result<(), Fail> {
    expect_canonical(
        &rt,
        &[
            ("no elements", &NO_ELEMENTS_BLOCK, &NO_ELEMENTS_BLOCK),
            ("two nodes", &TWO_NODES_BLOCK, &TWO_NODES_BLOCK),
            ("one group", &ONE_GROUP_BLOCK, &ONE_GROUP_BLOCK),
            ("tagged nodes", &TAGGED_NODES_BLOCK, &TAGGED_NODES_BLOCK),
            ("widest ids", &WIDEST_IDS_BLOCK, &WIDEST_IDS_BLOCK),
            (
                "a version in its group",
                &VERSION_IN_ITS_GROUP_BLOCK,
                &VERSION_IN_ITS_GROUP_BLOCK,
            ),
            (
                "nodes with an info",
                &NODES_WITH_INFO_BLOCK,
                &NODES_WITH_INFO_BLOCK,
            ),
            ("a way", &WAY_BLOCK, &WAY_BLOCK),
            (
                "a way with an info",
                &WAY_WITH_INFO_BLOCK,
                &WAY_WITH_INFO_BLOCK,
            ),
            ("a relation", &RELATION_BLOCK, &RELATION_BLOCK),
            (
                "a deleted node",
                &DELETED_DENSE_NODE_BLOCK,
                &DELETED_DENSE_NODE_BLOCK,
            ),
            ("a deleted way", &DELETED_WAY_BLOCK, &DELETED_WAY_BLOCK),
            (
                "a visible relation",
                &VISIBLE_RELATION_BLOCK,
                &VISIBLE_RELATION_BLOCK,
            ),
        ],
    )
}

/// The nodes 1 and 2 at 0, 0 without tags, and no text in the table.
const UNTAGGED_BLOCK: [u8; 20] = [
    0x0A, 0x02, 0x0A, 0x00, 0x12, 0x0E, 0x12, 0x0C, 0x0A, 0x02, 0x02, 0x02, 0x42, 0x02, 0x00, 0x00,
    0x4A, 0x02, 0x00, 0x00,
];

/// The node of `PLAIN_NODE_BLOCK` as a dense one.
const DENSE_NODE_BLOCK: [u8; 17] = [
    0x0A, 0x02, 0x0A, 0x00, 0x12, 0x0B, 0x12, 0x09, 0x0A, 0x01, 0x02, 0x42, 0x01, 0x02, 0x4A, 0x01,
    0x02,
];

/// The node of `GREATEST_PLACE_BLOCK` in units of 1, since 100 doesn't divide its latitude.
const FINE_PLACE_BLOCK: [u8; 28] = [
    0x0A, 0x02, 0x0A, 0x00, 0x12, 0x13, 0x12, 0x11, 0x0A, 0x01, 0x02, 0x42, 0x09, 0xFE, 0xFF, 0xFF,
    0xFF, 0xFF, 0xFF, 0xFF, 0xFF, 0x7F, 0x4A, 0x01, 0x00, 0x88, 0x01, 0x01,
];

/// Groups are joined, arrays packed, and texts that no element uses left out.
#[test]
fn other_blocks_become_canonical(rt: HostRuntime) -> Result<(), Fail> {
    let mut flag_above_one = VISIBLE_RELATION_BLOCK;
    flag_above_one[13] = 0x7F;
    expect_canonical(
        &rt,
        &[
            ("a way in pieces", &WAY_IN_PIECES_BLOCK, &WAY_BLOCK),
            ("two groups", &TWO_GROUPS_BLOCK, &ONE_GROUP_BLOCK),
            (
                "an absent version",
                &ABSENT_VERSION_BLOCK,
                &VERSION_IN_ITS_GROUP_BLOCK,
            ),
            ("delimiters alone", &DELIMITERS_ALONE_BLOCK, &UNTAGGED_BLOCK),
            ("a plain node", &PLAIN_NODE_BLOCK, &DENSE_NODE_BLOCK),
            (
                "the greatest latitude",
                &GREATEST_PLACE_BLOCK,
                &FINE_PLACE_BLOCK,
            ),
            (
                "a visible node",
                &VISIBLE_NODE_BLOCK,
                &VISIBLE_DENSE_NODE_BLOCK,
            ),
            ("a flag above 1", &flag_above_one, &VISIBLE_RELATION_BLOCK),
        ],
    )
}

/// A time that 1000 doesn't divide stands in units of 1.
#[test]
fn a_fine_time(rt: HostRuntime) -> Result<(), Fail> {
    let alloc = rt.alloc();
    let info = Info::new(None, Some(1500), None, None, None, None);
    let way = Element::Way(Way::new(7, vec![in alloc]?, vec![in alloc]?, info));
    let fine_time = [
        0x0A, 0x02, 0x0A, 0x00, 0x12, 0x09, 0x1A, 0x07, 0x08, 0x07, 0x22, 0x03, 0x10, 0xDC, 0x0B,
        0x90, 0x01, 0x01,
    ];
    assert!(rt; encode_one(alloc, &way)?.as_slice() == fine_time.as_slice());
    Ok(())
}

/// A file as it is written: the header's frame of 56 bytes and the frame of two nodes.
#[test]
fn a_written_file(rt: HostRuntime) -> Result<(), Fail> {
    let alloc = rt.alloc();
    let mut file = Vec::new(alloc);
    let header = encode_header(alloc, false)?;
    assert!(rt; header.len() == 37);
    write_frame(Kind::OsmHeader, &header, &mut file)?;
    assert!(rt; file.as_slice() == WRITTEN_HEADER_FRAME.as_slice());
    let nodes = read_block(alloc, &TWO_NODES_BLOCK)?;
    let block = encode_block(alloc, &nodes)?;
    write_frame(Kind::OsmData, &block, &mut file)?;
    assert!(rt; file.len() == 93);
    assert!(rt; &file[56..] == TWO_NODES_FRAME.as_slice());
    Ok(())
}

/// The header's frame of a file with history has 79 bytes.
#[test]
fn a_header_with_history(rt: HostRuntime) -> Result<(), Fail> {
    let header = encode_header(rt.alloc(), true)?;
    assert!(rt; header.len() == 60);
    let mut frame = Vec::new(rt.alloc());
    write_frame(Kind::OsmHeader, &header, &mut frame)?;
    assert!(rt; frame.as_slice() == HISTORIC_HEADER_FRAME.as_slice());
    Ok(())
}
