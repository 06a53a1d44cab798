//! Blocks and the elements that they say, as lines, or their first faults.

use super::{expect_faults, lines_of};
use crate::vectors::*;
use osm_block::{BlockError, BlockFault, read_block};
use pbf_wire::{WireFault, WireFaultKind};
use std::alloc::Global;
use std::process::Abort;
use std::test::*;

/// Each block reads as the elements of these lines.
fn expect_lines(
    rt: &(impl Abort + Alloc<A = Global>),
    rows: &[(&str, &[u8], &str)],
) -> Result<(), Fail> {
    for (name, block, lines) in rows {
        let elements = read_block(rt.alloc(), block).expect(rt, name);
        assert!(rt;
            lines_of(rt, &elements)?.as_slice() == lines.as_bytes(),
            "{name}"
        );
    }
    Ok(())
}

#[test]
fn ways_and_relations(rt: HostRuntime) -> Result<(), Fail> {
    let way = "w 7 (5,6,7,6) [] {a=b}\n";
    expect_lines(
        &rt,
        &[
            ("no elements", &NO_ELEMENTS_BLOCK, ""),
            ("a way in pieces", &WAY_IN_PIECES_BLOCK, way),
            ("a way", &WAY_BLOCK, way),
            (
                "a way with an info",
                &WAY_WITH_INFO_BLOCK,
                "w 7 () [v=2,t=3000,c=4,i=-1,u=u] {}\n",
            ),
            (
                "a relation",
                &RELATION_BLOCK,
                "r 9 (n1@outer,w-2@) [] {name=a%20b%2Cc}\n",
            ),
        ],
    )
}

/// The two nodes of `TWO_NODES_BLOCK`: ids and latitudes in one payload, longitudes in another, and the ids in two pieces.
const NODES_IN_PIECES_BLOCK: [u8; 23] = [
    0x0A, 0x02, 0x0A, 0x00, 0x12, 0x11, 0x12, 0x09, 0x0A, 0x01, 0x02, 0x08, 0x02, 0x42, 0x02, 0x14,
    0x01, 0x12, 0x04, 0x4A, 0x02, 0x01, 0x00,
];

/// The nodes of `UNTAGGED_NODES_BLOCK` with an array of no pairs.
const NO_PAIRS_BLOCK: [u8; 28] = [
    0x0A, 0x08, 0x0A, 0x00, 0x0A, 0x01, 0x61, 0x0A, 0x01, 0x62, 0x12, 0x10, 0x12, 0x0E, 0x0A, 0x02,
    0x02, 0x02, 0x42, 0x02, 0x00, 0x00, 0x4A, 0x02, 0x00, 0x00, 0x52, 0x00,
];

#[test]
fn nodes_and_their_tags(rt: HostRuntime) -> Result<(), Fail> {
    let two = "n 1 1000 -100 [] {}\nn 2 900 -100 [] {}\n";
    let untagged = "n 1 0 0 [] {}\nn 2 0 0 [] {}\n";
    expect_lines(
        &rt,
        &[
            ("a plain node", &PLAIN_NODE_BLOCK, "n 1 100 100 [] {}\n"),
            ("dense nodes", &TWO_NODES_BLOCK, two),
            ("pieces are one message", &NODES_IN_PIECES_BLOCK, two),
            (
                "tags of the first node",
                &TAGGED_NODES_BLOCK,
                "n 1 0 0 [] {a=b}\nn 2 0 0 [] {}\n",
            ),
            ("no array of tags", &UNTAGGED_NODES_BLOCK, untagged),
            ("an array of no pairs", &NO_PAIRS_BLOCK, untagged),
            ("delimiters alone", &DELIMITERS_ALONE_BLOCK, untagged),
        ],
    )
}

#[test]
fn numbers_of_nodes(rt: HostRuntime) -> Result<(), Fail> {
    let versions = "n 1 0 0 [v=3] {}\nn 2 0 0 [] {}\n";
    expect_lines(
        &rt,
        &[
            (
                "the greatest latitude",
                &GREATEST_PLACE_BLOCK,
                "n 1 4611686018427387903 0 [] {}\n",
            ),
            (
                "the greatest id and the least",
                &WIDEST_IDS_BLOCK,
                "n 4611686018427387903 0 0 [] {}\nn -4611686018427387903 0 0 [] {}\n",
            ),
            (
                "infos",
                &NODES_WITH_INFO_BLOCK,
                "n 1 0 0 [v=1,t=1000,c=5,i=7,u=u] {}\nn 2 0 0 [v=2,t=2000,c=5,i=7,u=u] {}\n",
            ),
            ("an absent version", &ABSENT_VERSION_BLOCK, versions),
            (
                "a version in its group",
                &VERSION_IN_ITS_GROUP_BLOCK,
                versions,
            ),
            (
                "each group begins at 0",
                &TWO_GROUPS_BLOCK,
                "n 1 0 0 [] {}\nn 1 0 0 [] {}\n",
            ),
        ],
    )
}

#[test]
fn flags_of_visibility(rt: HostRuntime) -> Result<(), Fail> {
    let nodes = "n 1 0 0 [x=1] {}\nn 2 0 0 [x=0] {}\n";
    let visible = "w 7 () [x=1] {}\n";
    let deleted = "w 7 () [x=0] {}\n";
    let mut unpacked = DELETED_DENSE_NODE_BLOCK;
    unpacked[14] = 0x30;
    unpacked[15] = 0x01;
    unpacked[16] = 0x30;
    let mut above_one = DELETED_WAY_BLOCK;
    above_one[13] = 2;
    expect_lines(
        &rt,
        &[
            (
                "a plain node",
                &VISIBLE_NODE_BLOCK,
                "n 1 100 100 [x=1] {}\n",
            ),
            (
                "a dense node",
                &VISIBLE_DENSE_NODE_BLOCK,
                "n 1 100 100 [x=1] {}\n",
            ),
            ("dense nodes", &DELETED_DENSE_NODE_BLOCK, nodes),
            ("flags that aren't packed", &unpacked, nodes),
            ("a way", &DELETED_WAY_BLOCK, deleted),
            ("a flag above 1", &above_one, visible),
            // 01, then 00
            (
                "two flags",
                &[
                    0x0A, 0x02, 0x0A, 0x00, 0x12, 0x0A, 0x1A, 0x08, 0x08, 0x07, 0x22, 0x04, 0x30,
                    0x01, 0x30, 0x00,
                ],
                deleted,
            ),
            // a text in place of a number
            (
                "another wire type",
                &[
                    0x0A, 0x02, 0x0A, 0x00, 0x12, 0x09, 0x1A, 0x07, 0x08, 0x07, 0x22, 0x03, 0x32,
                    0x01, 0x01,
                ],
                "w 7 () [] {}\n",
            ),
            ("a relation", &VISIBLE_RELATION_BLOCK, "r 9 () [x=1] {}\n"),
        ],
    )
}

#[test]
fn faults_of_tables(rt: HostRuntime) {
    let cut = BlockFault::BlockWire(WireFault {
        kind: WireFaultKind::FieldCut,
        at: 0,
    });
    expect_faults(
        &rt,
        &[
            ("no byte", &[], BlockFault::NoStringTable, 41),
            // two payloads, which aren't joined as bytes
            ("a table in pieces", &TEXT_TABLE_IN_PIECES_BLOCK, cut, 40),
            (
                "a text that isn't UTF-8",
                &[0x0A, 0x03, 0x0A, 0x01, 0xFF],
                BlockFault::TextNotUtf8,
                42,
            ),
            (
                "a text with U+0000",
                &[0x0A, 0x03, 0x0A, 0x01, 0x00],
                BlockFault::TextHasNul,
                43,
            ),
            (
                "a granularity of 0",
                &[0x0A, 0x02, 0x0A, 0x00, 0x88, 0x01, 0x00],
                BlockFault::BadGranularity,
                44,
            ),
        ],
    );
}

#[test]
fn faults_of_messages(rt: HostRuntime) {
    let mut without_value = WAY_BLOCK;
    without_value[19] = 0x32;
    let mut unknown_value = WAY_BLOCK;
    unknown_value[21] = 3;
    let mut unknown_member = RELATION_BLOCK;
    unknown_member[49] = 3;
    expect_faults(
        &rt,
        &[
            (
                "a node and a way in one group",
                &[0x0A, 0x02, 0x0A, 0x00, 0x12, 0x04, 0x0A, 0x00, 0x1A, 0x00],
                BlockFault::MixedGroup,
                45,
            ),
            (
                "a way without id",
                &WAY_WITHOUT_ID_BLOCK,
                BlockFault::Missing,
                46,
            ),
            (
                "a node without longitude",
                &PLAIN_NODE_WITHOUT_LON_BLOCK,
                BlockFault::Missing,
                46,
            ),
            (
                "a key without value",
                &without_value,
                BlockFault::LengthsDiffer,
                47,
            ),
            (
                "a value that the table hasn't",
                &unknown_value,
                BlockFault::BadIndex,
                48,
            ),
            (
                "a member of a fourth kind",
                &unknown_member,
                BlockFault::BadMemberType,
                52,
            ),
        ],
    );
}

#[test]
fn faults_of_dense_nodes(rt: HostRuntime) {
    let mut unknown_key = TAGGED_NODES_BLOCK;
    unknown_key[28] = 3;
    expect_faults(
        &rt,
        &[
            (
                "a key that the table hasn't",
                &unknown_key,
                BlockFault::BadIndex,
                48,
            ),
            // the ids 2^63 - 1, then one more, then one less
            (
                "ids that leave 64 bits",
                &SUM_TOO_LARGE_BLOCK,
                BlockFault::SumTooLarge,
                49,
            ),
            // 0 units of 1, where the offset of latitudes is 2^62
            (
                "a coordinate over the range",
                &PLACE_OVER_RANGE_BLOCK,
                BlockFault::OutOfRange,
                50,
            ),
            (
                "no delimiter behind a pair",
                &NO_DELIMITER_BLOCK,
                BlockFault::TagsUneven,
                51,
            ),
            (
                "no delimiter for the second node",
                &ONE_DELIMITER_BLOCK,
                BlockFault::TagsUneven,
                51,
            ),
            (
                "one flag of two nodes",
                &ONE_FLAG_OF_TWO_BLOCK,
                BlockFault::LengthsDiffer,
                47,
            ),
        ],
    );
}

#[test]
fn numbers_and_names(rt: HostRuntime) {
    assert!(rt; BlockError::Memory.number() == 65);
    assert!(rt; BlockError::Memory.name() == "Memory");
    let fault = BlockFault::TagsUneven;
    assert!(rt; fault.number() == 51);
    assert!(rt; fault.name() == "TagsUneven");
    assert!(rt; BlockError::Fault(fault).number() == 51);
    assert!(rt; BlockError::Fault(fault).name() == "TagsUneven");
}
