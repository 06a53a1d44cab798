//! Blocks with two faults, of which that of the earlier phase is answered. In a message the phases are: wire, required
//! fields, lengths, sums, ranges, the tags of dense nodes, indexes, types of members.
//!
//! All is made by hand from osmformat.proto. 2^62 is the first number outside the range of ids; sums leave 64 bits by
//! 2^63 - 1 and then one more; the table has the empty text alone.

use super::expect_faults;
use osm_block::BlockFault;
use pbf_wire::{WireFault, WireFaultKind};
use std::test::*;

fn wire(kind: WireFaultKind, at: usize) -> BlockFault {
    BlockFault::BlockWire(WireFault { kind, at })
}

/// The block's wire, the string table, its wire, its texts, the granularities, the groups.
#[test]
fn before_groups(rt: HostRuntime) {
    expect_faults(
        &rt,
        &[
            (
                "no table in a block that ends in a wrong wire type",
                &[0x22, 0x00, 0x0B],
                wire(WireFaultKind::BadWireType, 2),
                40,
            ),
            (
                "a cut table in a block that ends in a wrong wire type",
                &[0x0A, 0x02, 0x0A, 0x01, 0x0B],
                wire(WireFaultKind::BadWireType, 4),
                40,
            ),
            (
                "no table, a group that is none and a granularity of 0",
                &[0x12, 0x01, 0x0B, 0x88, 0x01, 0x00],
                BlockFault::NoStringTable,
                41,
            ),
            (
                "a text that isn't UTF-8 in front of a cut table",
                &[0x0A, 0x03, 0x0A, 0x01, 0xFF, 0x0A, 0x02, 0x0A, 0x01],
                wire(WireFaultKind::FieldCut, 0),
                40,
            ),
            (
                "a text that isn't UTF-8 and has U+0000",
                &[0x0A, 0x04, 0x0A, 0x02, 0xFF, 0x00],
                BlockFault::TextNotUtf8,
                42,
            ),
            (
                "U+0000 in a text before one that isn't UTF-8",
                &[0x0A, 0x06, 0x0A, 0x01, 0x00, 0x0A, 0x01, 0xFF],
                BlockFault::TextHasNul,
                43,
            ),
            (
                "U+0000 in a text, and a granularity of 0",
                &[0x0A, 0x03, 0x0A, 0x01, 0x00, 0x88, 0x01, 0x00],
                BlockFault::TextHasNul,
                43,
            ),
            (
                "a granularity of times of 0 behind a group that is none",
                &[0x0A, 0x02, 0x0A, 0x00, 0x12, 0x01, 0x0B, 0x90, 0x01, 0x00],
                BlockFault::BadGranularity,
                44,
            ),
        ],
    );
}

/// A group's wire, its kinds, its messages; groups and messages stand in order, each with all of its faults.
#[test]
fn of_groups(rt: HostRuntime) {
    expect_faults(
        &rt,
        &[
            (
                "two kinds in a group that ends in a wrong wire type",
                &[
                    0x0A, 0x02, 0x0A, 0x00, 0x12, 0x05, 0x0A, 0x00, 0x1A, 0x00, 0x0B,
                ],
                wire(WireFaultKind::BadWireType, 4),
                40,
            ),
            (
                "two kinds, and a node that is no message",
                &[
                    0x0A, 0x02, 0x0A, 0x00, 0x12, 0x05, 0x0A, 0x01, 0x0B, 0x1A, 0x00,
                ],
                BlockFault::MixedGroup,
                45,
            ),
            (
                "a member of a fourth kind in front of a way that is no message",
                &[
                    0x0A, 0x02, 0x0A, 0x00, 0x12, 0x0D, 0x22, 0x0B, 0x08, 0x09, 0x42, 0x01, 0x00,
                    0x4A, 0x01, 0x02, 0x52, 0x01, 0x03, 0x12, 0x03, 0x1A, 0x01, 0x0B,
                ],
                BlockFault::BadMemberType,
                52,
            ),
            (
                "a member of a fourth kind, and then a relation that is no message",
                &[
                    0x0A, 0x02, 0x0A, 0x00, 0x12, 0x10, 0x22, 0x0B, 0x08, 0x09, 0x42, 0x01, 0x00,
                    0x4A, 0x01, 0x02, 0x52, 0x01, 0x03, 0x22, 0x01, 0x0B,
                ],
                BlockFault::BadMemberType,
                52,
            ),
            (
                "two kinds in a group behind a way without id",
                &[
                    0x0A, 0x02, 0x0A, 0x00, 0x12, 0x02, 0x1A, 0x00, 0x12, 0x04, 0x0A, 0x00, 0x1A,
                    0x00,
                ],
                BlockFault::Missing,
                46,
            ),
        ],
    );
}

/// Wire, required fields, lengths, ranges, indexes.
#[test]
fn of_plain_nodes(rt: HostRuntime) {
    expect_faults(
        &rt,
        &[
            (
                "an info that is none behind keys that are cut",
                &[
                    0x0A, 0x02, 0x0A, 0x00, 0x12, 0x0E, 0x0A, 0x0C, 0x08, 0x02, 0x12, 0x01, 0x80,
                    0x22, 0x01, 0x0B, 0x40, 0x02, 0x48, 0x02,
                ],
                wire(WireFaultKind::BadWireType, 0),
                40,
            ),
            (
                "keys that are cut, and no id",
                &[
                    0x0A, 0x02, 0x0A, 0x00, 0x12, 0x09, 0x0A, 0x07, 0x12, 0x01, 0x80, 0x40, 0x02,
                    0x48, 0x02,
                ],
                wire(WireFaultKind::NumberCut, 0),
                40,
            ),
            (
                "no longitude, and a key without value",
                &[
                    0x0A, 0x02, 0x0A, 0x00, 0x12, 0x09, 0x0A, 0x07, 0x08, 0x02, 0x12, 0x01, 0x00,
                    0x40, 0x02,
                ],
                BlockFault::Missing,
                46,
            ),
            (
                "a key without value, and an id of 2^62",
                &[
                    0x0A, 0x02, 0x0A, 0x00, 0x12, 0x14, 0x0A, 0x12, 0x08, 0x80, 0x80, 0x80, 0x80,
                    0x80, 0x80, 0x80, 0x80, 0x80, 0x01, 0x12, 0x01, 0x00, 0x40, 0x02, 0x48, 0x02,
                ],
                BlockFault::LengthsDiffer,
                47,
            ),
            (
                "an id of 2^62, and a key that the table hasn't",
                &[
                    0x0A, 0x02, 0x0A, 0x00, 0x12, 0x17, 0x0A, 0x15, 0x08, 0x80, 0x80, 0x80, 0x80,
                    0x80, 0x80, 0x80, 0x80, 0x80, 0x01, 0x12, 0x01, 0x01, 0x1A, 0x01, 0x00, 0x40,
                    0x02, 0x48, 0x02,
                ],
                BlockFault::OutOfRange,
                50,
            ),
        ],
    );
}

/// Wire, lengths, sums, ranges, tags, indexes. The arrays of the info are checked behind the others.
#[test]
fn of_dense_nodes(rt: HostRuntime) {
    expect_faults(
        &rt,
        &[
            (
                "versions that are cut in front of tags that are",
                &[
                    0x0A, 0x02, 0x0A, 0x00, 0x12, 0x14, 0x12, 0x12, 0x0A, 0x01, 0x02, 0x2A, 0x03,
                    0x0A, 0x01, 0x80, 0x42, 0x01, 0x00, 0x4A, 0x01, 0x00, 0x52, 0x02, 0x00, 0x80,
                ],
                wire(WireFaultKind::NumberCut, 1),
                40,
            ),
            (
                "latitudes that are cut, so that there are fewer",
                &[
                    0x0A, 0x02, 0x0A, 0x00, 0x12, 0x0B, 0x12, 0x09, 0x0A, 0x01, 0x02, 0x42, 0x01,
                    0x80, 0x4A, 0x01, 0x00,
                ],
                wire(WireFaultKind::NumberCut, 0),
                40,
            ),
            (
                "one latitude of two, and ids that leave 64 bits",
                &[
                    0x0A, 0x02, 0x0A, 0x00, 0x12, 0x16, 0x12, 0x14, 0x0A, 0x0B, 0xFE, 0xFF, 0xFF,
                    0xFF, 0xFF, 0xFF, 0xFF, 0xFF, 0xFF, 0x01, 0x02, 0x42, 0x01, 0x00, 0x4A, 0x02,
                    0x00, 0x00,
                ],
                BlockFault::LengthsDiffer,
                47,
            ),
            (
                "an id of 2^62, and latitudes that leave 64 bits",
                &[
                    0x0A, 0x02, 0x0A, 0x00, 0x12, 0x20, 0x12, 0x1E, 0x0A, 0x0B, 0x80, 0x80, 0x80,
                    0x80, 0x80, 0x80, 0x80, 0x80, 0x80, 0x01, 0x02, 0x42, 0x0B, 0xFE, 0xFF, 0xFF,
                    0xFF, 0xFF, 0xFF, 0xFF, 0xFF, 0xFF, 0x01, 0x02, 0x4A, 0x02, 0x00, 0x00,
                ],
                BlockFault::SumTooLarge,
                49,
            ),
            (
                "an id of 2^62, and a key without value",
                &[
                    0x0A, 0x02, 0x0A, 0x00, 0x12, 0x17, 0x12, 0x15, 0x0A, 0x0A, 0x80, 0x80, 0x80,
                    0x80, 0x80, 0x80, 0x80, 0x80, 0x80, 0x01, 0x42, 0x01, 0x00, 0x4A, 0x01, 0x00,
                    0x52, 0x01, 0x01,
                ],
                BlockFault::OutOfRange,
                50,
            ),
            (
                "no delimiter, and a user that the table hasn't",
                &[
                    0x0A, 0x02, 0x0A, 0x00, 0x12, 0x14, 0x12, 0x12, 0x0A, 0x01, 0x02, 0x2A, 0x03,
                    0x2A, 0x01, 0x02, 0x42, 0x01, 0x00, 0x4A, 0x01, 0x00, 0x52, 0x02, 0x01, 0x00,
                ],
                BlockFault::TagsUneven,
                51,
            ),
        ],
    );
}

/// Wire, required fields, lengths, sums, ranges, indexes. Arrays are checked by field number.
#[test]
fn of_ways(rt: HostRuntime) {
    expect_faults(
        &rt,
        &[
            (
                "values that are cut behind references that are",
                &[
                    0x0A, 0x02, 0x0A, 0x00, 0x12, 0x0B, 0x1A, 0x09, 0x08, 0x07, 0x42, 0x01, 0x80,
                    0x1A, 0x02, 0x00, 0x80,
                ],
                wire(WireFaultKind::NumberCut, 1),
                40,
            ),
            (
                "references that are cut, and no id",
                &[
                    0x0A, 0x02, 0x0A, 0x00, 0x12, 0x05, 0x1A, 0x03, 0x42, 0x01, 0x80,
                ],
                wire(WireFaultKind::NumberCut, 0),
                40,
            ),
            (
                "no id, and a key without value",
                &[
                    0x0A, 0x02, 0x0A, 0x00, 0x12, 0x05, 0x1A, 0x03, 0x12, 0x01, 0x00,
                ],
                BlockFault::Missing,
                46,
            ),
            (
                "a key without value, and references that leave 64 bits",
                &[
                    0x0A, 0x02, 0x0A, 0x00, 0x12, 0x14, 0x1A, 0x12, 0x08, 0x07, 0x12, 0x01, 0x00,
                    0x42, 0x0B, 0xFE, 0xFF, 0xFF, 0xFF, 0xFF, 0xFF, 0xFF, 0xFF, 0xFF, 0x01, 0x02,
                ],
                BlockFault::LengthsDiffer,
                47,
            ),
            (
                "an id of 2^62, and references that leave 64 bits",
                &[
                    0x0A, 0x02, 0x0A, 0x00, 0x12, 0x19, 0x1A, 0x17, 0x08, 0x80, 0x80, 0x80, 0x80,
                    0x80, 0x80, 0x80, 0x80, 0x40, 0x42, 0x0B, 0xFE, 0xFF, 0xFF, 0xFF, 0xFF, 0xFF,
                    0xFF, 0xFF, 0xFF, 0x01, 0x02,
                ],
                BlockFault::SumTooLarge,
                49,
            ),
            (
                "an id of 2^62, and a value that the table hasn't",
                &[
                    0x0A, 0x02, 0x0A, 0x00, 0x12, 0x12, 0x1A, 0x10, 0x08, 0x80, 0x80, 0x80, 0x80,
                    0x80, 0x80, 0x80, 0x80, 0x40, 0x12, 0x01, 0x00, 0x1A, 0x01, 0x01,
                ],
                BlockFault::OutOfRange,
                50,
            ),
        ],
    );
}

/// Wire, required fields, lengths, sums, ranges, indexes, types of members.
#[test]
fn of_relations(rt: HostRuntime) {
    expect_faults(
        &rt,
        &[
            (
                "types that are cut, and no id",
                &[
                    0x0A, 0x02, 0x0A, 0x00, 0x12, 0x05, 0x22, 0x03, 0x52, 0x01, 0x80,
                ],
                wire(WireFaultKind::NumberCut, 0),
                40,
            ),
            (
                "no id, and a member without role and type",
                &[
                    0x0A, 0x02, 0x0A, 0x00, 0x12, 0x05, 0x22, 0x03, 0x4A, 0x01, 0x02,
                ],
                BlockFault::Missing,
                46,
            ),
            (
                "one type of two, and members that leave 64 bits",
                &[
                    0x0A, 0x02, 0x0A, 0x00, 0x12, 0x18, 0x22, 0x16, 0x08, 0x09, 0x42, 0x02, 0x00,
                    0x00, 0x4A, 0x0B, 0xFE, 0xFF, 0xFF, 0xFF, 0xFF, 0xFF, 0xFF, 0xFF, 0xFF, 0x01,
                    0x02, 0x52, 0x01, 0x00,
                ],
                BlockFault::LengthsDiffer,
                47,
            ),
            (
                "an id of 2^62, and members that leave 64 bits",
                &[
                    0x0A, 0x02, 0x0A, 0x00, 0x12, 0x21, 0x22, 0x1F, 0x08, 0x80, 0x80, 0x80, 0x80,
                    0x80, 0x80, 0x80, 0x80, 0x40, 0x42, 0x02, 0x00, 0x00, 0x4A, 0x0B, 0xFE, 0xFF,
                    0xFF, 0xFF, 0xFF, 0xFF, 0xFF, 0xFF, 0xFF, 0x01, 0x02, 0x52, 0x02, 0x00, 0x00,
                ],
                BlockFault::SumTooLarge,
                49,
            ),
            (
                "an id of 2^62, and a role that the table hasn't",
                &[
                    0x0A, 0x02, 0x0A, 0x00, 0x12, 0x15, 0x22, 0x13, 0x08, 0x80, 0x80, 0x80, 0x80,
                    0x80, 0x80, 0x80, 0x80, 0x40, 0x42, 0x01, 0x01, 0x4A, 0x01, 0x02, 0x52, 0x01,
                    0x00,
                ],
                BlockFault::OutOfRange,
                50,
            ),
            (
                "a role that the table hasn't, and a member of a fourth kind",
                &[
                    0x0A, 0x02, 0x0A, 0x00, 0x12, 0x0D, 0x22, 0x0B, 0x08, 0x09, 0x42, 0x01, 0x01,
                    0x4A, 0x01, 0x02, 0x52, 0x01, 0x03,
                ],
                BlockFault::BadIndex,
                48,
            ),
        ],
    );
}
