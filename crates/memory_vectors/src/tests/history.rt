//! Flags of visibility, in stores in memory of both layouts and in exports: blocks and frames are made by hand from
//! osmformat.proto and fileformat.proto.

use super::tables::{expect_rows, filled};
use osm_import::Answer;
use osm_rows::Extent;
use osm_value::MemberKind;
use pbf_frame::Kind;
use std::test::*;
use store_vectors::fixtures::{
    HEADER, HELD_HEADER, LINES, NODES, PLACED_RELATION, PLACED_WAY, RELATION, THREE_WAYS, WAY,
    WRITTEN_HEADER,
};
use store_vectors::memory::CountedRows;
use store_vectors::steps::{
    PUT_HEADER, PUT_NODES, STORE_HEADER, STORE_NODES, Step, over_all_stores,
};

/// The header frame that an export writes where an element has a flag: it requires `HistoricalInformation`, too.
const HISTORIC_HEADER: &[u8] =
    b"\x00\x00\x00\x0D\x0A\x09OSMHeader\x18\x3E\x0A\x3C\x22\x0EOsmSchema-V0.6\x22\x0ADenseNodes\x22\x15HistoricalInformation\x82\x01\x06pbfrow";

/// The data frame of node 1 at 100, 100, which is visible. An export writes the same frame.
const VISIBLE_NODE: &[u8] =
    b"\x00\x00\x00\x0B\x0A\x07OSMData\x18\x18\x0A\x16\x0A\x02\x0A\x00\x12\x10\x12\x0E\x0A\x01\x02\x2A\x03\x32\x01\x01\x42\x01\x02\x4A\x01\x02";

const VISIBLE_NODE_LINE: &[u8] = b"n 1 100 100 [x=1] {}\n";

const _: () = prove!(HEADER.len() + VISIBLE_NODE.len() == 86);

const _: () = prove!(HISTORIC_HEADER.len() == 79);

const _: () = prove!(HISTORIC_HEADER.len() + VISIBLE_NODE.len() == 118);

/// The blocks of the ways 7, which was deleted, and 7 and 8, of which the last was.
const DELETED_WAY: &[u8] = b"\x0A\x02\x0A\x00\x12\x08\x1A\x06\x08\x07\x22\x02\x30\x00";

pub(crate) const SECOND_WAY_DELETED: &[u8] =
    b"\x0A\x02\x0A\x00\x12\x0C\x1A\x02\x08\x07\x1A\x06\x08\x08\x22\x02\x30\x00";

/// The block of relation 3, which is visible.
const VISIBLE_RELATION: &[u8] = b"\x0A\x02\x0A\x00\x12\x08\x22\x06\x08\x03\x22\x02\x30\x01";

/// The node's frame in its file. The digest is as coreutils' sha256sum prints it for a file of those 39 bytes.
const HELD_NODE: Extent = Extent {
    off: 47,
    fin: 86,
    digest: [
        0x00, 0x5D, 0x06, 0x4E, 0x55, 0x3A, 0x4F, 0xB0, 0x11, 0x42, 0x37, 0xC3, 0xB8, 0x01, 0xB4,
        0x15, 0xA9, 0x0C, 0x77, 0xC9, 0xF3, 0x9B, 0x34, 0xDB, 0x2F, 0x17, 0xB4, 0x13, 0x68, 0x24,
        0xD3, 0x04,
    ],
    kind: Kind::OsmData,
    n: 1,
};

/// Where a blob is put behind all others.
const LAST: Extent = Extent {
    off: 300,
    fin: 337,
    digest: [5; 32],
    kind: Kind::OsmData,
    n: 1,
};

pub(crate) const TWO_LAST: Extent = Extent { n: 2, ..LAST };

const STORE_VISIBLE_NODE: Step = Step::Deliver(47, VISIBLE_NODE, Answer::Stored(1));

/// What was exported is delivered again, where it stands in the new file of 118 bytes.
#[test]
fn a_file_with_a_flag(rt: HostRuntime) -> Result<(), Fail> {
    const STEPS: &[Step] = &[
        STORE_HEADER,
        STORE_VISIBLE_NODE,
        Step::Extents(&[HELD_HEADER, HELD_NODE]),
        Step::Loads(47, VISIBLE_NODE_LINE),
        Step::Finds(MemberKind::Node, 1, b"47 0 n 1 100 100 [x=1] {}\n"),
        Step::History(true),
        Step::Lines(Some(86), &[VISIBLE_NODE_LINE]),
        Step::Pbf(Some(86), &[HISTORIC_HEADER, VISIBLE_NODE]),
        Step::Failures(0),
        Step::NewStore,
        Step::Deliver(0, HISTORIC_HEADER, Answer::Stored(0)),
        Step::Deliver(79, VISIBLE_NODE, Answer::Stored(1)),
        Step::Lines(Some(118), &[VISIBLE_NODE_LINE]),
        Step::Pbf(Some(118), &[HISTORIC_HEADER, VISIBLE_NODE]),
    ];
    over_all_stores(rt.alloc(), STEPS)
}

/// A header that requires history says nothing of flags: where no element has one, the plain header is written.
#[test]
fn a_header_with_history_alone(rt: HostRuntime) -> Result<(), Fail> {
    const STEPS: &[Step] = &[
        Step::History(false),
        Step::Deliver(0, HISTORIC_HEADER, Answer::Stored(0)),
        Step::Deliver(79, NODES, Answer::Stored(2)),
        Step::History(false),
        Step::Lines(Some(116), &[LINES]),
        Step::Pbf(Some(116), &[WRITTEN_HEADER, NODES]),
    ];
    over_all_stores(rt.alloc(), STEPS)
}

/// Nodes, ways and a relation without flags are held, and then an element with one behind them, of each kind.
#[test]
fn the_last_element_has_a_flag(rt: HostRuntime) -> Result<(), Fail> {
    const STEPS: &[Step] = &[
        PUT_HEADER,
        PUT_NODES,
        Step::Put(PLACED_RELATION, RELATION, Ok(())),
        Step::Put(PLACED_WAY, WAY, Ok(())),
        Step::History(false),
        Step::Put(TWO_LAST, SECOND_WAY_DELETED, Ok(())),
        Step::History(true),
        Step::Loads(300, b"w 7 () [] {}\nw 8 () [x=0] {}\n"),
        Step::Finds(MemberKind::Way, 8, b"300 1 w 8 () [x=0] {}\n"),
        Step::NewStore,
        PUT_NODES,
        Step::History(false),
        Step::Put(LAST, VISIBLE_RELATION, Ok(())),
        Step::History(true),
        Step::Loads(300, b"r 3 () [x=1] {}\n"),
        Step::NewStore,
        STORE_NODES,
        Step::Deliver(100, VISIBLE_NODE, Answer::Stored(1)),
        Step::History(true),
        Step::PartialPbf(&[HISTORIC_HEADER, NODES, VISIBLE_NODE]),
        Step::Failures(0),
    ];
    over_all_stores(rt.alloc(), STEPS)
}

/// The first element has a flag, and none behind it.
#[test]
fn the_first_element_has_a_flag(rt: HostRuntime) -> Result<(), Fail> {
    const STEPS: &[Step] = &[
        PUT_HEADER,
        STORE_VISIBLE_NODE,
        Step::Put(LAST, THREE_WAYS, Ok(())),
        Step::History(true),
        Step::NewStore,
        Step::Put(LAST, DELETED_WAY, Ok(())),
        Step::History(true),
        Step::Loads(300, b"w 7 () [x=0] {}\n"),
        Step::Failures(0),
    ];
    over_all_stores(rt.alloc(), STEPS)
}

/// A flag is 0 or 1 in its column, and NULL where there is none.
#[test]
fn rows_of_flags(rt: HostRuntime) -> Result<(), Fail> {
    const STEPS: &[Step] = &[
        STORE_VISIBLE_NODE,
        Step::Put(TWO_LAST, SECOND_WAY_DELETED, Ok(())),
    ];
    const ROWS: &[CountedRows] = &[
        (
            "SELECT count(*) FROM element WHERE off = 47 AND pos = 0 AND kind = 0 AND id = 1 AND visible = 1",
            1,
        ),
        (
            "SELECT count(*) FROM element WHERE off = 300 AND pos = 0 AND id = 7 AND visible IS NULL",
            1,
        ),
        (
            "SELECT count(*) FROM element WHERE off = 300 AND pos = 1 AND id = 8 AND visible = 0",
            1,
        ),
        ("SELECT count(*) FROM element", 3),
    ];
    let mut tables = filled(rt.alloc(), STEPS)?;
    expect_rows(&rt, &mut tables, ROWS);
    Ok(())
}
