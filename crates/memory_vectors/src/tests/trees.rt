//! Reads below SQL, over the trees of stores in memory: the answers of the same calls over connections.

use super::history::{SECOND_WAY_DELETED, TWO_LAST};
use super::tables::filled;
use osm_trees::TreeStore;
use osm_value::MemberKind;
use std::alloc::Global;
use std::process::Abort;
use std::test::*;
use store_vectors::fixtures::{
    LINES, PLACED_HEADER, PLACED_NODES, PLACED_RELATION, PLACED_WAY, RELATION, WAY,
};
use store_vectors::steps::{PUT_HEADER, PUT_NODES, Step};

/// Makes the reads in turn over the trees of tables once the steps were taken. A read that isn't met is named by its
/// number, from 0.
fn expect_reads<R: Abort + Alloc<A = Global>>(
    rt: &R,
    steps: &[Step],
    reads: &[Step],
) -> Result<(), Fail> {
    let alloc = rt.alloc();
    let mut reader = TreeStore::new(filled(alloc, steps)?.into_store());
    for (number, read) in reads.iter().enumerate() {
        let outcome = read.is_read(alloc, &mut reader);
        assert_eq!(rt; outcome, Ok(true), "read {number}");
    }
    Ok(())
}

#[test]
fn four_blobs_below_sql(rt: HostRuntime) -> Result<(), Fail> {
    // the last extent is put first, so the rowids do not ascend as the offsets do
    const STEPS: &[Step] = &[
        Step::Put(PLACED_WAY, WAY, Ok(())),
        Step::Put(PLACED_RELATION, RELATION, Ok(())),
        PUT_NODES,
        PUT_HEADER,
    ];
    const READS: &[Step] = &[
        Step::Extents(&[PLACED_HEADER, PLACED_NODES, PLACED_RELATION, PLACED_WAY]),
        Step::Touching(0, 1, &[PLACED_HEADER]),
        Step::Touching(83, 85, &[PLACED_NODES, PLACED_RELATION]),
        Step::Touching(199, 300, &[]),
        Step::Loads(0, b""),
        Step::Loads(47, LINES),
        Step::Loads(84, b"r 9 (n1@outer,w-2@) [] {name=a%20b%2Cc}\n"),
        Step::Loads(150, b"w 7 (5,6,7,6) [] {a=b}\n"),
        Step::Loads(1 << 62, b""),
        Step::Finds(
            MemberKind::Relation,
            9,
            b"84 0 r 9 (n1@outer,w-2@) [] {name=a%20b%2Cc}\n",
        ),
        Step::Finds(MemberKind::Way, 7, b"150 0 w 7 (5,6,7,6) [] {a=b}\n"),
        Step::Finds(MemberKind::Node, 9, b""),
        Step::History(false),
        Step::Gaps(300, &[(199, 300)]),
        Step::Failures(0),
    ];
    expect_reads(&rt, STEPS, READS)
}

#[test]
fn matches_below_sql_by_their_places(rt: HostRuntime) -> Result<(), Fail> {
    // way 7 is held twice, and the later place is written first
    const STEPS: &[Step] = &[
        Step::Put(TWO_LAST, SECOND_WAY_DELETED, Ok(())),
        Step::Put(PLACED_WAY, WAY, Ok(())),
    ];
    const READS: &[Step] = &[
        Step::Finds(
            MemberKind::Way,
            7,
            b"150 0 w 7 (5,6,7,6) [] {a=b}\n300 0 w 7 () [] {}\n",
        ),
        Step::Finds(MemberKind::Way, 8, b"300 1 w 8 () [x=0] {}\n"),
        Step::History(true),
        Step::Failures(0),
    ];
    expect_reads(&rt, STEPS, READS)
}

#[test]
fn nothing_below_sql(rt: HostRuntime) -> Result<(), Fail> {
    const READS: &[Step] = &[
        Step::Extents(&[]),
        Step::Touching(0, 1, &[]),
        Step::Loads(0, b""),
        Step::Finds(MemberKind::Node, 1, b""),
        Step::History(false),
        Step::Failures(0),
    ];
    expect_reads(&rt, &[], READS)
}
