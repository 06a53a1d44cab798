//! Gaps and exports.

use super::file_store;
use osm_import::{Answer, ExportFault};
use osm_value::{Form, Outlet};
use osm_vectors::FailingWriter;
use std::alloc::Global;
use std::process::Abort;
use std::test::*;
use store_vectors::deliveries::export_as;
use store_vectors::fixtures::{LINES, NODES, WRITTEN_HEADER};
use store_vectors::memory::{BodiesInMemory, NewStore, TablesInMemory};
use store_vectors::steps::{STORE_EXTRA, STORE_HEADER, STORE_NODES, Step, over_all_stores};

#[test]
fn sizes_of_a_whole_file(rt: HostRuntime) -> Result<(), Fail> {
    const STEPS: &[Step] = &[
        STORE_HEADER,
        STORE_NODES,
        Step::Gaps(84, &[]),
        Step::Gaps(90, &[(84, 90)]),
        Step::Lines(None, &[LINES]),
        Step::Lines(Some(84), &[LINES]),
        Step::NoExport(Some(83), ExportFault::PastEnd(84)),
        Step::NoExport(Some(85), ExportFault::Incomplete(84, 85)),
    ];
    over_all_stores(rt.alloc(), STEPS)
}

#[test]
fn a_gap_before_the_data(rt: HostRuntime) -> Result<(), Fail> {
    const STEPS: &[Step] = &[
        STORE_NODES,
        Step::Gaps(84, &[(0, 47)]),
        Step::NoExport(None, ExportFault::Incomplete(0, 47)),
        Step::PartialLines(&[LINES]),
    ];
    over_all_stores(rt.alloc(), STEPS)
}

#[test]
fn a_store_that_holds_nothing(rt: HostRuntime) -> Result<(), Fail> {
    const STEPS: &[Step] = &[
        Step::Gaps(10, &[(0, 10)]),
        Step::NoExport(None, ExportFault::Incomplete(0, 0)),
        Step::PartialLines(&[]),
        Step::PartialPbf(&[WRITTEN_HEADER]),
    ];
    over_all_stores(rt.alloc(), STEPS)
}

/// What was exported is delivered again, where it stands in the new file of 93 bytes.
#[test]
fn a_file_as_pbf(rt: HostRuntime) -> Result<(), Fail> {
    const STEPS: &[Step] = &[
        STORE_HEADER,
        STORE_NODES,
        Step::Pbf(None, &[WRITTEN_HEADER, NODES]),
        Step::NewStore,
        Step::Deliver(0, WRITTEN_HEADER, Answer::Stored(0)),
        Step::Deliver(56, NODES, Answer::Stored(2)),
        Step::Lines(Some(93), &[LINES]),
    ];
    over_all_stores(rt.alloc(), STEPS)
}

const _: () = prove!(WRITTEN_HEADER.len() + 2 * NODES.len() == 130);

/// A blob of another type has no elements, and so no frame in the export, of 130 bytes.
#[test]
fn a_file_with_another_type_as_pbf(rt: HostRuntime) -> Result<(), Fail> {
    const STEPS: &[Step] = &[
        Step::Deliver(100, NODES, Answer::Stored(2)),
        STORE_EXTRA,
        STORE_NODES,
        STORE_HEADER,
        Step::Pbf(Some(137), &[WRITTEN_HEADER, NODES, NODES]),
    ];
    over_all_stores(rt.alloc(), STEPS)
}

/// What the exports of the file write, in pieces.
const WRITTEN: [(Form, [&[u8]; 2]); 2] = [
    (Form::Lines, [LINES, b""]),
    (Form::Pbf, [WRITTEN_HEADER, NODES]),
];

/// An export fails over a writer with room for less than all of it, which has then taken a front.
fn writers_that_fail_of<K: NewStore, R: Abort + Alloc<A = Global>>(rt: &R) -> Result<(), Fail> {
    let alloc = rt.alloc();
    let mut store = file_store::<K>(alloc)?;
    for (form, pieces) in WRITTEN {
        let mut whole = Vec::new(alloc);
        for piece in pieces {
            whole.extend_from_slice(piece)?;
        }
        for room in 0..whole.len() {
            let inner = Vec::new(alloc);
            let mut out = Outlet::new(FailingWriter { inner, room });
            let result = export_as(alloc, &mut store, form, None, false, &mut out);
            assert!(rt; result == Err(ExportFault::WriteFailed));
            let taken = out.into_inner().inner;
            assert!(rt; taken.len() == room);
            assert!(rt; whole.starts_with(&taken));
        }
    }
    Ok(())
}

#[test]
fn writers_that_fail(rt: HostRuntime) -> Result<(), Fail> {
    writers_that_fail_of::<BodiesInMemory, _>(&rt)?;
    writers_that_fail_of::<TablesInMemory, _>(&rt)
}
