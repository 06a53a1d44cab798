//! Deliveries in any order, again, and in the way of one another.

use osm_import::{Answer, Conflict, Fault, examine};
use osm_rows::StoreFault;
use pbf_frame::Kind;
use std::test::*;
use store_vectors::fixtures::{
    CHANGED, EXTRA, FILE, HEADER, HEADER_AT_0, LINES, NODES, NODES_AT_47,
};
use store_vectors::steps::{
    STORE_EXTRA, STORE_HEADER, STORE_NODES, Step, over_all_stores, over_both_layouts,
};

#[test]
fn frames_in_any_order_and_again(rt: HostRuntime) -> Result<(), Fail> {
    const STEPS: &[Step] = &[
        STORE_NODES,
        STORE_HEADER,
        Step::Deliver(47, NODES, Answer::AlreadyHeld),
        Step::Deliver(47, NODES, Answer::AlreadyHeld),
        Step::Lines(None, &[LINES]),
    ];
    over_all_stores(rt.alloc(), STEPS)
}

#[test]
fn a_frame_of_another_type(rt: HostRuntime) -> Result<(), Fail> {
    const STEPS: &[Step] = &[
        STORE_HEADER,
        STORE_NODES,
        STORE_EXTRA,
        Step::Deliver(100, NODES, Answer::Stored(2)),
        Step::Lines(Some(137), &[LINES, LINES]),
    ];
    over_all_stores(rt.alloc(), STEPS)
}

#[test]
fn what_is_in_the_way(rt: HostRuntime) -> Result<(), Fail> {
    const STEPS: &[Step] = &[
        STORE_HEADER,
        STORE_NODES,
        Step::Deliver(47, CHANGED, Answer::Refused(Conflict::Differs)),
        Step::Deliver(60, NODES, Answer::Refused(Conflict::Overlap)),
        Step::Deliver(84, HEADER, Answer::Bad(Fault::HeaderNotFirst)),
        Step::Deliver(0, NODES, Answer::Bad(Fault::NoHeaderFirst)),
        Step::Lines(None, &[LINES]),
    ];
    over_all_stores(rt.alloc(), STEPS)
}

/// Each is answered, also behind a call of the store that fails, and the next deliveries go on.
#[test]
fn deliveries_behind_a_fault(rt: HostRuntime) -> Result<(), Fail> {
    const INTERRUPTED: Answer = Answer::Fault(StoreFault::Interrupted);
    const STEPS: &[Step] = &[
        Step::DeliverAll(FILE, &[Answer::Stored(0), Answer::Stored(2)]),
        Step::LimitSteps(Some(1)),
        Step::DeliverAll(&[NODES_AT_47, HEADER_AT_0], &[INTERRUPTED, INTERRUPTED]),
        Step::LimitSteps(None),
        Step::DeliverAll(FILE, &[Answer::AlreadyHeld, Answer::AlreadyHeld]),
    ];
    over_both_layouts(rt.alloc(), STEPS)
}

#[test]
fn what_a_good_delivery_says(rt: HostRuntime) -> Result<(), Fail> {
    let alloc = rt.alloc();
    for (off, bytes, kind, length, elements) in [
        (47, NODES, Kind::OsmData, 37, 2),
        (0, HEADER, Kind::OsmHeader, 47, 0),
        (84, EXTRA, Kind::Other, 16, 0),
    ] {
        let good = examine(alloc, off, bytes)?;
        assert!(rt; good.kind == kind && good.length == length, "at {off}");
        assert_eq!(rt; good.elements.len(), elements, "at {off}");
    }
    Ok(())
}
