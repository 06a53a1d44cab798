//! Copies of the blobs of one store in memory into another, between both layouts.

use super::deliveries::file_store;
use osm_import::{Answer, Conflict, CopyCounts, CopyFault, CopyStop, copy_held, deliver};
use osm_rows::{BlobReader, StoreFault};
use std::alloc::Global;
use std::process::Abort;
use std::test::*;
use store_vectors::fixtures::{
    CHANGED, CHANGED_LINES, HELD_EXTRA, HELD_HEADER, HELD_NODES, HELD_NODES_AT_200, LINES, NODES,
};
use store_vectors::memory::{BodiesInMemory, NewStore, TablesInMemory, TreesInMemory};
use store_vectors::steps::{STORE_EXTRA, STORE_HEADER, STORE_NODES, Step, holds_the_file};

/// A step of a test over two stores.
enum CopyStep {
    /// A step over the store that is copied from.
    From(Step),
    /// A step over the store that is copied into.
    To(Step),
    /// A copy adds so many blobs and meets so many that are held.
    Copy(u64, u64),
    /// A copy is refused at an offset.
    Refused(Conflict, u64),
}

impl CopyStep {
    /// Makes the call, and says whether it is answered as it has to be.
    fn is_met<F: NewStore, T: NewStore>(
        &self,
        alloc: Global,
        from: &mut F,
        to: &mut T,
    ) -> Result<bool, StoreFault> {
        match self {
            CopyStep::From(step) => step.is_met(alloc, from),
            CopyStep::To(step) => step.is_met(alloc, to),
            CopyStep::Copy(copied, held) => {
                let (copied, held) = (*copied, *held);
                Ok(copy_held(alloc, from, to) == Ok(CopyCounts { copied, held }))
            }
            CopyStep::Refused(conflict, off) => {
                let (fault, off) = (CopyFault::Refused(*conflict), *off);
                Ok(copy_held(alloc, from, to) == Err(CopyStop { fault, off }))
            }
        }
    }
}

/// Takes the steps in turn over two new stores.
fn follow<F: NewStore, T: NewStore, R: Abort + Alloc<A = Global>>(
    rt: &R,
    layouts: &str,
    steps: &[CopyStep],
) -> Result<(), Fail> {
    let alloc = rt.alloc();
    let mut from = F::new_store(alloc)?;
    let mut to = T::new_store(alloc)?;
    for (number, step) in steps.iter().enumerate() {
        let outcome = step.is_met(alloc, &mut from, &mut to);
        assert_eq!(rt; outcome, Ok(true), "step {number} from {layouts}");
    }
    Ok(())
}

/// Takes the steps in turn over two new stores of any layouts. A step that isn't met is named by its number, from 0.
fn over_any_layouts<R: Abort + Alloc<A = Global>>(rt: &R, steps: &[CopyStep]) -> Result<(), Fail> {
    follow::<BodiesInMemory, BodiesInMemory, _>(rt, "bodies to bodies", steps)?;
    follow::<BodiesInMemory, TablesInMemory, _>(rt, "bodies to tables", steps)?;
    follow::<TablesInMemory, BodiesInMemory, _>(rt, "tables to bodies", steps)?;
    follow::<TablesInMemory, TablesInMemory, _>(rt, "tables to tables", steps)?;
    follow::<BodiesInMemory, TreesInMemory, _>(rt, "bodies to trees", steps)?;
    follow::<TreesInMemory, TablesInMemory, _>(rt, "trees to tables", steps)
}

/// A second copy finds each blob held and changes nothing.
#[test]
fn a_file_and_again(rt: HostRuntime) -> Result<(), Fail> {
    const STEPS: &[CopyStep] = &[
        CopyStep::From(STORE_HEADER),
        CopyStep::From(STORE_NODES),
        CopyStep::Copy(2, 0),
        CopyStep::From(Step::HoldsTheFile),
        CopyStep::To(Step::HoldsTheFile),
        CopyStep::Copy(0, 2),
        CopyStep::From(Step::HoldsTheFile),
        CopyStep::To(Step::HoldsTheFile),
    ];
    over_any_layouts(&rt, STEPS)
}

/// What is in the way stays, and the blobs below it were taken; so was the one that doesn't meet it.
#[test]
fn what_is_in_the_way(rt: HostRuntime) -> Result<(), Fail> {
    const STEPS: &[CopyStep] = &[
        CopyStep::From(STORE_HEADER),
        CopyStep::From(STORE_NODES),
        CopyStep::To(Step::Deliver(47, CHANGED, Answer::Stored(2))),
        CopyStep::Refused(Conflict::Differs, 47),
        CopyStep::To(Step::Gaps(100, &[(84, 100)])),
        CopyStep::To(Step::PartialLines(&[CHANGED_LINES])),
        CopyStep::From(Step::HoldsTheFile),
        CopyStep::To(Step::NewStore),
        CopyStep::To(Step::Deliver(60, NODES, Answer::Stored(2))),
        CopyStep::Refused(Conflict::Overlap, 47),
        CopyStep::To(Step::Gaps(100, &[(47, 60), (97, 100)])),
        CopyStep::To(Step::PartialLines(&[LINES])),
        CopyStep::From(Step::HoldsTheFile),
        CopyStep::To(Step::NewStore),
        CopyStep::To(Step::Deliver(30, NODES, Answer::Stored(2))),
        CopyStep::Refused(Conflict::Overlap, 0),
        CopyStep::To(Step::Gaps(100, &[(0, 30), (67, 100)])),
        CopyStep::To(Step::PartialLines(&[LINES])),
        CopyStep::From(Step::HoldsTheFile),
    ];
    over_any_layouts(&rt, STEPS)
}

/// A blob elsewhere stays, and one that is held is counted as held; a store that holds nothing adds nothing.
#[test]
fn beside_other_blobs(rt: HostRuntime) -> Result<(), Fail> {
    const STEPS: &[CopyStep] = &[
        CopyStep::From(STORE_HEADER),
        CopyStep::From(STORE_NODES),
        CopyStep::From(STORE_EXTRA),
        CopyStep::To(Step::Deliver(200, NODES, Answer::Stored(2))),
        CopyStep::To(STORE_NODES),
        CopyStep::Copy(2, 1),
        CopyStep::To(Step::Gaps(237, &[(100, 200)])),
        CopyStep::To(Step::PartialLines(&[LINES, LINES])),
        CopyStep::From(Step::NewStore),
        CopyStep::Copy(0, 0),
        CopyStep::To(Step::Extents(&[HELD_HEADER, HELD_NODES, HELD_EXTRA, HELD_NODES_AT_200])),
    ];
    over_any_layouts(&rt, STEPS)
}

/// Which of the two stores of a copy may take few steps.
#[derive(Clone, Copy)]
enum Limited {
    Source,
    Target,
}

fn limit_steps<F: NewStore, T: NewStore>(
    from: &mut F,
    to: &mut T,
    limited: Limited,
    limit: Option<u64>,
) {
    match limited {
        Limited::Source => from.limit_steps(limit),
        Limited::Target => to.limit_steps(limit),
    }
}

/// A copy that the step limit of either store breaks off has taken nothing, or the blobs below; the next goes on. The
/// target holds a blob behind the file, since a step is a row that a query visits.
fn under_step_limits_of<F: NewStore, T: NewStore, R: Abort + Alloc<A = Global>>(
    rt: &R,
    limited: Limited,
) -> Result<(), Fail> {
    let alloc = rt.alloc();
    let mut from = file_store::<F>(alloc)?;
    let mut to = T::new_store(alloc)?;
    assert!(rt; deliver(alloc, &mut to, 200, NODES) == Answer::Stored(2));
    let mut interrupted = 0;
    // the blob behind the file, and soon the header
    let mut held = 1;
    for limit in 1..100 {
        limit_steps(&mut from, &mut to, limited, Some(limit));
        let outcome = copy_held(alloc, &mut from, &mut to);
        limit_steps(&mut from, &mut to, limited, None);
        let Err(CopyStop { fault, off }) = outcome else {
            break;
        };
        assert!(rt; fault == CopyFault::Store(StoreFault::Interrupted));
        if off == 47 {
            held = 2;
        }
        assert!(rt; to.extents(alloc)?.len() == held);
        interrupted = limit;
    }
    assert!(rt; interrupted > 0);
    let both_held = CopyCounts { copied: 0, held: 2 };
    assert!(rt; copy_held(alloc, &mut from, &mut to) == Ok(both_held));
    assert!(rt; holds_the_file(alloc, &mut from)?);
    assert!(rt; Step::PartialLines(&[LINES, LINES]).is_met(alloc, &mut to)?);
    Ok(())
}

#[test]
fn under_step_limits(rt: HostRuntime) -> Result<(), Fail> {
    for limited in [Limited::Source, Limited::Target] {
        under_step_limits_of::<BodiesInMemory, TablesInMemory, _>(&rt, limited)?;
        under_step_limits_of::<TablesInMemory, BodiesInMemory, _>(&rt, limited)?;
    }
    Ok(())
}
