//! Openings that stop, of what an import has left that stopped: a third opening finds what the second would have found.

use super::{
    Fused, Outcome, Reached, STOPS, Stopped, TaggedFile, Unsynced, Work, after_stop, copies,
    found_after, new_files, session,
};
use osm_old_store::Bodies;
use osm_rows::Tables;
use sqlite::Files;
use std::alloc::Global;
use std::process::Abort;
use std::test::*;
use store_vectors::memory::KnownLayout;

/// How many calls lie between two stops of an import.
const IMPORT_STRIDE: u64 = 23;

/// How many calls lie between two stops of the opening behind it.
const OPENING_STRIDE: u64 = 5;

/// The outcome of a stop after so many calls of an opening of these files. What these hold stands first.
fn outcome<L: KnownLayout>(
    alloc: Global,
    files: &Files<Fused>,
    held: Reached,
    stop: (Stopped, Unsynced),
    calls: u64,
) -> Option<(Reached, Outcome)> {
    let (stopped, unsynced) = stop;
    let files = copies(alloc, files, stopped, calls)?;
    let (opened, files) = session::<_, L, _>(alloc, files, Work::Adopt, &mut TaggedFile)?;
    Some((
        opened,
        (
            held,
            found_after::<L, _>(alloc, files, unsynced, &mut TaggedFile)?,
        ),
    ))
}

/// Adds the outcomes of stops inside an opening of these files, each once, until it doesn't stop.
fn add_outcomes<L: KnownLayout>(
    alloc: Global,
    files: &Files<Fused>,
    held: Reached,
    stop: (Stopped, Unsynced),
    outcomes: &mut Vec<Outcome>,
) -> Option<()> {
    for turn in 0u64..100 {
        let calls = turn * OPENING_STRIDE;
        let (opened, outcome) = outcome::<L>(alloc, files, held, stop, calls)?;
        if !outcomes.contains(&outcome) {
            outcomes.push(outcome).ok()?;
        }
        if opened == Reached::All {
            return Some(());
        }
    }
    None
}

/// The files that an import leaves that stops after so many calls, how far it was answered, and what they hold.
fn left<L: KnownLayout>(
    alloc: Global,
    stop: (Stopped, Unsynced),
    calls: u64,
) -> Option<(Reached, Reached, Files<Fused>)> {
    let (stopped, unsynced) = stop;
    let files = new_files(alloc, stopped, calls);
    let (answered, files) = session::<_, L, _>(alloc, files, Work::Import, &mut TaggedFile)?;
    let files = after_stop(alloc, files, unsynced)?;
    let again = copies(alloc, &files, Stopped::Log, u64::MAX)?;
    let (held, _) = session::<_, L, _>(alloc, again, Work::GoOn, &mut TaggedFile)?;
    Some((answered, held, files))
}

/// The outcomes, each once, of stops inside the second opening behind stops of an import.
fn outcomes<L: KnownLayout>(
    alloc: Global,
    first: (Stopped, Unsynced),
    second: (Stopped, Unsynced),
) -> Option<Vec<Outcome>> {
    let mut outcomes = Vec::new(alloc);
    for turn in 0u64..100 {
        let (answered, held, files) = left::<L>(alloc, first, turn * IMPORT_STRIDE)?;
        add_outcomes::<L>(alloc, &files, held, second, &mut outcomes)?;
        if answered == Reached::All {
            return Some(outcomes);
        }
    }
    None
}

/// Whether the third opening finds what the second would have found.
fn are_unchanged(outcomes: &[Outcome]) -> bool {
    for (before, after) in outcomes {
        if before != after {
            return false;
        }
    }
    true
}

fn expect_unchanged<L: KnownLayout, R: Abort + Alloc<A = Global>>(rt: &R) -> Result<(), Fail> {
    for first in STOPS {
        for second in STOPS {
            let outcomes = outcomes::<L>(rt.alloc(), first, second).ok_or("another answer")?;
            assert!(rt;
                are_unchanged(&outcomes),
                "{first:?} {second:?} {outcomes:?}"
            );
            assert!(rt;
                outcomes.contains(&(Reached::All, Reached::All)),
                "{first:?} {second:?} {outcomes:?}"
            );
        }
    }
    Ok(())
}

#[test]
fn openings_over_bodies(rt: HostRuntime) -> Result<(), Fail> {
    expect_unchanged::<Bodies, _>(&rt)
}

#[test]
fn openings_over_tables(rt: HostRuntime) -> Result<(), Fail> {
    expect_unchanged::<Tables, _>(&rt)
}
