//! An import that stops.

use super::{
    Outcome, Reached, STOPS, Source, Stopped, TaggedFile, Unsynced, Work, found_after, new_files,
    session,
};
use osm_old_store::Bodies;
use osm_rows::Tables;
use std::alloc::Global;
use std::process::Abort;
use std::test::*;
use store_vectors::memory::KnownLayout;

/// A call that wasn't answered has changed nothing.
const UNCHANGED: [Outcome; 6] = [
    (Reached::Nothing, Reached::Database),
    (Reached::Database, Reached::Database),
    (Reached::Store, Reached::Store),
    (Reached::Header, Reached::Header),
    (Reached::HeaderAndNodes, Reached::HeaderAndNodes),
    (Reached::All, Reached::All),
];

/// A call that wasn't answered has changed nothing or is done.
const UNCHANGED_OR_DONE: [Outcome; 10] = [
    (Reached::Nothing, Reached::Database),
    (Reached::Database, Reached::Database),
    (Reached::Database, Reached::Store),
    (Reached::Store, Reached::Store),
    (Reached::Store, Reached::Header),
    (Reached::Header, Reached::Header),
    (Reached::Header, Reached::HeaderAndNodes),
    (Reached::HeaderAndNodes, Reached::HeaderAndNodes),
    (Reached::HeaderAndNodes, Reached::All),
    (Reached::All, Reached::All),
];

/// The outcome of a stop after so many calls, where the next opening goes on.
pub(super) fn outcome<L: KnownLayout, F: Source>(
    alloc: Global,
    stop: (Stopped, Unsynced),
    calls: u64,
    source: &mut F,
) -> Option<Outcome> {
    let (stopped, unsynced) = stop;
    let files = new_files(alloc, stopped, calls);
    let (answered, files) = session::<_, L, F>(alloc, files, Work::Import, source)?;
    let found = found_after::<L, F>(alloc, files, unsynced, source)?;
    Some((answered, found))
}

/// The outcomes, each once, of stops after no call, after one and so on, until an import is answered to its end.
/// An error is the number of calls after which a stop has none; 400 where no import ends.
fn outcomes<L: KnownLayout, F: Source>(
    alloc: Global,
    stop: (Stopped, Unsynced),
    source: &mut F,
) -> Result<Vec<Outcome>, u64> {
    let mut outcomes = Vec::new(alloc);
    for calls in 0u64..400 {
        let outcome = outcome::<L, F>(alloc, stop, calls, source).ok_or(calls)?;
        if !outcomes.contains(&outcome) {
            outcomes.push(outcome).map_err(|_| calls)?;
        }
        if outcome.0 == Reached::All {
            return Ok(outcomes);
        }
    }
    Err(400)
}

/// Tries each kind of stop. One alone leaves a call done that wasn't answered: where the commit was written and stays,
/// and the sync after it failed.
pub(super) fn expect_outcomes<L: KnownLayout, F: Source, R: Abort + Alloc<A = Global>>(
    rt: &R,
    source: &mut F,
) {
    for stop in STOPS {
        let wanted = match stop {
            (Stopped::Log, Unsynced::Kept) => UNCHANGED_OR_DONE.as_slice(),
            _ => UNCHANGED.as_slice(),
        };
        let outcomes = outcomes::<L, F>(rt.alloc(), stop, source);
        assert!(rt;
            matches!(&outcomes, Ok(found) if found.as_slice() == wanted),
            "{stop:?} {outcomes:?}"
        );
    }
}

#[test]
fn stops_over_bodies(rt: HostRuntime) {
    expect_outcomes::<Bodies, _, _>(&rt, &mut TaggedFile);
}

#[test]
fn stops_over_tables(rt: HostRuntime) {
    expect_outcomes::<Tables, _, _>(&rt, &mut TaggedFile);
}
