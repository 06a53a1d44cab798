//! Imports below SQL that stop: what the next opening finds, by SQL and by trees, and how each goes on.

use super::{
    Fused, Outcome, Reached, STOPS, Source, Stopped, TaggedFile, Unsynced, Work, after_stop,
    copies, new_files, session,
};
use osm_openings::open_checked_tables;
use osm_rows::{BlobReader, Tables};
use osm_trees::TreeStore;
use sqlite::{Alter, Files};
use sqlite_disk::Disk;
use std::alloc::Global;
use std::process::Abort;
use std::test::*;
use store_vectors::files::OPTIONS;
use store_vectors::memory::{NewSqlStore, NewStore, TablesInMemory};

/// A call that wasn't answered has changed nothing. The log's copy leaves what it copies.
const UNCHANGED: [Outcome; 7] = [
    (Reached::Nothing, Reached::Database),
    (Reached::Database, Reached::Database),
    (Reached::Store, Reached::Store),
    (Reached::Header, Reached::Header),
    (Reached::HeaderAndNodes, Reached::HeaderAndNodes),
    (Reached::All, Reached::All),
    (Reached::Copied, Reached::All),
];

/// A call that wasn't answered has changed nothing or is done.
const UNCHANGED_OR_DONE: [Outcome; 11] = [
    (Reached::Nothing, Reached::Database),
    (Reached::Database, Reached::Database),
    (Reached::Database, Reached::Store),
    (Reached::Store, Reached::Store),
    (Reached::Store, Reached::Header),
    (Reached::Header, Reached::Header),
    (Reached::Header, Reached::HeaderAndNodes),
    (Reached::HeaderAndNodes, Reached::HeaderAndNodes),
    (Reached::HeaderAndNodes, Reached::All),
    (Reached::All, Reached::All),
    (Reached::Copied, Reached::All),
];

/// All rows of a full store, as SQL writes them.
pub(super) fn rows_by_sql<F: Source>(alloc: Global, source: &mut F) -> Option<String> {
    let mut store = TablesInMemory::new_store(alloc).ok()?;
    if source.fill(alloc, &mut store)? != Reached::All {
        return None;
    }
    let (_, rows) = store.with_rows(alloc)?;
    Some(rows)
}

/// What a store of trees holds, if it goes on to hold all; and what the trees lie in.
fn continued_below<S: Alter + Drop, F: Source>(
    alloc: Global,
    trees: S,
    source: &mut F,
) -> Option<(Reached, S)> {
    let mut store = TreeStore::new(trees);
    let held = source.extents_of(&store.extents(alloc).ok()?)?;
    if !source.goes_on(alloc, &mut store, held)? {
        return None;
    }
    Some((held, store.into_store()))
}

/// What is found by the trees in these files, where there is a store. It goes on, and the files are closed.
fn found_by_trees<D: Disk + Drop, F: Source>(
    alloc: Global,
    files: Files<D>,
    source: &mut F,
) -> Option<(Reached, Option<Files<D>>)> {
    if !files.may_be_used() {
        return None;
    }
    match open_checked_tables(alloc, files, OPTIONS).ok()? {
        Some(trees) => {
            let (held, trees) = continued_below(alloc, trees, source)?;
            Some((held, Some(trees.close())))
        }
        None => Some((Reached::Database, None)),
    }
}

/// The same, if the rows are then those that SQL writes, and an opening by SQL finds all sound.
fn found_below<F: Source>(
    alloc: Global,
    files: Files<Fused>,
    source: &mut F,
    rows: &str,
) -> Option<Reached> {
    let (held, files) = found_by_trees(alloc, files, source)?;
    if let Some(files) = files {
        session::<_, Tables, F>(alloc, files, Work::Show(rows), source)?;
    }
    Some(held)
}

/// The outcome of a stop after so many calls, where the next opening goes on, by SQL and by trees alike.
pub(super) fn outcome<F: Source>(
    alloc: Global,
    stop: (Stopped, Unsynced),
    calls: u64,
    source: &mut F,
    rows: &str,
) -> Option<Outcome> {
    let (stopped, unsynced) = stop;
    let files = new_files(alloc, stopped, calls);
    let (answered, files) = session::<_, Tables, F>(alloc, files, Work::ImportBelow, source)?;
    let files = after_stop(alloc, files, unsynced)?;
    let again = copies(alloc, &files, Stopped::Log, u64::MAX)?;
    let (by_sql, files) = session::<_, Tables, F>(alloc, files, Work::GoOn, source)?;
    session::<_, Tables, F>(alloc, files, Work::Show(rows), source)?;
    let by_trees = found_below(alloc, again, source, rows)?;
    (by_trees == by_sql).then_some((answered, by_sql))
}

/// The outcomes, each once, of stops after no call, after one and so on, until an import is answered to its end and the log
/// copied. An error is the number of calls after which a stop has none; 400 where no import ends.
fn outcomes<F: Source>(
    alloc: Global,
    stop: (Stopped, Unsynced),
    source: &mut F,
    rows: &str,
) -> Result<Vec<Outcome>, u64> {
    let mut outcomes = Vec::new(alloc);
    for calls in 0u64..400 {
        let outcome = outcome(alloc, stop, calls, source, rows).ok_or(calls)?;
        if !outcomes.contains(&outcome) {
            outcomes.push(outcome).map_err(|_| calls)?;
        }
        if outcome.0 == Reached::Copied {
            return Ok(outcomes);
        }
    }
    Err(400)
}

/// Tries each kind of stop. One alone leaves a call done that wasn't answered, as over SQL.
pub(super) fn expect_outcomes<F: Source, R: Abort + Alloc<A = Global>>(
    rt: &R,
    source: &mut F,
) -> Result<(), Fail> {
    let rows = rows_by_sql(rt.alloc(), source).ok_or("no rows")?;
    for stop in STOPS {
        let wanted = match stop {
            (Stopped::Log, Unsynced::Kept) => UNCHANGED_OR_DONE.as_slice(),
            _ => UNCHANGED.as_slice(),
        };
        let outcomes = outcomes(rt.alloc(), stop, source, &rows);
        assert!(rt;
            matches!(&outcomes, Ok(found) if found.as_slice() == wanted),
            "{stop:?} {outcomes:?}"
        );
    }
    Ok(())
}

#[test]
fn stops_below_sql(rt: HostRuntime) -> Result<(), Fail> {
    expect_outcomes(&rt, &mut TaggedFile)
}
