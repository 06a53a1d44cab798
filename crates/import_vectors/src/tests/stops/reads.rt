//! Reads that stop: each tells a front of what it is asked, and the next opening finds the whole file.

use super::super::questions::{Question, answer_to};
use super::{
    Fused, Outcome, Reached, STOPS, Stopped, TaggedFile, Unsynced, Work, copies, found_after,
    new_files, session,
};
use osm_old_store::Bodies;
use osm_rows::Tables;
use osm_trees::TreeStore;
use sqlite::{Alter, Connection, Files};
use sqlite_disk::Disk;
use std::alloc::Global;
use std::process::Abort;
use std::test::*;
use store_vectors::files::opened;
use store_vectors::fixtures::{LINES, NODES, TAGGED, TAGGED_LINES, WRITTEN_HEADER};
use store_vectors::memory::KnownLayout;
use store_vectors::steps::are_joined;

/// The questions, and the pieces of what is told of the file of three frames.
const QUESTIONS: &[(Question, &[&[u8]])] = &[
    (Question::Extents, &[b"0 47\n", b"47 84\n", b"84 169\n"]),
    (Question::Gaps, &[b"169 300\n"]),
    (Question::Load, &[TAGGED_LINES]),
    (Question::Find, &[b"84 1 r 9 (n1@outer,w-2@) [] {name=c}\n"]),
    (Question::History, &[b"false\n"]),
    (Question::Lines, &[LINES, TAGGED_LINES]),
    (Question::Pbf, &[WRITTEN_HEADER, NODES, TAGGED]),
];

/// The files of a store that holds the whole file.
fn whole_files<L: KnownLayout>(alloc: Global) -> Option<Files<Fused>> {
    let files = new_files(alloc, Stopped::Log, u64::MAX);
    let (reached, files) = session::<_, L, _>(alloc, files, Work::Import, &mut TaggedFile)?;
    (reached == Reached::All).then_some(files)
}

/// How many calls lie between two stops.
const STRIDE: u64 = 3;

/// Adds the outcomes of stops inside a read, each once, until all is told. An error is the number of calls after which a
/// stop has none; 300 where no read ends.
fn add_outcomes<L: KnownLayout>(
    alloc: Global,
    files: &Files<Fused>,
    stop: (Stopped, Unsynced),
    work: Work<'_>,
    outcomes: &mut Vec<Outcome>,
) -> Result<(), u64> {
    for turn in 0u64..100 {
        let calls = turn * STRIDE;
        let outcome = outcome::<L>(alloc, files, stop, work, calls).ok_or(calls)?;
        if !outcomes.contains(&outcome) {
            outcomes.push(outcome).map_err(|_| calls)?;
        }
        if outcome.0 == Reached::All {
            return Ok(());
        }
    }
    Err(300)
}

/// The outcome of a stop inside a read after so many calls.
fn outcome<L: KnownLayout>(
    alloc: Global,
    files: &Files<Fused>,
    stop: (Stopped, Unsynced),
    work: Work<'_>,
    calls: u64,
) -> Option<Outcome> {
    let (stopped, unsynced) = stop;
    let files = copies(alloc, files, stopped, calls)?;
    let (told, files) = session::<_, L, _>(alloc, files, work, &mut TaggedFile)?;
    Some((
        told,
        found_after::<L, _>(alloc, files, unsynced, &mut TaggedFile)?,
    ))
}

/// Whether the next opening finds the whole file, wherever reads have stopped, and some stop falls into what is told. With
/// one page in memory what is read behind an opening is read from the log.
fn are_harmless(outcomes: &[Outcome], stopped: Stopped) -> bool {
    for (_, held) in outcomes {
        if *held != Reached::All {
            return false;
        }
    }
    stopped == Stopped::Db || outcomes.contains(&(Reached::Store, Reached::All))
}

fn expect_reads<L: KnownLayout, R: Abort + Alloc<A = Global>>(rt: &R) -> Result<(), Fail> {
    let files = whole_files::<L>(rt.alloc()).ok_or("no whole file")?;
    for stop in STOPS {
        let mut found = Vec::new(rt.alloc());
        for (question, pieces) in QUESTIONS {
            let work = Work::Ask(*question, *pieces);
            let added = add_outcomes::<L>(rt.alloc(), &files, stop, work, &mut found);
            assert!(rt;
                added == Ok(()),
                "{question:?} {stop:?} {added:?} {found:?}"
            );
        }
        assert!(rt; are_harmless(&found, stop.0), "{stop:?} {found:?}");
    }
    Ok(())
}

#[test]
fn reads_over_bodies(rt: HostRuntime) -> Result<(), Fail> {
    expect_reads::<Bodies, _>(&rt)
}

#[test]
fn reads_over_tables(rt: HostRuntime) -> Result<(), Fail> {
    expect_reads::<Tables, _>(&rt)
}

/// Whether all questions are answered below SQL, over the trees of a connection.
fn is_told_below<S: Alter + Drop>(alloc: Global, connection: Connection<S>) -> bool {
    let mut reader = TreeStore::new(connection.into_store());
    for (question, pieces) in QUESTIONS {
        let (answer, text) = answer_to(alloc, &mut reader, *question);
        if answer != Ok(()) || !are_joined(&text, pieces) {
            return false;
        }
    }
    true
}

/// The same of the database in these files.
fn is_told_in<D: Disk + Drop>(alloc: Global, files: Files<D>) -> bool {
    match opened(alloc, files, 8) {
        Ok(database) => is_told_below(alloc, database),
        Err(_) => false,
    }
}

#[test]
fn reads_below_sql(rt: HostRuntime) -> Result<(), Fail> {
    let files = whole_files::<Tables>(rt.alloc()).ok_or("no whole file")?;
    assert!(rt; is_told_in(rt.alloc(), files));
    Ok(())
}
