//! Imports that stop in a blob whose rows fill several statements, and below SQL are made in two parts: the next opening
//! finds the whole blob or nothing of it, and it is delivered again.

use super::below::rows_by_sql;
use super::{Outcome, Reached, STOPS, Source, Stopped, Unsynced, below, imports, sum};
use osm_import::{Answer, deliver_all};
use osm_rows::{BlobKeeper, Extent, Tables};
use osm_value::{Element, Form, Info, Node};
use osm_write::encode_block;
use pbf_frame::{Kind, write_frame};
use sqlite::{Alter, Connection};
use std::alloc::Global;
use std::process::Abort;
use std::test::*;
use store_vectors::deliveries::{deliveries_of, exported};
use store_vectors::fixtures::{HEADER_AT_0, HELD_HEADER};
use store_vectors::memory::KnownLayout;

/// How many nodes the blob has. By SQL the rows of 32 are written by one statement, and below SQL those of 64 are made at
/// once.
const SIZE: u8 = 80;

/// A call that wasn't answered has changed nothing.
const UNCHANGED: [Outcome; 4] = [
    (Reached::Store, Reached::Store),
    (Reached::Header, Reached::Header),
    (Reached::All, Reached::All),
    (Reached::Copied, Reached::All),
];

/// It is done.
const DONE: [Outcome; 2] = [
    (Reached::Store, Reached::Header),
    (Reached::Header, Reached::All),
];

/// A header and the blob behind it, as it is delivered, and the lines of its elements.
#[derive(Drop)]
struct Batch {
    frame: Vec<u8>,
    lines: Vec<u8>,
}

impl Batch {
    /// Delivers both, and says what was answered.
    fn answers<K: BlobKeeper>(&self, alloc: Global, store: &mut K) -> Option<Vec<Answer>> {
        let frames = [HEADER_AT_0, (47, self.frame.as_slice())];
        let deliveries = deliveries_of(alloc, &frames).ok()?;
        deliver_all(alloc, store, &deliveries).ok()
    }
}

impl Source for Batch {
    fn fill<K: BlobKeeper>(&mut self, alloc: Global, store: &mut K) -> Option<Reached> {
        match self.answers(alloc, store)?.as_slice() {
            [Answer::Fault(_), Answer::Fault(_)] => Some(Reached::Store),
            [Answer::Stored(0), Answer::Fault(_)] => Some(Reached::Header),
            [Answer::Stored(0), Answer::Stored(80)] => Some(Reached::All),
            _ => None,
        }
    }

    fn extents_of(&self, extents: &[Extent]) -> Option<Reached> {
        match extents {
            [] => Some(Reached::Store),
            [header] if *header == HELD_HEADER => Some(Reached::Header),
            [header, blob] if *header == HELD_HEADER && blob.off == 47 && blob.n == 80 => {
                Some(Reached::All)
            }
            _ => None,
        }
    }

    fn has_rows<S: Alter, L: KnownLayout>(
        &self,
        database: &mut Connection<S>,
        held: Reached,
    ) -> Option<bool> {
        let rows = sum(database, L::COUNTS)?;
        Some(
            rows == if held == Reached::All {
                i64::from(SIZE)
            } else {
                0
            },
        )
    }

    fn goes_on<K: BlobKeeper>(
        &mut self,
        alloc: Global,
        store: &mut K,
        held: Reached,
    ) -> Option<bool> {
        let wanted = match held {
            Reached::All => [Answer::AlreadyHeld; 2],
            Reached::Header => [Answer::AlreadyHeld, Answer::Stored(80)],
            _ => [Answer::Stored(0), Answer::Stored(80)],
        };
        let answers = self.answers(alloc, store)?;
        let (result, lines) = exported(alloc, store, Form::Lines, None, false);
        Some(
            answers.as_slice() == wanted.as_slice()
                && result == Ok(())
                && lines.as_slice() == self.lines.as_slice(),
        )
    }
}

/// The node of an id, at a place that tells the id.
fn node(alloc: Global, id: u8) -> Element<'static> {
    let place = i64::from(id);
    let info = Info::new(None, None, None, None, None, None);
    Element::Node(Node::new(place, place, -place, Vec::new(alloc), info))
}

/// The blob of the nodes from 1 to the last.
fn new_batch(alloc: Global) -> Result<Batch, Fail> {
    let mut nodes = Vec::new(alloc);
    let mut lines = Vec::new(alloc);
    for id in 1..SIZE + 1 {
        nodes.push(node(alloc, id))?;
        let line = format!(in alloc; "n {id} {id} -{id} [] {{}}\n")?;
        lines.extend_from_slice(line.as_bytes())?;
    }
    let block = encode_block(alloc, &nodes)?;
    let mut frame = Vec::new(alloc);
    write_frame(Kind::OsmData, &block, &mut frame)?;
    Ok(Batch { frame, lines })
}

/// By what the blob is written.
#[derive(Clone, Copy)]
enum Path<'a> {
    Sql,
    /// The trees; these are the rows that SQL would write.
    Trees(&'a str),
}

fn outcome(
    alloc: Global,
    path: Path<'_>,
    stop: (Stopped, Unsynced),
    calls: u64,
    batch: &mut Batch,
) -> Option<Outcome> {
    match path {
        Path::Sql => imports::outcome::<Tables, _>(alloc, stop, calls, batch),
        Path::Trees(rows) => below::outcome(alloc, stop, calls, batch, rows),
    }
}

/// Whether a stop may have this outcome.
fn is_explained(stop: (Stopped, Unsynced), outcome: Outcome) -> bool {
    UNCHANGED.contains(&outcome)
        || stop == (Stopped::Log, Unsynced::Kept) && DONE.contains(&outcome)
}

/// After how many calls a stop comes. The store is made by the first, and other tests stop there. The log is called far
/// more often for each node.
fn calls_before(stopped: Stopped, turn: u8) -> u64 {
    match stopped {
        Stopped::Log => 60 + u64::from(turn) * 7,
        Stopped::Db => 20 + u64::from(turn),
    }
}

/// How many stops fall into the blob at least.
fn least_inside(stopped: Stopped) -> usize {
    match stopped {
        Stopped::Log => 15,
        Stopped::Db => 3,
    }
}

/// After how many calls stops fell into the blob, if each stop has left all of it or nothing. An error is the number of
/// calls after which one hasn't; 760 where no import ends.
fn stops_inside(
    alloc: Global,
    path: Path<'_>,
    stop: (Stopped, Unsynced),
    batch: &mut Batch,
) -> Result<Vec<u64>, u64> {
    let mut inside = Vec::new(alloc);
    for turn in 0u8..100 {
        let calls = calls_before(stop.0, turn);
        let outcome = outcome(alloc, path, stop, calls, batch).ok_or(calls)?;
        if !is_explained(stop, outcome) {
            return Err(calls);
        }
        match outcome.0 {
            Reached::Header => inside.push(calls).map_err(|_| calls)?,
            Reached::All | Reached::Copied => return Ok(inside),
            _ => {}
        }
    }
    Err(760)
}

fn expect_all_or_nothing<R: Abort + Alloc<A = Global>>(rt: &R, path: Path<'_>, batch: &mut Batch) {
    for stop in STOPS {
        let inside = stops_inside(rt.alloc(), path, stop, batch);
        let least = least_inside(stop.0);
        assert!(rt;
            matches!(&inside, Ok(calls) if calls.len() >= least),
            "{stop:?} {inside:?}"
        );
    }
}

#[test]
fn batches_by_sql(rt: HostRuntime) -> Result<(), Fail> {
    let mut batch = new_batch(rt.alloc())?;
    expect_all_or_nothing(&rt, Path::Sql, &mut batch);
    Ok(())
}

#[test]
fn batches_below_sql(rt: HostRuntime) -> Result<(), Fail> {
    let mut batch = new_batch(rt.alloc())?;
    let rows = rows_by_sql(rt.alloc(), &mut batch).ok_or("no rows")?;
    expect_all_or_nothing(&rt, Path::Trees(&rows), &mut batch);
    Ok(())
}
