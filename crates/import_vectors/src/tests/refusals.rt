//! What a store holds after a delivery that isn't stored, and what a read that is broken off has told.

use super::questions::{Question, answer_to};
use osm_import::{Answer, ExportFault, deliver};
use osm_rows::{BlobReader, StoreFault};
use osm_vectors::vectors::TWO_NODES_FRAME;
use std::alloc::Global;
use std::process::Abort;
use std::test::*;
use store_vectors::deliveries::answers_to;
use store_vectors::fixtures::{
    FILE, LINES, NODES, RELATION_FRAME, TAGGED, TAGGED_LINES, WAY_FRAME, WRITTEN_HEADER,
};
use store_vectors::memory::{BodiesInMemory, NewSqlStore, NewStore, TablesInMemory, TreesInMemory};
use store_vectors::steps::are_joined;

/// The nodes 1, 2 and 3 at 0, 0.
const THREE_NODES: &[u8] = &[
    0x00, 0x00, 0x00, 0x0B, 0x0A, 0x07, 0x4F, 0x53, 0x4D, 0x44, 0x61, 0x74, 0x61, 0x18, 0x19, 0x0A,
    0x17, 0x0A, 0x02, 0x0A, 0x00, 0x12, 0x11, 0x12, 0x0F, 0x0A, 0x03, 0x02, 0x02, 0x02, 0x42, 0x03,
    0x00, 0x00, 0x00, 0x4A, 0x03, 0x00, 0x00, 0x00,
];

/// The data frame of the file with this byte at a place.
fn changed_frame(at: usize, byte: u8) -> [u8; 37] {
    let mut frame = TWO_NODES_FRAME;
    if let Some(place) = frame.get_mut(at) {
        *place = byte;
    }
    frame
}

/// Whether a store that held nothing holds what a delivery of 37 bytes at 47 was answered with, and nothing else.
fn holds_just<K: BlobReader>(
    alloc: Global,
    store: &mut K,
    answer: Answer,
) -> Result<bool, StoreFault> {
    let extents = store.extents(alloc)?;
    match (answer, extents.as_slice()) {
        (Answer::Stored(n), [only]) => Ok(only.off == 47 && only.fin == 84 && only.n == n),
        (Answer::Bad(_), []) => Ok(true),
        _ => Ok(false),
    }
}

/// Of the 148 changed frames 17 say two nodes: three in which one of the zeros before the header's length stays, 13 with any
/// ids and places, and one whose table of texts comes in two pieces. 29 say no elements: 28 of another type, and one whose
/// raw data come in two pieces, of which the last counts.
fn changed_frames_of<K: NewStore, R: Abort + Alloc<A = Global>>(rt: &R) -> Result<(), Fail> {
    let alloc = rt.alloc();
    let mut store = K::new_store(alloc)?;
    let mut of_two = 0u32;
    let mut of_none = 0u32;
    for at in 0..37 {
        for byte in [0x00, 0x7F, 0x80, 0xFF] {
            let answer = deliver(alloc, &mut store, 47, &changed_frame(at, byte));
            assert!(rt; holds_just(alloc, &mut store, answer)?, "{byte} at {at}");
            match answer {
                Answer::Stored(2) => of_two = of_two.saturating_add(1),
                Answer::Stored(0) => of_none = of_none.saturating_add(1),
                _ => continue,
            }
            store = K::new_store(alloc)?;
        }
    }
    assert_eq!(rt; (of_two, of_none), (17, 29));
    Ok(())
}

#[test]
fn changed_frames(rt: HostRuntime) -> Result<(), Fail> {
    changed_frames_of::<BodiesInMemory, _>(&rt)?;
    changed_frames_of::<TablesInMemory, _>(&rt)?;
    changed_frames_of::<TreesInMemory, _>(&rt)
}

/// A store that holds the file, and behind it the way and the relation twice: 254 bytes.
fn four_blobs<K: NewStore>(alloc: Global) -> Result<K, Fail> {
    let [header, nodes] = *FILE else {
        return Err("no file of two frames".into());
    };
    let frames = [header, nodes, (84, TAGGED), (169, TAGGED)];
    let (_, store) = answers_to(alloc, &frames)?;
    Ok(store)
}

/// The questions, and the pieces of what is told of the four blobs.
const QUESTIONS: &[(Question, &[&[u8]])] = &[
    (
        Question::Extents,
        &[b"0 47\n", b"47 84\n", b"84 169\n", b"169 254\n"],
    ),
    (Question::Gaps, &[b"254 300\n"]),
    (Question::Load, &[TAGGED_LINES]),
    (
        Question::Find,
        &[
            b"84 1 r 9 (n1@outer,w-2@) [] {name=c}\n",
            b"169 1 r 9 (n1@outer,w-2@) [] {name=c}\n",
        ],
    ),
    (Question::History, &[b"false\n"]),
    (Question::Lines, &[LINES, TAGGED_LINES, TAGGED_LINES]),
    (Question::Pbf, &[WRITTEN_HEADER, NODES, TAGGED, TAGGED]),
];

/// Asks under limits of 1, 2, .. steps, until all is told. Each time before, one more call has failed, and what was told is
/// a front.
fn asked_under_limits<K: NewStore, R: Abort + Alloc<A = Global>>(
    rt: &R,
    store: &mut K,
    question: Question,
    pieces: &[&[u8]],
) -> Result<(), Fail> {
    let alloc = rt.alloc();
    let (_, whole) = answer_to(alloc, store, question);
    assert!(rt; are_joined(&whole, pieces), "{question:?}");
    for limit in 1..100 {
        let failures = store.failures();
        store.limit_steps(Some(limit));
        let (answer, text) = answer_to(alloc, store, question);
        store.limit_steps(None);
        if answer == Ok(()) {
            assert!(rt;
                limit > 1 && text.as_slice() == whole.as_slice(),
                "{question:?}"
            );
            return Ok(());
        }
        let interrupted = Err(ExportFault::Store(StoreFault::Interrupted));
        assert!(rt; answer == interrupted, "{question:?} {limit}");
        assert!(rt;
            store.failures() == failures.saturating_add(1),
            "{question:?} {limit}"
        );
        assert!(rt; whole.starts_with(&text), "{question:?} {limit}");
    }
    Err("100 steps aren't enough".into())
}

fn reads_under_limits_of<K: NewStore, R: Abort + Alloc<A = Global>>(rt: &R) -> Result<(), Fail> {
    let mut store: K = four_blobs(rt.alloc())?;
    for (question, pieces) in QUESTIONS {
        asked_under_limits(rt, &mut store, *question, *pieces)?;
    }
    Ok(())
}

/// A step is a row that a query visits, and each question visits two at least.
#[test]
fn reads_under_each_step_limit(rt: HostRuntime) -> Result<(), Fail> {
    reads_under_limits_of::<BodiesInMemory, _>(&rt)?;
    reads_under_limits_of::<TablesInMemory, _>(&rt)
}

/// What a frame is answered with that is delivered at 300 under limits of 1, 2, .. steps, until one is enough. An error
/// where a delivery that was broken off isn't counted, or has changed a row of any table.
fn delivered_under_limits<K: NewSqlStore>(alloc: Global, frame: &[u8]) -> Result<Answer, Fail> {
    let first: K = four_blobs(alloc)?;
    let (mut store, before) = first.with_rows(alloc).ok_or("no rows")?;
    for limit in 1..100 {
        store.limit_steps(Some(limit));
        let answer = deliver(alloc, &mut store, 300, frame);
        if answer != Answer::Fault(StoreFault::Interrupted) {
            return if limit > 1 {
                Ok(answer)
            } else {
                Err("one step is enough".into())
            };
        }
        if store.failures() != 1 {
            return Err("a failure isn't counted".into());
        }
        let (same, after) = store.with_rows(alloc).ok_or("no rows")?;
        if after != before {
            return Err("a row has changed".into());
        }
        store = same;
    }
    Err("100 steps aren't enough".into())
}

fn deliveries_under_limits_of<K: NewSqlStore, R: Abort + Alloc<A = Global>>(
    rt: &R,
) -> Result<(), Fail> {
    for (frame, count) in [(THREE_NODES, 3), (RELATION_FRAME, 1), (WAY_FRAME, 1)] {
        let answer = delivered_under_limits::<K>(rt.alloc(), frame)?;
        assert_eq!(rt; answer, Answer::Stored(count));
    }
    Ok(())
}

/// A blob is stored whole or not at all. Something has to be held, since a step is a row that a query visits.
#[test]
fn deliveries_under_each_step_limit(rt: HostRuntime) -> Result<(), Fail> {
    deliveries_under_limits_of::<BodiesInMemory, _>(&rt)?;
    deliveries_under_limits_of::<TablesInMemory, _>(&rt)
}
