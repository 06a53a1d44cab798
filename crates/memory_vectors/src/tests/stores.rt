//! The answers of stores in memory of both layouts, by values from outside.

use osm_rows::{BlobReader, Extent, StoreFault};
use osm_value::MemberKind;
use std::alloc::Global;
use std::process::Abort;
use std::test::*;
use store_vectors::fixtures::{
    LINES, NOTHING, PLACED_EXTRA, PLACED_HEADER, PLACED_NODES, PLACED_WAYS, THREE_WAYS,
    THREE_WAYS_LINES, TWO_NODES,
};
use store_vectors::memory::{BodiesInMemory, NewSqlStore, NewStore, TablesInMemory};
use store_vectors::steps::{
    PUT_EXTRA, PUT_HEADER, PUT_NODES, Step, over_all_stores, over_both_layouts, put_block,
};

/// The three ways elsewhere.
const PLACED_WAYS_AT_137: Extent = Extent {
    off: 137,
    fin: 174,
    ..PLACED_WAYS
};

const PUT_WAYS: Step = Step::Put(PLACED_WAYS, THREE_WAYS, Ok(()));

const PUT_WAYS_AT_137: Step = Step::Put(PLACED_WAYS_AT_137, THREE_WAYS, Ok(()));

#[test]
fn found_node(rt: HostRuntime) -> Result<(), Fail> {
    const STEPS: &[Step] = &[
        PUT_NODES,
        PUT_HEADER,
        Step::Finds(MemberKind::Node, 2, b"47 1 n 2 900 -100 [] {}\n"),
        Step::Finds(MemberKind::Way, 2, b""),
    ];
    over_all_stores(rt.alloc(), STEPS)
}

#[test]
fn found_in_two_blobs(rt: HostRuntime) -> Result<(), Fail> {
    const STEPS: &[Step] = &[
        PUT_NODES,
        PUT_HEADER,
        PUT_WAYS_AT_137,
        PUT_WAYS,
        Step::Finds(
            MemberKind::Way,
            1,
            b"100 2 w 1 () [] {}\n137 2 w 1 () [] {}\n",
        ),
    ];
    over_all_stores(rt.alloc(), STEPS)
}

#[test]
fn all_extents(rt: HostRuntime) -> Result<(), Fail> {
    const STEPS: &[Step] = &[
        PUT_NODES,
        PUT_HEADER,
        PUT_EXTRA,
        Step::Extents(&[PLACED_HEADER, PLACED_NODES, PLACED_EXTRA]),
    ];
    over_all_stores(rt.alloc(), STEPS)
}

#[test]
fn touching_one(rt: HostRuntime) -> Result<(), Fail> {
    const STEPS: &[Step] = &[
        Step::Touching(0, 47, &[]),
        PUT_NODES,
        Step::Touching(0, 47, &[]),
        Step::Touching(60, 61, &[PLACED_NODES]),
        Step::Touching(84, 121, &[]),
    ];
    over_all_stores(rt.alloc(), STEPS)
}

#[test]
fn touching_several(rt: HostRuntime) -> Result<(), Fail> {
    const STEPS: &[Step] = &[
        PUT_NODES,
        PUT_HEADER,
        PUT_EXTRA,
        PUT_WAYS_AT_137,
        Step::Touching(46, 47, &[PLACED_HEADER]),
        Step::Touching(83, 85, &[PLACED_NODES, PLACED_EXTRA]),
        Step::Touching(100, 137, &[]),
        Step::Touching(
            46,
            138,
            &[
                PLACED_HEADER,
                PLACED_NODES,
                PLACED_EXTRA,
                PLACED_WAYS_AT_137,
            ],
        ),
    ];
    over_all_stores(rt.alloc(), STEPS)
}

#[test]
fn loaded_elements(rt: HostRuntime) -> Result<(), Fail> {
    const STEPS: &[Step] = &[
        PUT_NODES,
        PUT_HEADER,
        PUT_EXTRA,
        PUT_WAYS,
        Step::Loads(100, THREE_WAYS_LINES),
        Step::Loads(47, LINES),
        Step::Loads(84, b""),
    ];
    over_all_stores(rt.alloc(), STEPS)
}

/// Rows that have the place of those of a blob refuse it, and nothing is changed.
#[test]
fn a_blob_that_is_held(rt: HostRuntime) -> Result<(), Fail> {
    const STEPS: &[Step] = &[
        PUT_NODES,
        Step::Put(PLACED_NODES, TWO_NODES, Err(StoreFault::Disk)),
        Step::Failures(1),
        Step::Loads(47, LINES),
        Step::Finds(MemberKind::Node, 2, b"47 1 n 2 900 -100 [] {}\n"),
    ];
    over_all_stores(rt.alloc(), STEPS)
}

/// A call that is refused, and one that is broken off, are counted.
#[test]
fn counted_failures(rt: HostRuntime) -> Result<(), Fail> {
    const STEPS: &[Step] = &[
        PUT_NODES,
        PUT_HEADER,
        PUT_EXTRA,
        Step::Failures(0),
        Step::Put(PLACED_NODES, TWO_NODES, Err(StoreFault::Disk)),
        Step::Failures(1),
        Step::LimitSteps(Some(1)),
        Step::NoExtents(StoreFault::Interrupted),
        Step::Failures(2),
        Step::LimitSteps(None),
        Step::Extents(&[PLACED_HEADER, PLACED_NODES, PLACED_EXTRA]),
        Step::Failures(2),
    ];
    over_both_layouts(rt.alloc(), STEPS)
}

/// A store with the blob of a header, that of two nodes and one of another type.
fn three_blobs<K: NewStore>(alloc: Global) -> Result<K, StoreFault> {
    let mut store = K::new_store(alloc)?;
    put_block(alloc, &mut store, &PLACED_NODES, TWO_NODES)?;
    put_block(alloc, &mut store, &PLACED_HEADER, NOTHING)?;
    put_block(alloc, &mut store, &PLACED_EXTRA, NOTHING)?;
    Ok(store)
}

/// Looks whether the place of the ways is free and puts them there, under a limit on the steps of each statement.
fn put_limited<K: NewStore>(alloc: Global, store: &mut K, limit: u64) -> Result<(), StoreFault> {
    store.limit_steps(Some(limit));
    store.extents_touching(alloc, 100, 137)?;
    put_block(alloc, store, &PLACED_WAYS, THREE_WAYS)
}

/// How many limits on steps refuse the blob before one lets it in; None where a refusal changes a row.
fn refused_limits<K: NewSqlStore>(alloc: Global) -> Option<u64> {
    let first: K = three_blobs(alloc).ok()?;
    let (mut store, before) = first.with_rows(alloc)?;
    for limit in 1u64..1000 {
        match put_limited(alloc, &mut store, limit) {
            Ok(()) => return Some(limit - 1),
            Err(StoreFault::Interrupted) => {}
            Err(_) => return None,
        }
        let (same, after) = store.with_rows(alloc)?;
        if after != before {
            return None;
        }
        store = same;
    }
    None
}

/// The blob is put whole or not at all.
fn step_limits_of<K: NewSqlStore, R: Abort + Alloc<A = Global>>(rt: &R) -> Result<(), Fail> {
    let refused = refused_limits::<K>(rt.alloc()).ok_or("whole or not at all")?;
    assert!(rt; refused > 0);
    Ok(())
}

#[test]
fn step_limits(rt: HostRuntime) -> Result<(), Fail> {
    step_limits_of::<BodiesInMemory, _>(&rt)?;
    step_limits_of::<TablesInMemory, _>(&rt)
}
