//! Streams of frames.

use osm_import::{ImportFault, ImportStop, Inlet, Stop, Summary, Told, gaps, import_stream};
use osm_rows::Extent;
use osm_value::Outlet;
use osm_vectors::{FailingReader, FailingWriter};
use pbf_frame::FrameFault;
use std::alloc::Global;
use std::process::Abort;
use std::test::*;
use store_vectors::fixtures::{FILE_BYTES, HELD_HEADER, HELD_NODES};
use store_vectors::memory::{BodiesInMemory, NewStore, TablesInMemory, TreesInMemory};
use store_vectors::steps::{Step, import, over_all_stores};

/// Of an import of the whole file.
const BOTH_STORED: Summary = Summary {
    stored: 2,
    held: 0,
    bad: 0,
    refused: 0,
    next: 84,
};

/// Of an import of it where it is held.
const BOTH_HELD: Summary = Summary {
    stored: 0,
    held: 2,
    ..BOTH_STORED
};

/// Of an import of its second frame at 0.
const ONE_BAD: Summary = Summary {
    stored: 0,
    bad: 1,
    next: 37,
    ..BOTH_STORED
};

/// Stops at a frame.
const LIMIT_AT_0: ImportStop = ImportStop {
    fault: ImportFault::BlobLimit,
    at: 0,
};

const LIMIT_AT_47: ImportStop = ImportStop {
    fault: ImportFault::BlobLimit,
    at: 47,
};

const CUT_AT_47: ImportStop = ImportStop {
    fault: ImportFault::Stream(Stop::Frame(FrameFault::BlobCut)),
    at: 47,
};

const NO_HEADER: ImportStop = ImportStop {
    fault: ImportFault::Stream(Stop::NoHeaderFirst),
    at: 0,
};

#[test]
fn limits_of_blobs(rt: HostRuntime) -> Result<(), Fail> {
    const STEPS: &[Step] = &[
        Step::Import((0, 84), 0, Err(LIMIT_AT_0), b""),
        Step::NewStore,
        Step::Import((0, 84), 1, Err(LIMIT_AT_47), b"0 stored 0\n"),
        Step::Gaps(84, &[(47, 84)]),
        Step::NewStore,
        Step::Import((0, 84), 2, Ok(BOTH_STORED), b"0 stored 0\n47 stored 2\n"),
        Step::Gaps(84, &[]),
    ];
    over_all_stores(rt.alloc(), STEPS)
}

#[test]
fn the_same_file_again(rt: HostRuntime) -> Result<(), Fail> {
    const STEPS: &[Step] = &[
        Step::Import((0, 84), 9, Ok(BOTH_STORED), b"0 stored 0\n47 stored 2\n"),
        Step::Import((0, 84), 9, Ok(BOTH_HELD), b"0 held\n47 held\n"),
    ];
    over_all_stores(rt.alloc(), STEPS)
}

#[test]
fn streams_that_end_early(rt: HostRuntime) -> Result<(), Fail> {
    const STEPS: &[Step] = &[
        Step::Import((0, 83), 9, Err(CUT_AT_47), b"0 stored 0\n"),
        Step::NewStore,
        Step::Import((0, 0), 9, Err(NO_HEADER), b""),
        Step::NewStore,
        Step::Import((47, 84), 9, Ok(ONE_BAD), b"fault 61 NoHeaderFirst at 0\n"),
    ];
    over_all_stores(rt.alloc(), STEPS)
}

fn readers_that_fail_of<K: NewStore, R: Abort + Alloc<A = Global>>(rt: &R) -> Result<(), Fail> {
    let alloc = rt.alloc();
    for count in 0..85 {
        let (at, wanted) = match count {
            0..=46 => (0, b"".as_slice()),
            47..=83 => (47, b"0 stored 0\n".as_slice()),
            _ => (84, b"0 stored 0\n47 stored 2\n".as_slice()),
        };
        let mut store = K::new_store(alloc)?;
        let reader = FailingReader {
            inner: FILE_BYTES,
            left: count,
        };
        let (outcome, lines) = import(alloc, &mut store, reader, 9);
        let stop = ImportStop {
            fault: ImportFault::Stream(Stop::ReadFailed),
            at,
        };
        assert_eq!(rt; outcome, Err(stop), "after {count} bytes");
        assert!(rt; lines.as_slice() == wanted);
        let ranges = gaps(alloc, &mut store, 84)?;
        if at < 84 {
            assert!(rt; ranges.as_slice() == [(at, 84)].as_slice());
        } else {
            assert!(rt; ranges.is_empty());
        }
    }
    Ok(())
}

#[test]
fn readers_that_fail(rt: HostRuntime) -> Result<(), Fail> {
    readers_that_fail_of::<BodiesInMemory, _>(&rt)?;
    readers_that_fail_of::<TablesInMemory, _>(&rt)?;
    readers_that_fail_of::<TreesInMemory, _>(&rt)
}

/// What an import of the file comes to over a writer with room for so many bytes, and what is held then: a line of 11
/// bytes is written, then one of 12, and the blob whose line fails was stored before.
fn wanted_with_room(room: usize) -> (Result<Summary, ImportStop>, &'static [Extent]) {
    let fault = ImportFault::WriteFailed;
    match room {
        0..=10 => (Err(ImportStop { fault, at: 0 }), &[HELD_HEADER]),
        11..=22 => (
            Err(ImportStop { fault, at: 47 }),
            &[HELD_HEADER, HELD_NODES],
        ),
        _ => (Ok(BOTH_STORED), &[HELD_HEADER, HELD_NODES]),
    }
}

fn writers_that_fail_of<K: NewStore, R: Abort + Alloc<A = Global>>(rt: &R) -> Result<(), Fail> {
    let alloc = rt.alloc();
    for room in 0..24 {
        let mut store = K::new_store(alloc)?;
        let mut source = Inlet::new(FILE_BYTES);
        let inner = Vec::new(alloc);
        let mut out = Outlet::new(FailingWriter { inner, room });
        let outcome = import_stream(alloc, &mut store, &mut source, 0, 9, &Told::All, &mut out);
        let (wanted, held) = wanted_with_room(room);
        assert_eq!(rt; outcome, wanted, "with room for {room}");
        let lines = out.into_inner().inner;
        assert!(rt;
            lines.len() == room.min(23) && b"0 stored 0\n47 stored 2\n".starts_with(&lines)
        );
        assert!(rt;
            store.extents(alloc)?.as_slice() == held,
            "with room for {room}"
        );
    }
    Ok(())
}

#[test]
fn writers_that_fail(rt: HostRuntime) -> Result<(), Fail> {
    writers_that_fail_of::<BodiesInMemory, _>(&rt)?;
    writers_that_fail_of::<TablesInMemory, _>(&rt)?;
    writers_that_fail_of::<TreesInMemory, _>(&rt)
}
