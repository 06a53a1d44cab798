//! Two stores in memory, of which one at a time is open, read as one.

use osm_import::{Conflict, ExportFault};
use osm_parts::{
    Openings, Part, PartsFault, Shelf, export_parts_as_lines, export_parts_as_pbf,
    extents_of_parts, gaps_of_parts, read_parts,
};
use osm_rows::{BlobReader, Extent, StoreFault};
use osm_value::Outlet;
use osm_vectors::FailingWriter;
use std::alloc::Global;
use std::process::Abort;
use std::test::*;
use store_vectors::deliveries::answers_to;
use store_vectors::fixtures::{
    EXTRA, EXTRA_AT_84, FILE, Frame, HEADER_AT_0, HELD_EXTRA, HELD_HEADER, HELD_NODES,
    HELD_NODES_AT_100, HELD_TAGGED, LINES, NODES, NODES_AT_47, NODES_AT_100, TAGGED_AT_84,
    TAGGED_LINES, WRITTEN_HEADER,
};
use store_vectors::memory::{BodiesInMemory, NewStore, TablesInMemory};
use store_vectors::steps::are_joined;

/// The nodes over the last byte of the file.
const NODES_AT_83: Frame = (83, NODES);

/// The nodes behind a gap.
const NODES_AT_200: Frame = (200, NODES);

/// Another frame where the nodes are.
const EXTRA_AT_47: Frame = (47, EXTRA);

/// Two new stores, to each of which these frames were delivered.
fn two_stores<K: NewStore>(alloc: Global, lists: [&[Frame<'_>]; 2]) -> Result<Shelf<K>, Fail> {
    let mut stores = Shelf::new(alloc);
    for frames in &lists {
        let (_, store) = answers_to::<K>(alloc, frames)?;
        stores.push(store)?;
    }
    Ok(stores)
}

/// What an export of the parts as lines answers, and what it has written.
fn lines_of<K: BlobReader + Drop>(
    alloc: Global,
    stores: &mut Shelf<K>,
    parts: &[Part],
    size: Option<u64>,
    partial: bool,
) -> (Result<(), ExportFault>, Vec<u8>) {
    let mut out = Outlet::new(Vec::new(alloc));
    let result = export_parts_as_lines(alloc, stores, parts, size, partial, &mut out);
    (result, out.into_inner())
}

/// What is delivered to each of two stores, and what is read of both.
struct Turn {
    lists: [&'static [Frame<'static>]; 2],
    extents: &'static [Extent],
    gaps: &'static [(u64, u64)],
    lines: &'static [&'static [u8]],
}

fn expect_turn<K: NewStore, R: Abort + Alloc<A = Global>>(rt: &R, turn: &Turn) -> Result<(), Fail> {
    let alloc = rt.alloc();
    let mut stores = two_stores::<K>(alloc, turn.lists)?;
    for _ in 0..2 {
        let parts = read_parts(alloc, &mut stores, 2, false)?;
        assert!(rt; extents_of_parts(alloc, &parts)?.as_slice() == turn.extents);
        assert!(rt; gaps_of_parts(alloc, &parts, 200)?.as_slice() == turn.gaps);
        let (result, lines) = lines_of(alloc, &mut stores, &parts, None, true);
        assert!(rt; result == Ok(()));
        assert!(rt; are_joined(&lines, turn.lines));
    }
    Ok(())
}

/// A file in two stores, in both orders; stores of which one holds nothing, or begins behind a gap; stores whose blobs come
/// in turn, twice as many times as there are stores at most; and stores that hold the same blob. What is read of them is
/// what is read of one store that holds each blob once.
const TURNS: [Turn; 10] = [
    Turn {
        lists: [&[HEADER_AT_0], &[NODES_AT_47]],
        extents: &[HELD_HEADER, HELD_NODES],
        gaps: &[(84, 200)],
        lines: &[LINES],
    },
    Turn {
        lists: [&[NODES_AT_47, TAGGED_AT_84], &[HEADER_AT_0]],
        extents: &[HELD_HEADER, HELD_NODES, HELD_TAGGED],
        gaps: &[(169, 200)],
        lines: &[LINES, TAGGED_LINES],
    },
    Turn {
        lists: [&[], FILE],
        extents: &[HELD_HEADER, HELD_NODES],
        gaps: &[(84, 200)],
        lines: &[LINES],
    },
    Turn {
        lists: [&[NODES_AT_100, EXTRA_AT_84], &[HEADER_AT_0]],
        extents: &[HELD_HEADER, HELD_EXTRA, HELD_NODES_AT_100],
        gaps: &[(47, 84), (137, 200)],
        lines: &[LINES],
    },
    Turn {
        lists: [&[HEADER_AT_0, EXTRA_AT_84], &[NODES_AT_47]],
        extents: &[HELD_HEADER, HELD_NODES, HELD_EXTRA],
        gaps: &[(100, 200)],
        lines: &[LINES],
    },
    Turn {
        lists: [&[NODES_AT_47], &[HEADER_AT_0, TAGGED_AT_84]],
        extents: &[HELD_HEADER, HELD_NODES, HELD_TAGGED],
        gaps: &[(169, 200)],
        lines: &[LINES, TAGGED_LINES],
    },
    Turn {
        lists: [&[HEADER_AT_0, EXTRA_AT_84], &[NODES_AT_47, NODES_AT_100]],
        extents: &[HELD_HEADER, HELD_NODES, HELD_EXTRA, HELD_NODES_AT_100],
        gaps: &[(137, 200)],
        lines: &[LINES, LINES],
    },
    Turn {
        lists: [&[HEADER_AT_0], FILE],
        extents: &[HELD_HEADER, HELD_NODES],
        gaps: &[(84, 200)],
        lines: &[LINES],
    },
    Turn {
        lists: [FILE, &[NODES_AT_47, TAGGED_AT_84]],
        extents: &[HELD_HEADER, HELD_NODES, HELD_TAGGED],
        gaps: &[(169, 200)],
        lines: &[LINES, TAGGED_LINES],
    },
    Turn {
        lists: [FILE, FILE],
        extents: &[HELD_HEADER, HELD_NODES],
        gaps: &[(84, 200)],
        lines: &[LINES],
    },
];

#[test]
fn files_in_parts(rt: HostRuntime) -> Result<(), Fail> {
    for turn in &TURNS {
        expect_turn::<BodiesInMemory, _>(&rt, turn)?;
        expect_turn::<TablesInMemory, _>(&rt, turn)?;
    }
    Ok(())
}

/// Two stores that aren't read as one, although each alone is.
fn expect_refused<K: NewStore, R: Abort + Alloc<A = Global>>(
    rt: &R,
    lists: [&[Frame<'_>]; 2],
    fault: PartsFault,
) -> Result<(), Fail> {
    let alloc = rt.alloc();
    let mut stores = two_stores::<K>(alloc, lists)?;
    let found = read_parts(alloc, &mut stores, 2, false);
    assert!(rt; matches!(found, Err(answer) if answer == fault), "{fault}");
    assert!(rt;
        read_parts(alloc, &mut stores, 1, false)?.len() == 1,
        "{fault}"
    );
    Ok(())
}

/// Another frame at one offset, in both orders; a frame that begins inside another, in both orders; and five runs of two
/// stores, of which the third comes back to the first store, in both orders.
const REFUSED: [([&[Frame]; 2], PartsFault); 7] = [
    (
        [FILE, &[EXTRA_AT_47]],
        PartsFault::Refused(Conflict::Differs, 47),
    ),
    (
        [&[EXTRA_AT_47], FILE],
        PartsFault::Refused(Conflict::Differs, 47),
    ),
    (
        [&[NODES_AT_47], &[NODES_AT_83]],
        PartsFault::Refused(Conflict::Overlap, 83),
    ),
    (
        [&[NODES_AT_83], FILE],
        PartsFault::Refused(Conflict::Overlap, 83),
    ),
    (
        [&[EXTRA_AT_84], &[NODES_AT_83]],
        PartsFault::Refused(Conflict::Overlap, 84),
    ),
    (
        [
            &[HEADER_AT_0, EXTRA_AT_84, NODES_AT_200],
            &[NODES_AT_47, NODES_AT_100],
        ],
        PartsFault::Interleaved(47),
    ),
    (
        [
            &[NODES_AT_47, NODES_AT_100],
            &[HEADER_AT_0, EXTRA_AT_84, NODES_AT_200],
        ],
        PartsFault::Interleaved(47),
    ),
];

#[test]
fn stores_that_are_not_one(rt: HostRuntime) -> Result<(), Fail> {
    for (lists, fault) in REFUSED {
        expect_refused::<BodiesInMemory, _>(&rt, lists, fault)?;
        expect_refused::<TablesInMemory, _>(&rt, lists, fault)?;
    }
    Ok(())
}

/// A refused export writes nothing, and each store goes on.
fn refusals_of<K: NewStore, R: Abort + Alloc<A = Global>>(rt: &R) -> Result<(), Fail> {
    let alloc = rt.alloc();
    let mut stores = two_stores::<K>(alloc, [&[NODES_AT_100], FILE])?;
    let parts = read_parts(alloc, &mut stores, 2, false)?;
    let refusals = [
        (None, ExportFault::Incomplete(84, 100)),
        (Some(200), ExportFault::Incomplete(84, 100)),
        (Some(84), ExportFault::PastEnd(137)),
    ];
    for (size, fault) in refusals {
        let (result, lines) = lines_of(alloc, &mut stores, &parts, size, false);
        assert!(rt; result == Err(fault));
        assert!(rt; lines.is_empty());
    }
    let (result, lines) = lines_of(alloc, &mut stores, &parts, None, true);
    assert!(rt; result == Ok(()));
    assert!(rt; are_joined(&lines, &[LINES, LINES]));
    Ok(())
}

#[test]
fn refusals_of_parts(rt: HostRuntime) -> Result<(), Fail> {
    refusals_of::<BodiesInMemory, _>(&rt)?;
    refusals_of::<TablesInMemory, _>(&rt)
}

/// Two stores as a PBF file: the header that an export writes, and the nodes as they came.
fn expect_pbf<K: NewStore, R: Abort + Alloc<A = Global>>(
    rt: &R,
    lists: [&[Frame<'_>]; 2],
    size: u64,
) -> Result<(), Fail> {
    let alloc = rt.alloc();
    let mut stores = two_stores::<K>(alloc, lists)?;
    let parts = read_parts(alloc, &mut stores, 2, true)?;
    let mut out = Outlet::new(Vec::new(alloc));
    let result = export_parts_as_pbf(alloc, &mut stores, &parts, Some(size), false, &mut out);
    assert!(rt; result == Ok(()));
    assert!(rt; are_joined(&out.into_inner(), &[WRITTEN_HEADER, NODES]));
    Ok(())
}

/// The file in two stores, a frame without elements behind it in the store of the header, and the file in both stores.
const PBF_PARTS: [([&[Frame]; 2], u64); 3] = [
    ([&[NODES_AT_47], &[HEADER_AT_0]], 84),
    ([&[HEADER_AT_0, EXTRA_AT_84], &[NODES_AT_47]], 100),
    ([FILE, FILE], 84),
];

#[test]
fn pbf_of_parts(rt: HostRuntime) -> Result<(), Fail> {
    for (lists, size) in PBF_PARTS {
        expect_pbf::<BodiesInMemory, _>(&rt, lists, size)?;
        expect_pbf::<TablesInMemory, _>(&rt, lists, size)?;
    }
    Ok(())
}

/// After each failure no store is open, and the lines before it were written.
fn failures_of<K: NewStore, R: Abort + Alloc<A = Global>>(rt: &R) -> Result<(), Fail> {
    let alloc = rt.alloc();
    let mut stores = two_stores::<K>(alloc, [&[NODES_AT_47], &[HEADER_AT_0]])?;
    let found = read_parts(alloc, &mut stores, 3, false);
    assert!(rt; matches!(found, Err(PartsFault::Store(StoreFault::Disk))));
    let parts = read_parts(alloc, &mut stores, 2, false)?;
    for room in 0..LINES.len() {
        let inner = Vec::new(alloc);
        let mut out = Outlet::new(FailingWriter { inner, room });
        let result = export_parts_as_lines(alloc, &mut stores, &parts, None, false, &mut out);
        assert!(rt; result == Err(ExportFault::WriteFailed));
        let taken = out.into_inner().inner;
        assert!(rt; taken.len() == room && LINES.starts_with(&taken));
    }
    // a store that isn't there any more
    let second = stores.open(1)?;
    let (result, lines) = lines_of(alloc, &mut stores, &parts, None, false);
    assert!(rt; result == Err(ExportFault::Store(StoreFault::Disk)));
    assert!(rt; lines.is_empty());
    stores.close(second);
    let (result, lines) = lines_of(alloc, &mut stores, &parts, None, false);
    assert!(rt; result == Ok(()));
    assert!(rt; lines.as_slice() == LINES);
    Ok(())
}

#[test]
fn failures(rt: HostRuntime) -> Result<(), Fail> {
    failures_of::<BodiesInMemory, _>(&rt)?;
    failures_of::<TablesInMemory, _>(&rt)
}

#[test]
fn faults_of_parts(rt: HostRuntime) {
    let faults = [
        (PartsFault::Interleaved(47), 71, "Interleaved"),
        (PartsFault::Refused(Conflict::Differs, 47), 63, "Differs"),
        (PartsFault::Refused(Conflict::Overlap, 47), 64, "Overlap"),
        (PartsFault::Store(StoreFault::Memory), 65, "Memory"),
        (
            PartsFault::Store(StoreFault::NotThisStore(None)),
            66,
            "NotThisStore",
        ),
    ];
    for (fault, number, name) in faults {
        assert!(rt; fault.number() == number);
        assert!(rt; fault.name() == name);
    }
}
