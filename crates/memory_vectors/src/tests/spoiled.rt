//! Rows that are those of no map, made by statements over a store's connection, and the reads that meet them.

use osm_import::{CopyFault, CopyStop, ExportFault, copy_held};
use osm_rows::StoreFault;
use osm_value::{Form, MemberKind};
use std::alloc::Global;
use std::process::Abort;
use std::test::*;
use store_vectors::deliveries::exported;
use store_vectors::fixtures::{
    LINES, NODES, PLACED_HEADER, PLACED_NODES, PLACED_WAYS, RELATION_AT_137, THREE_WAYS_LINES, WAY,
    WAY_AT_203, WRITTEN_HEADER,
};
use store_vectors::memory::{BodiesInMemory, NewSqlStore, NewStore, TablesInMemory};
use store_vectors::steps::{FIVE_BLOBS, Step, are_joined, followed};

/// A statement that spoils the rows of the five blobs, and a read of them with its answer before.
type Spoiled = (&'static str, Step);

const RELATION_LINE: &[u8] = b"r 9 (n1@outer,w-2@) [] {name=a%20b%2Cc}\n";

const WAY_LINE: &[u8] = b"w 7 (5,6,7,6) [] {a=b}\n";

const ALL_EXTENTS: Step = Step::Extents(&[
    PLACED_HEADER,
    PLACED_NODES,
    PLACED_WAYS,
    RELATION_AT_137,
    WAY_AT_203,
]);

const LOAD_NODES: Step = Step::Loads(47, LINES);

const LOAD_WAYS: Step = Step::Loads(100, THREE_WAYS_LINES);

const LOAD_RELATION: Step = Step::Loads(137, RELATION_LINE);

const LOAD_WAY: Step = Step::Loads(203, WAY_LINE);

const FIND_NODE: Step = Step::Finds(MemberKind::Node, 1, b"47 0 n 1 1000 -100 [] {}\n");

const FIND_RELATION: Step = Step::Finds(
    MemberKind::Relation,
    9,
    b"137 0 r 9 (n1@outer,w-2@) [] {name=a%20b%2Cc}\n",
);

const FIND_WAYS: Step = Step::Finds(
    MemberKind::Way,
    7,
    b"100 0 w 7 () [] {}\n203 0 w 7 (5,6,7,6) [] {a=b}\n",
);

/// Expects that each read is answered as it has to be, and by fault 66 once the rows are spoiled.
fn expect_refusals<K: NewSqlStore, R: Abort + Alloc<A = Global>>(
    rt: &R,
    layout: &str,
    table: &[Spoiled],
) -> Result<(), Fail> {
    for (sql, read) in table {
        let mut store: K = followed(rt.alloc(), layout, FIVE_BLOBS)?;
        let before = read.is_met(rt.alloc(), &mut store);
        assert_eq!(rt; before, Ok(true), "before {sql} over {layout}");
        let mut store = store.changed(sql).ok_or("a store")?;
        let after = read.is_met(rt.alloc(), &mut store);
        assert_eq!(rt;
            after,
            Err(StoreFault::NotThisStore(None)),
            "{sql} over {layout}"
        );
    }
    Ok(())
}

fn expect_refusals_of_both<R: Abort + Alloc<A = Global>>(
    rt: &R,
    table: &[Spoiled],
) -> Result<(), Fail> {
    expect_refusals::<BodiesInMemory, _>(rt, "bodies", table)?;
    expect_refusals::<TablesInMemory, _>(rt, "tables", table)
}

#[test]
fn extents_out_of_range(rt: HostRuntime) -> Result<(), Fail> {
    const TABLE: &[Spoiled] = &[
        ("UPDATE blob SET fin = 47 WHERE off = 47", ALL_EXTENTS),
        (
            "UPDATE blob SET fin = 4611686018427387905 WHERE off = 203",
            ALL_EXTENTS,
        ),
        (
            "UPDATE blob SET digest = x'01010101010101010101010101010101010101010101010101010101010101' WHERE off = 47",
            ALL_EXTENTS,
        ),
        ("UPDATE blob SET kind = 9 WHERE off = 47", ALL_EXTENTS),
        ("UPDATE blob SET n = -1 WHERE off = 47", ALL_EXTENTS),
        (
            "INSERT INTO blob (off, fin, digest, kind, n) VALUES (-5, 0, x'0101010101010101010101010101010101010101010101010101010101010101', 0, 0)",
            ALL_EXTENTS,
        ),
    ];
    expect_refusals_of_both(&rt, TABLE)
}

/// The blob at 47 reaches into the one at 100.
#[test]
fn extents_that_meet(rt: HostRuntime) -> Result<(), Fail> {
    const TABLE: &[Spoiled] = &[
        ("UPDATE blob SET fin = 101 WHERE off = 47", ALL_EXTENTS),
        (
            "UPDATE blob SET fin = 101 WHERE off = 47",
            Step::Touching(60, 110, &[PLACED_NODES, PLACED_WAYS]),
        ),
        (
            "UPDATE blob SET fin = 101 WHERE off = 47",
            Step::Gaps(252, &[(84, 100)]),
        ),
    ];
    expect_refusals_of_both(&rt, TABLE)
}

/// The first element is gone, one between others, or one stands elsewhere.
#[test]
fn positions(rt: HostRuntime) -> Result<(), Fail> {
    const BODIES: &[Spoiled] = &[
        ("DELETE FROM body WHERE off = 47 AND pos = 0", LOAD_NODES),
        ("DELETE FROM body WHERE off = 100 AND pos = 1", LOAD_WAYS),
        (
            "UPDATE body SET pos = 7 WHERE off = 100 AND pos = 2",
            LOAD_WAYS,
        ),
        (
            "UPDATE body SET pos = -1 WHERE off = 100 AND pos = 0",
            LOAD_WAYS,
        ),
    ];
    const TABLES: &[Spoiled] = &[
        ("DELETE FROM element WHERE off = 47 AND pos = 0", LOAD_NODES),
        ("DELETE FROM element WHERE off = 100 AND pos = 1", LOAD_WAYS),
        (
            "UPDATE element SET pos = 7 WHERE off = 100 AND pos = 2",
            LOAD_WAYS,
        ),
        (
            "UPDATE element SET pos = -1 WHERE off = 100 AND pos = 0",
            LOAD_WAYS,
        ),
    ];
    expect_refusals::<BodiesInMemory, _>(&rt, "bodies", BODIES)?;
    expect_refusals::<TablesInMemory, _>(&rt, "tables", TABLES)
}

/// A block beside another kind or id than its element's, one of two elements, and bytes that are no block.
#[test]
fn blocks(rt: HostRuntime) -> Result<(), Fail> {
    const TABLE: &[Spoiled] = &[
        (
            "UPDATE body SET id = 5 WHERE off = 47 AND pos = 0",
            LOAD_NODES,
        ),
        (
            "UPDATE body SET id = 5 WHERE off = 47 AND pos = 0",
            Step::Finds(MemberKind::Node, 5, b""),
        ),
        (
            "UPDATE body SET kind = 1 WHERE off = 47 AND pos = 0",
            LOAD_NODES,
        ),
        (
            "UPDATE body SET kind = 1 WHERE off = 47 AND pos = 0",
            Step::Finds(MemberKind::Way, 1, b"100 2 w 1 () [] {}\n"),
        ),
        (
            "UPDATE body SET kind = 9 WHERE off = 47 AND pos = 0",
            LOAD_NODES,
        ),
        (
            "UPDATE body SET data = x'0A020A00120B12090A01044201124A0101' WHERE off = 47 AND pos = 0",
            LOAD_NODES,
        ),
        (
            "UPDATE body SET data = x'0A020A00120B12090A01044201124A0101' WHERE off = 47 AND pos = 0",
            FIND_NODE,
        ),
        (
            "UPDATE body SET data = x'0A020A00120E120C0A020202420214014A020100' WHERE off = 47 AND pos = 0",
            LOAD_NODES,
        ),
        (
            "UPDATE body SET data = x'FF' WHERE off = 47 AND pos = 0",
            LOAD_NODES,
        ),
        (
            "UPDATE body SET data = x'FF' WHERE off = 47 AND pos = 0",
            FIND_NODE,
        ),
    ];
    expect_refusals::<BodiesInMemory, _>(&rt, "bodies", TABLE)
}

/// The numbers of an element's tags and links, and tags and links of no element.
#[test]
fn parts(rt: HostRuntime) -> Result<(), Fail> {
    const TABLE: &[Spoiled] = &[
        ("DELETE FROM link WHERE off = 203 AND k = 1", LOAD_WAY),
        ("DELETE FROM link WHERE off = 203 AND k = 1", FIND_WAYS),
        ("DELETE FROM link WHERE off = 203 AND k = 0", LOAD_WAY),
        ("DELETE FROM link WHERE off = 203 AND k = 0", FIND_WAYS),
        (
            "UPDATE link SET k = 5 WHERE off = 137 AND k = 1",
            LOAD_RELATION,
        ),
        (
            "UPDATE link SET k = 5 WHERE off = 137 AND k = 1",
            FIND_RELATION,
        ),
        ("UPDATE tag SET k = 1 WHERE off = 137", LOAD_RELATION),
        ("UPDATE tag SET k = 1 WHERE off = 137", FIND_RELATION),
        ("UPDATE tag SET k = -1 WHERE off = 203", LOAD_WAY),
        (
            "INSERT INTO tag (off, pos, k, key, val) VALUES (47, 2, 0, 'a', 'b')",
            LOAD_NODES,
        ),
        (
            "INSERT INTO link (off, pos, k, kind, ref, role) VALUES (100, 3, 0, 0, 1, '')",
            LOAD_WAYS,
        ),
        (
            "INSERT INTO link (off, pos, k, kind, ref, role) VALUES (47, 0, 0, 0, 1, '')",
            LOAD_NODES,
        ),
        (
            "INSERT INTO link (off, pos, k, kind, ref, role) VALUES (47, 0, 0, 0, 1, '')",
            FIND_NODE,
        ),
    ];
    expect_refusals::<TablesInMemory, _>(&rt, "tables", TABLE)
}

/// Numbers, texts and NULLs that no element has.
#[test]
fn values(rt: HostRuntime) -> Result<(), Fail> {
    const TABLE: &[Spoiled] = &[
        (
            "UPDATE element SET lat = 4611686018427387904 WHERE off = 47 AND pos = 0",
            LOAD_NODES,
        ),
        (
            "UPDATE element SET lon = NULL WHERE off = 47 AND pos = 0",
            FIND_NODE,
        ),
        (
            "UPDATE element SET lat = 0 WHERE off = 100 AND pos = 1",
            LOAD_WAYS,
        ),
        (
            "UPDATE element SET kind = 3 WHERE off = 47 AND pos = 0",
            LOAD_NODES,
        ),
        (
            "UPDATE element SET kind = 2 WHERE off = 47 AND pos = 0",
            LOAD_NODES,
        ),
        (
            "UPDATE element SET id = -4611686018427387904 WHERE off = 47 AND pos = 0",
            LOAD_NODES,
        ),
        (
            "UPDATE element SET version = -1 WHERE off = 47 AND pos = 0",
            LOAD_NODES,
        ),
        (
            "UPDATE element SET uid = 2147483648 WHERE off = 47 AND pos = 0",
            FIND_NODE,
        ),
        (
            "UPDATE element SET visible = 2 WHERE off = 47 AND pos = 0",
            LOAD_NODES,
        ),
        (
            "UPDATE element SET visible = -1 WHERE off = 47 AND pos = 0",
            FIND_NODE,
        ),
        (
            "UPDATE link SET kind = 3 WHERE off = 137 AND k = 0",
            LOAD_RELATION,
        ),
        (
            "UPDATE link SET kind = 1 WHERE off = 203 AND k = 0",
            LOAD_WAY,
        ),
        (
            "UPDATE link SET role = 'x' WHERE off = 203 AND k = 0",
            FIND_WAYS,
        ),
        (
            "UPDATE tag SET val = CAST(x'FF' AS TEXT) WHERE off = 203",
            LOAD_WAY,
        ),
        (
            "UPDATE tag SET key = CAST(x'00' AS TEXT) WHERE off = 203",
            FIND_WAYS,
        ),
        (
            "UPDATE element SET user = CAST(x'C328' AS TEXT) WHERE off = 47 AND pos = 0",
            LOAD_NODES,
        ),
    ];
    expect_refusals::<TablesInMemory, _>(&rt, "tables", TABLE)
}

/// What the store that a copy goes into holds before.
const HELD_BEFORE: &[Step] = &[Step::Put(WAY_AT_203, WAY, Ok(()))];

/// What it holds after one that has stopped at the three ways.
const COPIED: &[Step] = &[
    Step::Extents(&[PLACED_HEADER, PLACED_NODES, WAY_AT_203]),
    LOAD_NODES,
    LOAD_WAY,
];

const ALL_LINES: Step = Step::PartialLines(&[LINES, THREE_WAYS_LINES, RELATION_LINE, WAY_LINE]);

/// How an export and a copy stop at rows that are those of no blob.
const FOREIGN: (ExportFault, CopyFault) = (
    ExportFault::Store(StoreFault::NotThisStore(None)),
    CopyFault::Store(StoreFault::NotThisStore(None)),
);

/// How they stop where there are other than three ways.
const MISCOUNTED: (ExportFault, CopyFault) = (ExportFault::Miscounted(100), CopyFault::Spoiled);

/// Expects that exports of whatever is held write the pieces before they stop.
fn expect_front<K: NewStore, R: Abort + Alloc<A = Global>>(
    rt: &R,
    store: &mut K,
    form: Form,
    fault: ExportFault,
    pieces: &[&[u8]],
    sql: &str,
) {
    let (result, bytes) = exported(rt.alloc(), store, form, None, true);
    assert_eq!(rt; result, Err(fault), "{sql}");
    assert!(rt; are_joined(&bytes, pieces), "{sql}");
}

/// Expects that exports and a copy stop at the three ways with these faults, once their rows are spoiled, and that the copy
/// leaves what the other store held. An export as PBF has written these pieces.
fn expect_stops<K: NewSqlStore, R: Abort + Alloc<A = Global>>(
    rt: &R,
    layout: &str,
    statements: &[&str],
    faults: (ExportFault, CopyFault),
    pbf: &[&[u8]],
) -> Result<(), Fail> {
    for sql in statements {
        let store: K = followed(rt.alloc(), layout, FIVE_BLOBS)?;
        let mut store = store.changed(sql).ok_or("a store")?;
        expect_front(rt, &mut store, Form::Lines, faults.0, &[LINES], sql);
        expect_front(rt, &mut store, Form::Pbf, faults.0, pbf, sql);
        let mut other: K = followed(rt.alloc(), layout, HELD_BEFORE)?;
        let stop = CopyStop {
            fault: faults.1,
            off: 100,
        };
        assert_eq!(rt;
            copy_held(rt.alloc(), &mut store, &mut other),
            Err(stop),
            "{sql}"
        );
        for step in COPIED {
            let copied = step.is_met(rt.alloc(), &mut other);
            assert_eq!(rt; copied, Ok(true), "{sql}");
        }
    }
    Ok(())
}

/// Over the rows as they were put an export writes all lines.
fn expect_whole<K: NewStore, R: Abort + Alloc<A = Global>>(
    rt: &R,
    layout: &str,
) -> Result<(), Fail> {
    let mut store: K = followed(rt.alloc(), layout, FIVE_BLOBS)?;
    let whole = ALL_LINES.is_met(rt.alloc(), &mut store);
    assert_eq!(rt; whole, Ok(true), "{layout}");
    Ok(())
}

/// What comes before the blob whose rows are spoiled is exported and copied, and nothing behind it. For its header an export
/// as PBF looks for a flag, in the layout of bodies in each block, so there it stops before the first byte.
#[test]
fn exports_and_copies(rt: HostRuntime) -> Result<(), Fail> {
    const BODIES: &[&str] = &[
        "DELETE FROM body WHERE off = 100 AND pos = 1",
        "UPDATE body SET data = x'FF' WHERE off = 100 AND pos = 2",
    ];
    const TABLES: &[&str] = &["DELETE FROM element WHERE off = 100 AND pos = 1"];
    expect_whole::<BodiesInMemory, _>(&rt, "bodies")?;
    expect_whole::<TablesInMemory, _>(&rt, "tables")?;
    expect_stops::<BodiesInMemory, _>(&rt, "bodies", BODIES, FOREIGN, &[])?;
    expect_stops::<TablesInMemory, _>(&rt, "tables", TABLES, FOREIGN, &[WRITTEN_HEADER, NODES])
}

/// So it is where the row of the blob counts more or fewer elements than there are, or a row is of no element: a way with a
/// latitude.
#[test]
fn exports_and_copies_of_other_counts(rt: HostRuntime) -> Result<(), Fail> {
    const BODIES: &[&str] = &[
        "DELETE FROM body WHERE off = 100 AND pos = 2",
        "UPDATE blob SET n = 4 WHERE off = 100",
    ];
    const TABLES: &[&str] = &[
        "DELETE FROM element WHERE off = 100 AND pos = 2",
        "DELETE FROM element WHERE off = 100",
        "INSERT INTO element (off, pos, kind, id) VALUES (100, 3, 1, 2)",
        "UPDATE blob SET n = 2 WHERE off = 100",
        "UPDATE element SET lat = 0 WHERE off = 100 AND pos = 2",
    ];
    const PBF: &[&[u8]] = &[WRITTEN_HEADER, NODES];
    expect_stops::<BodiesInMemory, _>(&rt, "bodies", BODIES, MISCOUNTED, PBF)?;
    expect_stops::<TablesInMemory, _>(&rt, "tables", TABLES, MISCOUNTED, PBF)
}
