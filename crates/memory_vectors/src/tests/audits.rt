//! Whether a store has the rows of blobs and no others, over rows as they were put and over rows that statements over its
//! connection have changed, by SQL and by its trees; which row belongs to no blob; and whether the indexes of trees are whole.

use osm_block::read_block;
use osm_rows::trees::{ELEMENT_BY_ID, ELEMENT_KEY, LINK_KEY, TAG_KEY};
use osm_rows::{Audited, Counts, Extent, StoreFault};
use osm_sql_store::TableStore;
use osm_tree_audits::{
    ElementTable, Look, Looked, StoreIndex, Stray, TableLook, look_at_indexes, stray_row,
};
use osm_trees::{CheckedStore, TreeStore};
use osm_value::Element;
use sqlite::{Alter, MemStore};
use sqlite_trees::store::Store;
use std::alloc::Global;
use std::process::Abort;
use std::test::*;
use store_vectors::damage::{add_entry, take_entry, write_element};
use store_vectors::fixtures::{
    NOTHING, PLACED_HEADER, PLACED_NODES, PLACED_WAYS, RELATION, RELATION_AT_137, THREE_WAYS,
    TWO_NODES, WAY, WAY_AT_203,
};
use store_vectors::memory::{BodiesInMemory, NewSqlStore, TablesInMemory};
use store_vectors::steps::{FIVE_BLOBS, PUT_HEADER, PUT_NODES, Step, followed};

/// The five blobs, the last of which is put first: the rows of no table stand in the order of its primary key.
const LAST_FIRST: &[Step] = &[
    Step::Put(WAY_AT_203, WAY, Ok(())),
    PUT_HEADER,
    PUT_NODES,
    Step::Put(PLACED_WAYS, THREE_WAYS, Ok(())),
    Step::Put(RELATION_AT_137, RELATION, Ok(())),
];

/// What a store is asked for.
enum Asked {
    /// The rows of the blob at the extent's offset, with the elements of a block.
    Blob(Extent, &'static [u8]),
    /// So many rows.
    Rows(Counts),
}

/// A statement that changes rows of the five blobs, and what isn't there afterwards.
type Changed = (&'static str, Asked);

const NODES_AT_47: Asked = Asked::Blob(PLACED_NODES, TWO_NODES);

const WAY_AT_THE_END: Asked = Asked::Blob(WAY_AT_203, WAY);

/// Those of the five blobs: two nodes, three ways with neither tags nor nodes, a relation with a tag and two members, and a
/// way with a tag over four nodes.
const ALL_COUNTS: Counts = Counts {
    blobs: 5,
    elements: 7,
    tags: 2,
    links: 6,
};

/// What is seen of their tables where the rows stand in the order of their keys, and where they don't.
const IN_ORDER: Look = Look {
    elements: TableLook {
        rows: 7,
        in_order: true,
    },
    tags: TableLook {
        rows: 2,
        in_order: true,
    },
    links: TableLook {
        rows: 6,
        in_order: true,
    },
};

const OUT_OF_ORDER: Look = Look {
    elements: TableLook {
        rows: 7,
        in_order: false,
    },
    tags: TableLook {
        rows: 2,
        in_order: false,
    },
    links: TableLook {
        rows: 6,
        in_order: false,
    },
};

const ALL_ROWS: Asked = Asked::Rows(ALL_COUNTS);

const ALL_ASKED: &[Asked] = &[
    Asked::Blob(PLACED_HEADER, NOTHING),
    NODES_AT_47,
    Asked::Blob(PLACED_WAYS, THREE_WAYS),
    Asked::Blob(RELATION_AT_137, RELATION),
    WAY_AT_THE_END,
    ALL_ROWS,
];

/// Blobs that the store doesn't hold, and counts of other rows.
const OTHERS: &[Asked] = &[
    Asked::Blob(
        Extent {
            digest: [9; 32],
            ..PLACED_NODES
        },
        TWO_NODES,
    ),
    Asked::Blob(
        Extent {
            fin: 85,
            ..PLACED_NODES
        },
        TWO_NODES,
    ),
    Asked::Blob(PLACED_NODES, NOTHING),
    Asked::Blob(PLACED_NODES, THREE_WAYS),
    Asked::Blob(
        Extent {
            off: 48,
            ..PLACED_NODES
        },
        TWO_NODES,
    ),
    Asked::Rows(Counts {
        blobs: 4,
        ..ALL_COUNTS
    }),
    Asked::Rows(Counts {
        elements: 8,
        ..ALL_COUNTS
    }),
    Asked::Rows(Counts::NONE),
];

impl Asked {
    /// Whether the store has it. `NotThisStore(None)` where the block or the extent is none.
    fn is_there<K: Audited>(&self, alloc: Global, store: &mut K) -> Result<bool, StoreFault> {
        match self {
            Asked::Blob(extent, block) => has_block(alloc, store, extent, block),
            Asked::Rows(counts) => store.has_counts(alloc, counts),
        }
    }
}

fn has_block<K: Audited>(
    alloc: Global,
    store: &mut K,
    extent: &Extent,
    block: &[u8],
) -> Result<bool, StoreFault> {
    let Ok(elements) = read_block(alloc, block) else {
        return Err(StoreFault::NotThisStore(None));
    };
    let (off, fin) = (extent.off, extent.fin);
    if off >= fin || fin > 1 << 62 {
        return Err(StoreFault::NotThisStore(None));
    }
    store.has_blob(alloc, off, fin, &extent.digest, extent.kind, &elements)
}

/// Expects the five blobs as they were put, and no others.
fn expect_all<K: Audited, R: Abort + Alloc<A = Global>>(rt: &R, way: &str, store: &mut K) {
    for (number, asked) in ALL_ASKED.iter().enumerate() {
        let answer = asked.is_there(rt.alloc(), store);
        assert_eq!(rt; answer, Ok(true), "{number} over {way}");
    }
    for (number, asked) in OTHERS.iter().enumerate() {
        let answer = asked.is_there(rt.alloc(), store);
        assert_eq!(rt; answer, Ok(false), "other {number} over {way}");
    }
}

/// Expects that each is there as it was put, and isn't once the rows are changed.
fn expect_changes<K: NewSqlStore, R: Abort + Alloc<A = Global>>(
    rt: &R,
    layout: &str,
    table: &[Changed],
) -> Result<(), Fail> {
    for (sql, asked) in table {
        let mut store: K = followed(rt.alloc(), layout, FIVE_BLOBS)?;
        let before = asked.is_there(rt.alloc(), &mut store);
        assert_eq!(rt; before, Ok(true), "before {sql} over {layout}");
        let mut store = store.changed(sql).ok_or("a store")?;
        let after = asked.is_there(rt.alloc(), &mut store);
        assert_eq!(rt; after, Ok(false), "{sql} over {layout}");
    }
    Ok(())
}

/// The store over trees, each index of which is checked, if each is whole.
fn checked<S: Store + Drop>(alloc: Global, mut trees: S) -> Option<CheckedStore<S>> {
    match look_at_indexes(alloc, &mut trees) {
        Ok(Looked::Whole(look)) => Some(CheckedStore::new(TreeStore::new(trees), look)),
        Ok(Looked::Faulty(_)) | Err(_) => None,
    }
}

/// The same below SQL.
fn checked_below<S: Alter + Drop>(alloc: Global, store: TableStore<S>) -> Option<CheckedStore<S>> {
    checked(alloc, store.into_connection().into_store())
}

/// The same over the trees of a store of tables, once the rows are changed that were put in these steps.
fn expect_changes_after<R: Abort + Alloc<A = Global>>(
    rt: &R,
    steps: &[Step],
    table: &[Changed],
) -> Result<(), Fail> {
    for (sql, asked) in table {
        let store: TablesInMemory = followed(rt.alloc(), "tables", steps)?;
        let changed = store.changed(sql).ok_or("a store")?;
        let mut trees = checked_below(rt.alloc(), changed).ok_or("whole indexes")?;
        let after = asked.is_there(rt.alloc(), &mut trees);
        assert_eq!(rt; after, Ok(false), "{sql} over trees");
    }
    Ok(())
}

/// The same, where the rows stand in the order of their keys at first, and where they don't.
fn expect_changes_below<R: Abort + Alloc<A = Global>>(
    rt: &R,
    table: &[Changed],
) -> Result<(), Fail> {
    expect_changes_after(rt, FIVE_BLOBS, table)?;
    expect_changes_after(rt, LAST_FIRST, table)
}

#[test]
fn rows_as_they_were_put(rt: HostRuntime) -> Result<(), Fail> {
    let mut bodies: BodiesInMemory = followed(rt.alloc(), "bodies", FIVE_BLOBS)?;
    expect_all(&rt, "bodies", &mut bodies);
    let mut tables: TablesInMemory = followed(rt.alloc(), "tables", FIVE_BLOBS)?;
    expect_all(&rt, "tables", &mut tables);
    let mut trees = checked_below(rt.alloc(), tables).ok_or("whole indexes")?;
    expect_all(&rt, "trees", &mut trees);
    let tables: TablesInMemory = followed(rt.alloc(), "tables", LAST_FIRST)?;
    let mut trees = checked_below(rt.alloc(), tables).ok_or("whole indexes")?;
    expect_all(&rt, "trees, the last blob first", &mut trees);
    Ok(())
}

/// A changed digest, an end or a kind, and a blob more.
#[test]
fn changed_extents(rt: HostRuntime) -> Result<(), Fail> {
    const TABLE: &[Changed] = &[
        (
            "UPDATE blob SET digest = x'0202020202020202020202020202020202020202020202020202020202020203' WHERE off = 47",
            NODES_AT_47,
        ),
        ("UPDATE blob SET fin = 83 WHERE off = 47", NODES_AT_47),
        ("UPDATE blob SET kind = 2 WHERE off = 47", NODES_AT_47),
        ("UPDATE blob SET n = 3 WHERE off = 47", NODES_AT_47),
        ("DELETE FROM blob WHERE off = 47", NODES_AT_47),
        (
            "INSERT INTO blob (off, fin, digest, kind, n) VALUES (1000, 1001, x'01', 1, 0)",
            ALL_ROWS,
        ),
    ];
    expect_changes::<BodiesInMemory, _>(&rt, "bodies", TABLE)?;
    expect_changes::<TablesInMemory, _>(&rt, "tables", TABLE)?;
    expect_changes_below(&rt, TABLE)
}

/// Bodies more, fewer and others, at a held blob and at an offset of none.
#[test]
fn changed_bodies(rt: HostRuntime) -> Result<(), Fail> {
    const TABLE: &[Changed] = &[
        (
            "INSERT INTO body (off, pos, kind, id, data) VALUES (47, 2, 0, 3, x'00')",
            NODES_AT_47,
        ),
        ("DELETE FROM body WHERE off = 47 AND pos = 1", NODES_AT_47),
        (
            "UPDATE body SET id = 5 WHERE off = 47 AND pos = 0",
            NODES_AT_47,
        ),
        (
            "UPDATE body SET data = x'00' WHERE off = 47 AND pos = 0",
            NODES_AT_47,
        ),
        (
            "UPDATE body SET pos = 2 WHERE off = 47 AND pos = 0",
            NODES_AT_47,
        ),
        (
            "INSERT INTO body (off, pos, kind, id, data) VALUES (1000, 0, 0, 3, x'00')",
            ALL_ROWS,
        ),
        (
            "INSERT INTO body (off, pos, kind, id, data) VALUES (-1, 0, 0, 3, x'00')",
            ALL_ROWS,
        ),
    ];
    expect_changes::<BodiesInMemory, _>(&rt, "bodies", TABLE)
}

/// Rows of elements, tags and links more, fewer and others, at a held blob and at an offset of none.
#[test]
fn changed_tables(rt: HostRuntime) -> Result<(), Fail> {
    const TABLE: &[Changed] = &[
        (
            "INSERT INTO tag (off, pos, k, key, val) VALUES (47, 0, 0, 'a', 'b')",
            NODES_AT_47,
        ),
        (
            "INSERT INTO link (off, pos, k, kind, ref, role) VALUES (47, 0, 0, 0, 1, '')",
            NODES_AT_47,
        ),
        (
            "INSERT INTO element (off, pos, kind, id) VALUES (47, 2, 1, 3)",
            NODES_AT_47,
        ),
        (
            "UPDATE element SET version = 1 WHERE off = 47 AND pos = 1",
            NODES_AT_47,
        ),
        (
            "UPDATE element SET lat = NULL WHERE off = 47 AND pos = 1",
            NODES_AT_47,
        ),
        ("DELETE FROM tag WHERE off = 203", WAY_AT_THE_END),
        ("UPDATE tag SET val = 'c' WHERE off = 203", WAY_AT_THE_END),
        ("DELETE FROM link WHERE off = 203 AND k = 3", WAY_AT_THE_END),
        (
            "UPDATE link SET k = 4 WHERE off = 203 AND k = 3",
            WAY_AT_THE_END,
        ),
        (
            "INSERT INTO element (off, pos, kind, id) VALUES (1000, 0, 1, 3)",
            ALL_ROWS,
        ),
        (
            "INSERT INTO tag (off, pos, k, key, val) VALUES (1000, 0, 0, 'a', 'b')",
            ALL_ROWS,
        ),
        (
            "INSERT INTO link (off, pos, k, kind, ref, role) VALUES (-1, 0, 0, 0, 1, '')",
            ALL_ROWS,
        ),
    ];
    expect_changes::<TablesInMemory, _>(&rt, "tables", TABLE)?;
    expect_changes_below(&rt, TABLE)
}

/// The counts of blobs are those of their elements, one blob after the other.
#[test]
fn counts_of_blobs(rt: HostRuntime) -> Result<(), Fail> {
    let mut counts = Counts::NONE;
    for block in [NOTHING, TWO_NODES, THREE_WAYS, RELATION, WAY] {
        let elements: Vec<Element> = read_block(rt.alloc(), block).map_err(|_| "elements")?;
        counts.add(&elements);
    }
    assert_eq!(rt; counts, ALL_COUNTS);
    Ok(())
}

/// The trees of the five blobs.
fn five_blobs(alloc: Global) -> Result<MemStore, Fail> {
    let store: TablesInMemory = followed(alloc, "tables", FIVE_BLOBS)?;
    Ok(store.into_connection().into_store())
}

/// Rows of each table at an offset of no blob, added, moved and left by a blob that is gone; and none.
#[test]
fn stray_rows(rt: HostRuntime) -> Result<(), Fail> {
    const TABLE: &[(&str, Option<Stray>)] = &[
        (
            "INSERT INTO element (off, pos, kind, id) VALUES (47, 2, 1, 3)",
            None,
        ),
        (
            "INSERT INTO element (off, pos, kind, id) VALUES (1000, 0, 1, 3)",
            Some(Stray {
                table: ElementTable::Elements,
                off: 1000,
            }),
        ),
        (
            "INSERT INTO tag (off, pos, k, key, val) VALUES (48, 0, 0, 'a', 'b')",
            Some(Stray {
                table: ElementTable::Tags,
                off: 48,
            }),
        ),
        (
            "INSERT INTO link (off, pos, k, kind, ref, role) VALUES (-1, 0, 0, 0, 1, '')",
            Some(Stray {
                table: ElementTable::Links,
                off: -1,
            }),
        ),
        (
            "UPDATE link SET off = 138 WHERE off = 137 AND k = 1",
            Some(Stray {
                table: ElementTable::Links,
                off: 138,
            }),
        ),
        (
            "DELETE FROM blob WHERE off = 203",
            Some(Stray {
                table: ElementTable::Elements,
                off: 203,
            }),
        ),
    ];
    for (sql, expected) in TABLE {
        let store: TablesInMemory = followed(rt.alloc(), "tables", FIVE_BLOBS)?;
        let changed = store.changed(sql).ok_or("a store")?;
        let mut trees = changed.into_connection().into_store();
        let found = stray_row(rt.alloc(), &mut trees);
        assert_eq!(rt; found, Ok(*expected), "{sql}");
    }
    Ok(())
}

const INDEXES: [(u32, StoreIndex); 4] = [
    (ELEMENT_KEY, StoreIndex::ElementKey),
    (TAG_KEY, StoreIndex::TagKey),
    (LINK_KEY, StoreIndex::LinkKey),
    (ELEMENT_BY_ID, StoreIndex::ElementById),
];

#[test]
fn whole_indexes(rt: HostRuntime) -> Result<(), Fail> {
    let mut trees = five_blobs(rt.alloc())?;
    let found = look_at_indexes(rt.alloc(), &mut trees);
    assert_eq!(rt; found, Ok(Looked::Whole(IN_ORDER)));
    let store: TablesInMemory = followed(rt.alloc(), "tables", LAST_FIRST)?;
    let mut trees = store.into_connection().into_store();
    let found = look_at_indexes(rt.alloc(), &mut trees);
    assert_eq!(rt; found, Ok(Looked::Whole(OUT_OF_ORDER)));
    Ok(())
}

/// How many of the five blobs are there.
fn count_there<K: Audited>(alloc: Global, store: &mut K) -> Result<usize, StoreFault> {
    let mut count = 0usize;
    for asked in ALL_ASKED.iter().take(5) {
        if asked.is_there(alloc, store)? {
            count = count.saturating_add(1);
        }
    }
    Ok(count)
}

/// A row more or less in each table, at the end of what its blob has there and elsewhere: what is then seen of the tables, and
/// that one blob, and it alone, isn't there.
#[test]
fn rows_in_order_and_out_of_it(rt: HostRuntime) -> Result<(), Fail> {
    const TABLE: &[(&str, Look, Asked)] = &[
        (
            "INSERT INTO element (off, pos, kind, id) VALUES (203, 1, 1, 3)",
            Look {
                elements: TableLook {
                    rows: 8,
                    in_order: true,
                },
                ..IN_ORDER
            },
            WAY_AT_THE_END,
        ),
        (
            "INSERT INTO element (off, pos, kind, id) VALUES (47, 2, 1, 3)",
            Look {
                elements: TableLook {
                    rows: 8,
                    in_order: false,
                },
                ..IN_ORDER
            },
            NODES_AT_47,
        ),
        (
            "DELETE FROM element WHERE off = 47 AND pos = 0",
            Look {
                elements: TableLook {
                    rows: 6,
                    in_order: true,
                },
                ..IN_ORDER
            },
            NODES_AT_47,
        ),
        (
            "DELETE FROM element WHERE off = 47 AND pos = 1",
            Look {
                elements: TableLook {
                    rows: 6,
                    in_order: true,
                },
                ..IN_ORDER
            },
            NODES_AT_47,
        ),
        (
            "DELETE FROM element WHERE off = 203",
            Look {
                elements: TableLook {
                    rows: 6,
                    in_order: true,
                },
                ..IN_ORDER
            },
            WAY_AT_THE_END,
        ),
        (
            "INSERT INTO tag (off, pos, k, key, val) VALUES (203, 0, 1, 'a', 'b')",
            Look {
                tags: TableLook {
                    rows: 3,
                    in_order: true,
                },
                ..IN_ORDER
            },
            WAY_AT_THE_END,
        ),
        (
            "INSERT INTO tag (off, pos, k, key, val) VALUES (47, 0, 0, 'a', 'b')",
            Look {
                tags: TableLook {
                    rows: 3,
                    in_order: false,
                },
                ..IN_ORDER
            },
            NODES_AT_47,
        ),
        (
            "INSERT INTO link (off, pos, k, kind, ref, role) VALUES (203, 0, 4, 0, 1, '')",
            Look {
                links: TableLook {
                    rows: 7,
                    in_order: true,
                },
                ..IN_ORDER
            },
            WAY_AT_THE_END,
        ),
        (
            "UPDATE link SET k = 9 WHERE off = 203 AND k = 0",
            Look {
                links: TableLook {
                    rows: 6,
                    in_order: false,
                },
                ..IN_ORDER
            },
            WAY_AT_THE_END,
        ),
    ];
    let alloc = rt.alloc();
    for (sql, look, asked) in TABLE {
        let store: TablesInMemory = followed(rt.alloc(), "tables", FIVE_BLOBS)?;
        let changed = store.changed(sql).ok_or("a store")?;
        let mut trees = changed.into_connection().into_store();
        let found = look_at_indexes(alloc, &mut trees);
        assert_eq!(rt; found, Ok(Looked::Whole(*look)), "{sql}");
        let mut store = checked(alloc, trees).ok_or("whole indexes")?;
        assert_eq!(rt; asked.is_there(alloc, &mut store), Ok(false), "{sql}");
        assert_eq!(rt;
            count_there(alloc, &mut store),
            Ok(4),
            "the others after {sql}"
        );
    }
    Ok(())
}

/// Each index in turn without an entry, with one too many, and with that of another row.
#[test]
fn faulty_indexes(rt: HostRuntime) -> Result<(), Fail> {
    let alloc = rt.alloc();
    for (tree, index) in INDEXES {
        let mut trees = five_blobs(alloc)?;
        take_entry(alloc, &mut trees, tree).ok_or("an entry")?;
        assert_eq!(rt;
            look_at_indexes(alloc, &mut trees),
            Ok(Looked::Faulty(index)),
            "one less"
        );
        let mut trees = five_blobs(alloc)?;
        add_entry(alloc, &mut trees, tree).ok_or("an entry")?;
        assert_eq!(rt;
            look_at_indexes(alloc, &mut trees),
            Ok(Looked::Faulty(index)),
            "one more"
        );
    }
    let mut trees = five_blobs(alloc)?;
    write_element(alloc, &mut trees, 13, 5).ok_or("a row")?;
    let found = look_at_indexes(alloc, &mut trees);
    assert_eq!(rt;
        found,
        Ok(Looked::Faulty(StoreIndex::ElementById)),
        "another id"
    );
    Ok(())
}

/// A row that lacks its last value, which is NULL: a query can't tell, and the trees can.
#[test]
fn a_shorter_row(rt: HostRuntime) -> Result<(), Fail> {
    let alloc = rt.alloc();
    for (end, same) in [(13, true), (12, false)] {
        let mut trees = five_blobs(alloc)?;
        write_element(alloc, &mut trees, end, 1).ok_or("a row")?;
        let mut store = checked(alloc, trees).ok_or("whole indexes")?;
        let answer = NODES_AT_47.is_there(alloc, &mut store);
        assert_eq!(rt; answer, Ok(same), "up to {end}");
    }
    Ok(())
}
