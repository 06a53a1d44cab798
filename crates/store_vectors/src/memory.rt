//! Stores in memory, of both layouts and below SQL, and the rows of their tables.

use osm_old_store::{Bodies, BodyStore};
use osm_rows::{Audited, BlobKeeper, StoreFault, Tables};
use osm_sql_store::{BlobStore, SqlLayout, TableStore};
use osm_trees::TreeStore;
use sqlite::{Alter, Connection, MemStore};
use std::alloc::Global;

/// A store in memory that keeps each element as one block of bytes.
pub type BodiesInMemory = BodyStore<MemStore>;

/// One that keeps each as rows of numbers and texts.
pub type TablesInMemory = TableStore<MemStore>;

/// One of rows that is read and written below SQL.
pub type TreesInMemory = TreeStore<MemStore>;

/// A query, and the number that it shows.
pub type CountedRows = (&'static str, i64);

/// A layout whose rows are known.
pub trait KnownLayout: SqlLayout {
    /// The queries for the numbers of rows that elements have, by tables.
    const COUNTS: &'static [&'static str];

    /// What is shown where the elements at 47 are the two nodes of the file.
    const NODES: &'static [CountedRows];

    /// What is shown where the file is held, and behind it the tagged way and relation.
    const TAGGED: &'static [CountedRows];

    /// The queries for all rows of all tables.
    const ALL: &'static [&'static str];
}

impl KnownLayout for Bodies {
    const COUNTS: &'static [&'static str] = &["SELECT count(*) FROM body"];

    const NODES: &'static [CountedRows] = NODES_AS_BODIES;

    const TAGGED: &'static [CountedRows] = &[("SELECT count(*) FROM body", 4)];

    const ALL: &'static [&'static str] = &[
        "SELECT * FROM meta",
        "SELECT * FROM blob",
        "SELECT * FROM body",
    ];
}

impl KnownLayout for Tables {
    const COUNTS: &'static [&'static str] = &[
        "SELECT count(*) FROM element",
        "SELECT count(*) FROM tag",
        "SELECT count(*) FROM link",
    ];

    const NODES: &'static [CountedRows] = NODES_AS_ROWS;

    const TAGGED: &'static [CountedRows] = &[
        ("SELECT count(*) FROM element", 4),
        ("SELECT count(*) FROM tag", 2),
        ("SELECT count(*) FROM link", 4),
    ];

    const ALL: &'static [&'static str] = &[
        "SELECT * FROM meta",
        "SELECT * FROM blob",
        "SELECT * FROM element",
        "SELECT * FROM tag",
        "SELECT * FROM link",
    ];
}

/// The nodes at 47, each as its block: node 1 at 1000, -100 and node 2 at 900, -100.
pub const NODES_AS_BODIES: &[CountedRows] = &[
    (
        "SELECT count(*) FROM body WHERE off = 47 AND pos = 0 AND kind = 0 AND id = 1 AND data = x'0A020A00120B12090A01024201144A0101'",
        1,
    ),
    (
        "SELECT count(*) FROM body WHERE off = 47 AND pos = 1 AND kind = 0 AND id = 2 AND data = x'0A020A00120B12090A01044201124A0101'",
        1,
    ),
];

/// The same as numbers.
pub const NODES_AS_ROWS: &[CountedRows] = &[
    (
        "SELECT count(*) FROM element WHERE off = 47 AND pos = 0 AND kind = 0 AND id = 1 AND lat = 1000 AND lon = -100",
        1,
    ),
    (
        "SELECT count(*) FROM element WHERE off = 47 AND pos = 1 AND kind = 0 AND id = 2 AND lat = 900 AND lon = -100",
        1,
    ),
];

/// A store in memory, which holds nothing at first.
pub trait NewStore: BlobKeeper + Drop {
    fn new_store(alloc: Global) -> Result<Self, StoreFault>;

    /// How many steps each later statement may take; None is no limit. Below SQL there are no statements.
    fn limit_steps(&mut self, limit: Option<u64>);
}

/// One whose rows are asked for and changed by statements.
pub trait NewSqlStore: NewStore + Audited {
    /// The store, opened again after a statement has changed its rows.
    fn changed(self, sql: &str) -> Option<Self>;

    /// The store with no limit on steps, opened again, and all its rows as text.
    fn with_rows(self, alloc: Global) -> Option<(Self, String)>;
}

impl<L: KnownLayout> NewStore for BlobStore<MemStore, L> {
    fn new_store(alloc: Global) -> Result<BlobStore<MemStore, L>, StoreFault> {
        let connection = Connection::open_in_memory(alloc)?;
        match BlobStore::create(connection) {
            Ok(store) => Ok(store),
            Err((fault, _)) => Err(fault),
        }
    }

    fn limit_steps(&mut self, limit: Option<u64>) {
        self.set_step_limit(limit);
    }
}

impl<L: KnownLayout> NewSqlStore for BlobStore<MemStore, L> {
    fn changed(self, sql: &str) -> Option<BlobStore<MemStore, L>> {
        let mut connection = self.into_connection();
        connection.execute(sql, &[]).ok()?;
        if !connection.is_autocommit() {
            return None;
        }
        BlobStore::adopt(connection).ok()
    }

    fn with_rows(self, alloc: Global) -> Option<(BlobStore<MemStore, L>, String)> {
        let mut connection = self.into_connection();
        connection.set_step_limit(None);
        let rows = rows_of(alloc, &mut connection, L::ALL)?;
        if !connection.is_autocommit() {
            return None;
        }
        Some((BlobStore::adopt(connection).ok()?, rows))
    }
}

/// The store of tables, to be read and written by its trees.
pub fn below<S: Alter + Drop>(store: TableStore<S>) -> TreeStore<S> {
    TreeStore::new(store.into_connection().into_store())
}

impl NewStore for TreeStore<MemStore> {
    fn new_store(alloc: Global) -> Result<TreesInMemory, StoreFault> {
        Ok(below(TablesInMemory::new_store(alloc)?))
    }

    fn limit_steps(&mut self, _: Option<u64>) {}
}

/// The rows that these queries show, as text.
pub fn rows_of<S: Alter>(
    alloc: Global,
    connection: &mut Connection<S>,
    queries: &[&str],
) -> Option<String> {
    let mut text = String::new(alloc);
    for sql in queries {
        let rows = connection.query_all(sql, &[]).ok()?;
        text.push_str(&format!(in alloc; "{rows:?} ").ok()?).ok()?;
    }
    Some(text)
}

/// The number that a query shows.
pub fn number<S: Alter>(connection: &mut Connection<S>, sql: &str) -> Option<i64> {
    match connection.query_row(sql, &[]) {
        Ok(row) => row.get(0).ok(),
        Err(_) => None,
    }
}

/// Whether each query shows its number.
pub fn has_rows<S: Alter>(connection: &mut Connection<S>, rows: &[CountedRows]) -> bool {
    for (sql, wanted) in rows {
        if number(connection, sql) != Some(*wanted) {
            return false;
        }
    }
    true
}
