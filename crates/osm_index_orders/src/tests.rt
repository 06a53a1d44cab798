//! Orders that SQLite's `PRAGMA index_xinfo` gives.

use crate::order::told_order;
use sqlite_value::keys::Order;
use sqlite_value::row::Row;
use sqlite_value::value::ValueRef;
use std::alloc::{AllocError, Global};
use std::test::*;

/// The text of a table, then the type, the name and the text of an object of it, and the order as digits to base 8: a key each,
/// the first lowest, of which 1 is DESC, 2 NOCASE and 4 RTRIM.
const TOLD: [(&str, &str, &str, Option<&str>, u64); 22] = [
    (
        "CREATE TABLE own (a TEXT PRIMARY KEY DESC, b) WITHOUT ROWID",
        "table",
        "own",
        Some("CREATE TABLE own (a TEXT PRIMARY KEY DESC, b) WITHOUT ROWID"),
        0o1,
    ),
    (
        "CREATE TABLE own (a TEXT COLLATE NOCASE, b TEXT COLLATE RTRIM, c ANY, PRIMARY KEY (a DESC, b)) STRICT, WITHOUT ROWID",
        "table",
        "own",
        Some(
            "CREATE TABLE own (a TEXT COLLATE NOCASE, b TEXT COLLATE RTRIM, c ANY, PRIMARY KEY (a DESC, b)) STRICT, WITHOUT ROWID",
        ),
        0o43,
    ),
    (
        "CREATE TABLE own (a TEXT COLLATE NOCASE, b TEXT COLLATE RTRIM, c ANY, PRIMARY KEY (a DESC, b)) STRICT, WITHOUT ROWID",
        "index",
        "i",
        Some("CREATE INDEX i ON own (c DESC)"),
        0o431,
    ),
    (
        "CREATE TABLE own (a TEXT COLLATE NOCASE, b TEXT COLLATE RTRIM, c ANY, PRIMARY KEY (a DESC, b)) STRICT, WITHOUT ROWID",
        "index",
        "i",
        Some("CREATE INDEX i ON own (b COLLATE BINARY DESC, c)"),
        0o4301,
    ),
    (
        "CREATE TABLE own (a TEXT COLLATE NOCASE, b TEXT COLLATE RTRIM, c ANY, PRIMARY KEY (a DESC, b)) STRICT, WITHOUT ROWID",
        "index",
        "i",
        Some("CREATE INDEX i ON own (b, a COLLATE RTRIM)"),
        0o344,
    ),
    (
        "CREATE TABLE own (id INTEGER PRIMARY KEY, name TEXT COLLATE NOCASE UNIQUE, note) WITHOUT ROWID",
        "table",
        "own",
        Some(
            "CREATE TABLE own (id INTEGER PRIMARY KEY, name TEXT COLLATE NOCASE UNIQUE, note) WITHOUT ROWID",
        ),
        0o0,
    ),
    (
        "CREATE TABLE own (id INTEGER PRIMARY KEY, name TEXT COLLATE NOCASE UNIQUE, note) WITHOUT ROWID",
        "index",
        "sqlite_autoindex_own_1",
        None,
        0o2,
    ),
    (
        "CREATE TABLE own (id INTEGER PRIMARY KEY, name TEXT COLLATE NOCASE UNIQUE, note) WITHOUT ROWID",
        "index",
        "i",
        Some("CREATE INDEX i ON own (note DESC)"),
        0o1,
    ),
    (
        "CREATE TABLE own (id INTEGER COLLATE RTRIM, note, PRIMARY KEY (id)) WITHOUT ROWID",
        "table",
        "own",
        Some("CREATE TABLE own (id INTEGER COLLATE RTRIM, note, PRIMARY KEY (id)) WITHOUT ROWID"),
        0o4,
    ),
    (
        "CREATE TABLE own (id INTEGER COLLATE RTRIM, note, PRIMARY KEY (id)) WITHOUT ROWID",
        "index",
        "i",
        Some("CREATE INDEX i ON own (note)"),
        0o40,
    ),
    (
        "CREATE TABLE own (x TEXT, y TEXT COLLATE NOCASE UNIQUE, z VARCHAR(9) COLLATE RTRIM, UNIQUE (z DESC, x), PRIMARY KEY (x, y COLLATE BINARY DESC))",
        "index",
        "sqlite_autoindex_own_1",
        None,
        0o2,
    ),
    (
        "CREATE TABLE own (x TEXT, y TEXT COLLATE NOCASE UNIQUE, z VARCHAR(9) COLLATE RTRIM, UNIQUE (z DESC, x), PRIMARY KEY (x, y COLLATE BINARY DESC))",
        "index",
        "sqlite_autoindex_own_2",
        None,
        0o5,
    ),
    (
        "CREATE TABLE own (x TEXT, y TEXT COLLATE NOCASE UNIQUE, z VARCHAR(9) COLLATE RTRIM, UNIQUE (z DESC, x), PRIMARY KEY (x, y COLLATE BINARY DESC))",
        "index",
        "sqlite_autoindex_own_3",
        None,
        0o10,
    ),
    (
        "CREATE TABLE own (x TEXT, y TEXT COLLATE NOCASE UNIQUE, z VARCHAR(9) COLLATE RTRIM, UNIQUE (z DESC, x), PRIMARY KEY (x, y COLLATE BINARY DESC))",
        "index",
        "i",
        Some("CREATE INDEX i ON own (x DESC)"),
        0o1,
    ),
    (
        "CREATE TABLE own (x TEXT, y TEXT COLLATE NOCASE UNIQUE, z VARCHAR(9) COLLATE RTRIM, UNIQUE (z DESC, x), PRIMARY KEY (x, y COLLATE BINARY DESC))",
        "index",
        "i",
        Some("CREATE UNIQUE INDEX i ON own (y DESC, x COLLATE RTRIM)"),
        0o43,
    ),
    (
        "CREATE TABLE own (x TEXT, y TEXT COLLATE NOCASE UNIQUE, z VARCHAR(9) COLLATE RTRIM, UNIQUE (z DESC, x), PRIMARY KEY (x, y COLLATE BINARY DESC))",
        "index",
        "i",
        Some("CREATE INDEX i ON own (z COLLATE NOCASE DESC) WHERE (z > 'A') OR z IS NULL"),
        0o3,
    ),
    (
        "CREATE TABLE own (a TEXT COLLATE NOCASE, c UNIQUE, PRIMARY KEY (a DESC)) WITHOUT ROWID",
        "table",
        "own",
        Some(
            "CREATE TABLE own (a TEXT COLLATE NOCASE, c UNIQUE, PRIMARY KEY (a DESC)) WITHOUT ROWID",
        ),
        0o3,
    ),
    (
        "CREATE TABLE own (a TEXT COLLATE NOCASE, c UNIQUE, PRIMARY KEY (a DESC)) WITHOUT ROWID",
        "index",
        "sqlite_autoindex_own_1",
        None,
        0o20,
    ),
    (
        "CREATE TABLE own (a, b, PRIMARY KEY (a)) /* no rowid */",
        "index",
        "sqlite_autoindex_own_1",
        None,
        0o0,
    ),
    (
        "CREATE TABLE own (a, b, PRIMARY KEY (a)) /* no rowid */",
        "index",
        "i",
        Some("CREATE INDEX i ON own (b DESC)"),
        0o1,
    ),
    (
        "CREATE TABLE \"Own\" (\"a)\" INTEGER PRIMARY KEY DESC, b CHECK (b > (0)) COLLATE rtrim)",
        "index",
        "sqlite_autoindex_Own_1",
        None,
        0o1,
    ),
    (
        "CREATE TABLE \"Own\" (\"a)\" INTEGER PRIMARY KEY DESC, b CHECK (b > (0)) COLLATE rtrim)",
        "index",
        "i",
        Some("CREATE INDEX i ON oWN (b) WHERE b"),
        0o4,
    ),
];

/// The same of texts that aren't understood.
const UNTOLD: [(&str, &str, &str, Option<&str>); 6] = [
    (
        "CREATE TABLE own (a TEXT COLLATE other)",
        "index",
        "i",
        Some("CREATE INDEX i ON own (a)"),
    ),
    (
        "CREATE TABLE own (a, b AS (a || 1))",
        "index",
        "i",
        Some("CREATE INDEX i ON own (a)"),
    ),
    (
        "CREATE TABLE own (a)",
        "index",
        "i",
        Some("CREATE INDEX i ON own (lower(a) DESC)"),
    ),
    (
        "CREATE TABLE own (id INTEGER, PRIMARY KEY (id DESC)) WITHOUT ROWID",
        "table",
        "own",
        Some("CREATE TABLE own (id INTEGER, PRIMARY KEY (id DESC)) WITHOUT ROWID"),
    ),
    (
        "CREATE TABLE own (a, b, PRIMARY KEY (a DESC, a)) WITHOUT ROWID",
        "table",
        "own",
        Some("CREATE TABLE own (a, b, PRIMARY KEY (a DESC, a)) WITHOUT ROWID"),
    ),
    (
        "CREATE TABLE own (a)",
        "index",
        "sqlite_autoindex_own_1",
        None,
    ),
];

/// A row of `sqlite_schema` about the table `own`.
fn row(alloc: Global, kind: &str, name: &str, sql: Option<&str>) -> Result<Row, AllocError> {
    let mut row = Row::new(alloc);
    row.push(ValueRef::Int(1))?;
    row.push(ValueRef::Text(kind.as_bytes()))?;
    row.push(ValueRef::Text(name.as_bytes()))?;
    row.push(ValueRef::Text(b"own"))?;
    row.push(ValueRef::Int(2))?;
    match sql {
        Some(text) => row.push(ValueRef::Text(text.as_bytes()))?,
        None => row.push(ValueRef::Null)?,
    }
    Ok(row)
}

/// The order that is told of an object of a table with this text.
fn told(
    alloc: Global,
    table: &str,
    kind: &str,
    name: &str,
    sql: Option<&str>,
) -> Result<Option<Order>, AllocError> {
    let mut rows = Vec::new(alloc);
    rows.push(row(alloc, "view", "own", None)?)?;
    rows.push(row(alloc, "table", "own", Some(table))?)?;
    told_order(alloc, rows.as_slice(), &row(alloc, kind, name, sql)?)
}

#[test]
fn orders_are_told(rt: HostRuntime) {
    for (table, kind, name, sql, digits) in TOLD {
        let order = told(rt.alloc(), table, kind, name, sql);
        assert_eq!(rt; order, Ok(Some(Order { digits })), "{table}: {name}");
    }
}

#[test]
fn other_orders_are_not(rt: HostRuntime) {
    for (table, kind, name, sql) in UNTOLD {
        assert_eq!(rt;
            told(rt.alloc(), table, kind, name, sql),
            Ok(None),
            "{table}: {name}"
        );
    }
}
