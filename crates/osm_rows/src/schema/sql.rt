//! The statements that make the tables of a store that users can query, as text. Definitions cite these constants, and proofs
//! say which tables they make.

/// Its one row names the version, and by it the layout.
pub const CREATE_META: &str = "CREATE TABLE meta (version INTEGER PRIMARY KEY) STRICT";

/// A row for each held blob: its extent, its frame's SHA-256, its kind and how many elements it has.
pub const CREATE_BLOB: &str =
    "CREATE TABLE blob (off INTEGER PRIMARY KEY, fin INTEGER NOT NULL, digest BLOB NOT NULL, kind INTEGER NOT NULL, n INTEGER NOT NULL) STRICT";

/// In the layout of tables, a row for each element. What is not said of it is NULL.
pub const CREATE_ELEMENT: &str =
    "CREATE TABLE element (off INTEGER NOT NULL, pos INTEGER NOT NULL, kind INTEGER NOT NULL, id INTEGER NOT NULL, lat INTEGER, lon INTEGER, version INTEGER, time INTEGER, changeset INTEGER, uid INTEGER, user TEXT, visible INTEGER, PRIMARY KEY (off, pos)) STRICT";

/// A row for each tag; `k` counts those of one element.
pub const CREATE_TAG: &str =
    "CREATE TABLE tag (off INTEGER NOT NULL, pos INTEGER NOT NULL, k INTEGER NOT NULL, key TEXT NOT NULL, val TEXT NOT NULL, PRIMARY KEY (off, pos, k)) STRICT";

/// A row for each node of a way and each member of a relation; `k` counts those of one element.
pub const CREATE_LINK: &str =
    "CREATE TABLE link (off INTEGER NOT NULL, pos INTEGER NOT NULL, k INTEGER NOT NULL, kind INTEGER NOT NULL, ref INTEGER NOT NULL, role TEXT NOT NULL, PRIMARY KEY (off, pos, k)) STRICT";

/// Finds elements by kind and id.
pub const CREATE_ELEMENT_INDEX: &str = "CREATE INDEX element_by_id ON element (kind, id)";

/// The version of the tables in the layout of tables.
pub const TABLE_VERSION: i64 = 2;
