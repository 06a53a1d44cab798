//! The other statements of the store, as text. Each stands here alone: definitions cite these constants, and proofs say what
//! they do to the tables.

/// The version of the tables in the layout of bodies.
pub(crate) const BODY_VERSION: i64 = 1;

/// Names the layout of bodies.
pub(crate) const INSERT_BODY_VERSION: &str = "INSERT INTO meta (version) VALUES (1)";

/// Names the layout of tables.
pub(crate) const INSERT_TABLE_VERSION: &str = "INSERT INTO meta (version) VALUES (2)";

/// Adds a blob.
pub(crate) const INSERT_BLOB: &str =
    "INSERT INTO blob (off, fin, digest, kind, n) VALUES (?1, ?2, ?3, ?4, ?5)";

/// Adds an element, in the layout of tables.
pub(crate) const INSERT_ELEMENT: &str =
    "INSERT INTO element (off, pos, kind, id, lat, lon, version, time, changeset, uid, user, visible) VALUES (?1, ?2, ?3, ?4, ?5, ?6, ?7, ?8, ?9, ?10, ?11, ?12)";

/// Adds a tag.
pub(crate) const INSERT_TAG: &str =
    "INSERT INTO tag (off, pos, k, key, val) VALUES (?1, ?2, ?3, ?4, ?5)";

/// Adds a node of a way, or a member of a relation.
pub(crate) const INSERT_LINK: &str =
    "INSERT INTO link (off, pos, k, kind, ref, role) VALUES (?1, ?2, ?3, ?4, ?5, ?6)";

/// A statement with one row after VALUES, which is given 31 further rows. The prover reads the whole text, and a
/// parameter is `?` alone: each stands for the value after the last one's, so that all rows are of one form.
macro_rules! with_31_more {
    ($statement:literal, $row:literal) => {
        concat!(
            $statement, $row, $row, $row, $row, $row, $row, $row, $row, $row, $row, $row, $row,
            $row, $row, $row, $row, $row, $row, $row, $row, $row, $row, $row, $row, $row, $row,
            $row, $row, $row, $row, $row
        )
    };
}

/// Adds 32 elements.
pub(crate) const INSERT_ELEMENTS: &str = with_31_more!(
    "INSERT INTO element (off, pos, kind, id, lat, lon, version, time, changeset, uid, user, visible) VALUES (?, ?, ?, ?, ?, ?, ?, ?, ?, ?, ?, ?)",
    ", (?, ?, ?, ?, ?, ?, ?, ?, ?, ?, ?, ?)"
);

/// Adds 32 tags.
pub(crate) const INSERT_TAGS: &str = with_31_more!(
    "INSERT INTO tag (off, pos, k, key, val) VALUES (?, ?, ?, ?, ?)",
    ", (?, ?, ?, ?, ?)"
);

/// Adds 32 nodes of ways or members of relations.
pub(crate) const INSERT_LINKS: &str = with_31_more!(
    "INSERT INTO link (off, pos, k, kind, ref, role) VALUES (?, ?, ?, ?, ?, ?)",
    ", (?, ?, ?, ?, ?, ?)"
);

/// The version.
pub(crate) const SELECT_VERSION: &str = "SELECT version FROM meta";

/// All extents, ascending.
pub(crate) const SELECT_EXTENTS: &str = "SELECT off, fin, digest, kind, n FROM blob ORDER BY off";

/// The extent that starts at one offset.
pub(crate) const SELECT_EXTENT: &str =
    "SELECT off, fin, digest, kind, n FROM blob WHERE off = ?1 ORDER BY off";

/// Where the last blob starts that starts at an offset or before.
pub(crate) const SELECT_LAST_START: &str =
    "SELECT off FROM blob WHERE off <= ?1 ORDER BY off DESC LIMIT 1";

/// The extents that start at one offset or later and before a second, and end after a third, ascending.
pub(crate) const SELECT_TOUCHING: &str =
    "SELECT off, fin, digest, kind, n FROM blob WHERE off >= ?1 AND off < ?2 AND fin > ?3 ORDER BY off";

/// A blob's elements, in order.
pub(crate) const SELECT_ELEMENTS: &str =
    "SELECT off, pos, kind, id, lat, lon, version, time, changeset, uid, user, visible FROM element WHERE off = ?1 ORDER BY off, pos";

/// The tags of a blob's elements, in order.
pub(crate) const SELECT_TAGS: &str =
    "SELECT off, pos, k, key, val FROM tag WHERE off = ?1 ORDER BY off, pos, k";

/// The nodes and members of a blob's elements, in order.
pub(crate) const SELECT_LINKS: &str =
    "SELECT off, pos, k, kind, ref, role FROM link WHERE off = ?1 ORDER BY off, pos, k";

/// All held elements of one kind and id, in order.
pub(crate) const FIND_ELEMENTS: &str =
    "SELECT off, pos, kind, id, lat, lon, version, time, changeset, uid, user, visible FROM element WHERE kind = ?1 AND id = ?2 ORDER BY off, pos";

/// The flag of one element that has one: what is absent is NULL, which isn't at least 0. Where no element has one, this
/// goes through the whole table, once: with an order it would sort all flags of a file with history first.
pub(crate) const SELECT_FLAG: &str = "SELECT visible FROM element WHERE visible >= 0 LIMIT 1";

/// The tags of one element, in order.
pub(crate) const SELECT_ITS_TAGS: &str =
    "SELECT off, pos, k, key, val FROM tag WHERE off = ?1 AND pos = ?2 ORDER BY off, pos, k";

/// The nodes or members of one element, in order.
pub(crate) const SELECT_ITS_LINKS: &str =
    "SELECT off, pos, k, kind, ref, role FROM link WHERE off = ?1 AND pos = ?2 ORDER BY off, pos, k";

/// How many blobs there are.
pub(crate) const COUNT_BLOBS: &str = "SELECT count(*) FROM blob";

/// How many elements there are, in the layout of tables.
pub(crate) const COUNT_ELEMENTS: &str = "SELECT count(*) FROM element";

/// How many tags there are.
pub(crate) const COUNT_TAGS: &str = "SELECT count(*) FROM tag";

/// How many nodes and members there are.
pub(crate) const COUNT_LINKS: &str = "SELECT count(*) FROM link";
