//! The statements on the table of bodies, as text. Each stands here alone: proofs cite these constants, and say what they do
//! to it.

/// A row for each element: where it stands, what it is, and its block.
pub(crate) const CREATE_BODY: &str =
    "CREATE TABLE body (off INTEGER NOT NULL, pos INTEGER NOT NULL, kind INTEGER NOT NULL, id INTEGER NOT NULL, data BLOB NOT NULL, PRIMARY KEY (off, pos)) STRICT";

/// Finds elements by kind and id.
pub(crate) const CREATE_BODY_INDEX: &str = "CREATE INDEX body_element ON body (kind, id)";

/// Adds an element.
pub(crate) const INSERT_BODY: &str =
    "INSERT INTO body (off, pos, kind, id, data) VALUES (?1, ?2, ?3, ?4, ?5)";

/// A blob's elements, in order.
pub(crate) const SELECT_BODIES: &str =
    "SELECT off, pos, kind, id, data FROM body WHERE off = ?1 ORDER BY off, pos";

/// All held elements of one kind and id, in order.
pub(crate) const FIND_BODIES: &str =
    "SELECT off, pos, kind, id, data FROM body WHERE kind = ?1 AND id = ?2 ORDER BY off, pos";

/// How many elements there are.
pub(crate) const COUNT_BODIES: &str = "SELECT count(*) FROM body";
