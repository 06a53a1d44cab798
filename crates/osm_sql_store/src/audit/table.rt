//! The tables of a store, and the statements that an audit asks them.

ghost use Rattle.std.specs.Prelude.{◌≡◌};
ghost use Rattle.osm_sql_store.specs.AuditedTables.{count_statement, select_statement};

use crate::schema::sql::{
    COUNT_BLOBS, COUNT_ELEMENTS, COUNT_LINKS, COUNT_TAGS, SELECT_ELEMENTS, SELECT_EXTENT,
    SELECT_LINKS, SELECT_TAGS,
};

/// The table of blobs, which both layouts have, or one of the layout of tables.
#[derive(Clone, Copy)]
pub(crate) enum AuditedTable {
    Blobs,
    Elements,
    Tags,
    Links,
}

impl AuditedTable {
    /// The statement that counts its rows.
    pub(crate) fn count_statement(self) -> &'static str
        ensures { result.now ≡ count_statement self }
    {
        match self {
            AuditedTable::Blobs => COUNT_BLOBS,
            AuditedTable::Elements => COUNT_ELEMENTS,
            AuditedTable::Tags => COUNT_TAGS,
            AuditedTable::Links => COUNT_LINKS,
        }
    }

    /// The statement that selects its rows at an offset, in their order.
    pub(crate) fn select_statement(self) -> &'static str
        ensures { result.now ≡ select_statement self }
    {
        match self {
            AuditedTable::Blobs => SELECT_EXTENT,
            AuditedTable::Elements => SELECT_ELEMENTS,
            AuditedTable::Tags => SELECT_TAGS,
            AuditedTable::Links => SELECT_LINKS,
        }
    }
}
