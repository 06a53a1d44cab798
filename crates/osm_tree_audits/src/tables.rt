//! The tables of elements, of tags and of links.

ghost use Rattle.std.specs.Prelude.{◌≡◌};
ghost use Rattle.osm_tree_audits.specs.ElementTables.{index_of, table_of, width_of};

use osm_rows::trees::{ELEMENT_KEY, ELEMENTS, LINK_KEY, LINKS, TAG_KEY, TAGS};
use std::fmt;

/// A table that has rows for the elements of a blob.
#[derive(Clone, Copy, Debug, PartialEq, Eq)]
pub enum ElementTable {
    Elements,
    Tags,
    Links,
}

impl fmt::Display for ElementTable {
    /// Its name in `sqlite_schema`.
    fn fmt<W: fmt::Write>(&self, f: &mut fmt::Formatter<W>) -> fmt::Result {
        f.write_str(match self {
            ElementTable::Elements => "element",
            ElementTable::Tags => "tag",
            ElementTable::Links => "link",
        })
    }
}

impl ElementTable {
    /// The number of its tree.
    pub(crate) fn table(self) -> u32
        ensures { result ≡ table_of self }
    {
        match self {
            ElementTable::Elements => ELEMENTS,
            ElementTable::Tags => TAGS,
            ElementTable::Links => LINKS,
        }
    }

    /// That of the index of its primary key.
    pub(crate) fn index(self) -> u32
        ensures { result ≡ index_of self }
    {
        match self {
            ElementTable::Elements => ELEMENT_KEY,
            ElementTable::Tags => TAG_KEY,
            ElementTable::Links => LINK_KEY,
        }
    }

    /// How many columns this key has.
    pub(crate) fn width(self) -> usize
        ensures { result ≡ width_of self }
    {
        match self {
            ElementTable::Elements => 2,
            ElementTable::Tags => 3,
            ElementTable::Links => 3,
        }
    }
}
