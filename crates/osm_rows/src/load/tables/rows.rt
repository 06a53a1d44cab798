//! The rows of some elements, in the layout of tables.

use crate::load::tables::part_row::PartRow;
use sqlite::Row;

/// The rows of some elements, and those of their tags and links, by offset, position and number.
#[derive(Debug, Drop)]
pub struct TableRows {
    /// Those of `element`.
    pub elements: Vec<Row>,
    /// Those of `tag`.
    pub tags: Vec<PartRow>,
    /// Those of `link`.
    pub links: Vec<PartRow>,
}
