//! The rows that a blob's elements stand for, before they are written.

mod table_row;
mod tables;

pub use table_row::{ElementRow, LinkRow, TableRow, TagRow};
pub use tables::{element_rows, link_rows, tag_rows};
