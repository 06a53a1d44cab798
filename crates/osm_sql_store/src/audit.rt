//! Whether the rows of the tables are those of a blob, and how many there are, asked by SQL.

mod counts;
mod extent;
mod rows;
mod same;
mod table;

pub use counts::is_count;
pub(crate) use counts::{has_counts_of, has_table_counts};
pub(crate) use rows::{has_rows_of, shows_tables};
pub use same::{has_values, have_columns};
