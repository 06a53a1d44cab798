//! Rows of the layout of tables, and the elements that they stand for.

mod elements;
mod part_row;
mod parts;
mod rows;
mod usual_role;

pub use part_row::PartRow;
pub use rows::TableRows;
