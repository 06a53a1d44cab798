//! One blob more, with its elements: in one transaction, all of it or nothing.

mod batch;
mod statement;
mod tables;
mod transaction;

pub use statement::execute;
pub(crate) use tables::add_table_rows;
pub(crate) use transaction::put_rows;
