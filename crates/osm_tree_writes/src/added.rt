//! Indexes added to the tables of a store, as the list of a database's objects tells of them.

mod index;
mod row;
mod table;

pub use index::{plain_index, plain_indexes};
pub use row::{binds_a_store, is_added_index, is_of_a_store};
