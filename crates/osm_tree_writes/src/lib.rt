//! A blob put into the trees of a store that keeps elements in tables, with no word of SQL.
#![tactic(auto)]

mod added;
mod append;
mod fault;
mod free;
pub mod laws;
mod layout;
mod put;
mod rowid;

pub use added::{binds_a_store, is_added_index, is_of_a_store, plain_index, plain_indexes};
pub use fault::fault_of;
pub use put::{put_blob, takes_blobs};
