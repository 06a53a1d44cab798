//! A store of blobs by SQL: over a connection, in the tables of any layout that says how it makes, fills and asks its own.
#![tactic(auto)]

mod audit;
mod blob_store;
mod failures;
pub mod laws;
mod layout;
mod load;
mod put;
mod schema;

pub use audit::{has_values, have_columns, is_count};
pub use blob_store::{BlobStore, TableStore};
pub use layout::SqlLayout;
pub use load::{all_extents, answer, integer, number};
pub use put::execute;
pub use schema::{has_shared_tables, has_table};
