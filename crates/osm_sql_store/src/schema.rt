//! The tables of a store: every statement on them, and how they are made and known again.

mod create;
mod opening;
pub(crate) mod sql;
mod tables;
mod version;

pub(crate) use create::make_table_layout;
pub(crate) use opening::{adopt_store, create_store};
pub(crate) use tables::has_tables;
pub use tables::{has_shared_tables, has_table};
