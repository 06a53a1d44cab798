//! The tables of a store: their two layouts, the statements that make them, and the numbers of kinds.

pub(crate) mod codes;
mod layout;
pub(crate) mod sql;

pub use layout::{Layout, StoreLayout, Tables};
