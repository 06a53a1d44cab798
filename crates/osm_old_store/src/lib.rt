//! Stores of blobs in the first layout of pbfrow's databases, by SQL: each element is a row with a block of its own. What all
//! layouts have in common is that of `osm_sql_store`.
#![tactic(auto)]

mod audit;
pub mod laws;
mod layout;
mod load;
mod put;
mod schema;

pub use layout::{Bodies, BodyStore};
