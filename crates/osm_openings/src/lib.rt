//! How the trees of a database file are opened, by their list alone or with a look at all of them.
#![tactic(auto)]

mod catalog;
mod obstacles;
mod opening;
mod tables;
mod version;

pub use obstacles::{Obstacle, Obstruction, find_obstacle, find_unkept};
pub use tables::{open_checked_tables, open_tables};
