//! Which store a database is, how it is opened to be asked or to take blobs, and why it isn't.
#![tactic(auto)]

pub mod databases;
pub mod files;
pub mod reason;
pub mod stores;
pub mod trees;
