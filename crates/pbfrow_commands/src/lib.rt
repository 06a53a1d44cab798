//! The commands of pbfrow, each a function over the readers, writers and stores that it is given: it answers the exit
//! status, 0 or 1, and opens no file and reads no command line.
#![tactic(auto)]

pub mod counts;
pub mod export;
pub mod find;
pub mod import;
pub mod laws;
pub mod merge;
pub mod metered;
pub mod migrate;
pub mod parts;
pub mod report;
pub mod status;
pub mod verify;
pub mod verify_parts;
