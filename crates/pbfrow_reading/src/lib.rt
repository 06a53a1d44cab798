//! The commands of pbfrow that only read a file, each a function over the reader and the writer that it is given: it answers
//! the exit status, 0 or 1, and opens no file and reads no command line.
#![tactic(auto)]

pub mod check;
pub mod input;
pub mod laws;
pub mod list;
pub mod metered;
pub mod progress;
pub mod ranges;
pub mod report;
pub mod show;
pub mod watcher;
