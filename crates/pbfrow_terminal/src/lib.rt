//! What the programs share at a terminal: how one begins with the words that it was started with, the commands that only read a
//! file, the output in large pieces, what a meter counts and when its line is due, and the exit status.
#![tactic(auto)]

pub mod ending;
pub mod entry;
pub mod meter;
pub mod output;
pub mod reading;
pub mod tally;
