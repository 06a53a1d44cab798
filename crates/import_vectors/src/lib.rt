//! The tests of the importer: what it is delivered, copies and takes from streams, over stores in memory and in files that
//! stop at a call; of parts; and of databases that are damaged.
#![tactic(auto)]

#[cfg(test)]
mod tests;
