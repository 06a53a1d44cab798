//! The tests of stores in memory: what they answer, the rows of their tables, and what is told of rows that were changed.
#![tactic(auto)]

#[cfg(test)]
mod tests;
