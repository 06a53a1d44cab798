//! In which order SQLite keeps an index, or a table `WITHOUT ROWID`, as its text and that of its table ask.
#![tactic(auto)]

mod keys;
mod order;
#[cfg(test)]
mod tests;
mod text;

pub use order::{first_untold, index_order, told_order};
