//! Tests of the commands through their public calls, over readers, writers and stores that fail, and of what no output of a
//! command shows. What they write over files, and the words that name them, the end-to-end checks see.
#![tactic(auto)]

#[cfg(test)]
mod tests;
