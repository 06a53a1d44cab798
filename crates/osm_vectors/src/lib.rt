//! The tests of the wire format, of frames, of elements and their lines, of blocks read and written, and of columns; and what
//! they share with the tests of stores and of the importer: vectors of the format as bytes, builders of messages, and readers
//! and writers that fail.
#![tactic(auto)]

mod builders;
mod failing;
pub mod vectors;

pub use builders::{blob_of_length, frame_around};
pub use failing::{FailingReader, FailingWriter};

#[cfg(test)]
mod tests;
