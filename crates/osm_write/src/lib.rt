//! The one block that is written for a list of elements.
#![tactic(auto)]

mod append;
mod block;
mod collect;
mod cutter;
mod dense;
mod fault;
mod group;
mod groups;
mod header;
mod info;
pub mod laws;
mod message;
mod scale;
mod texts;

pub use block::{MAX_BLOCK_LEN, encode_block, encode_one};
pub use cutter::BlobCutter;
pub use fault::WriteFault;
pub use header::encode_header;
