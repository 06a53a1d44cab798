//! The decoder for programs in C and what calls C: a static library, over osm_columns. pbfrow.h declares its functions.
#![tactic(auto)]

mod blob;
mod block;
mod header;
pub mod laws;
mod names;

pub use blob::{BlobAt, pbfrow_blob_at};
pub use block::{pbfrow_block_columns, pbfrow_block_counts};
pub use header::{HeaderValues, pbfrow_header_block};
pub use names::pbfrow_fault_name;
