//! Primitive blocks and header blocks of PBF files, read from a slice of bytes.
#![tactic(auto)]

mod block;
mod deltas;
mod dense;
mod element_fields;
mod element_message;
mod fault;
pub mod fields;
mod group;
mod groups;
mod header;
mod info;
pub mod laws;
mod node;
mod number_array;
mod payloads;
mod ranges;
mod relation;
mod scale;
mod tag_list;
mod tags;
mod texts;
mod way;

pub use block::read_block;
pub use dense::DenseArrays;
pub use fault::{BlockError, BlockFault};
pub use groups::{BlockGroups, GroupElements, read_block_groups};
pub use header::{BBox, HeaderBlock, HeaderFault, Texts, read_header_block};
pub use scale::Scale;
