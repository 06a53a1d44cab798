//! The frames of a PBF file: a length, a BlobHeader and a Blob; and a file of frames cut into ranges.
#![tactic(auto)]

mod blob;
mod fault;
mod frame;
mod framer;
mod front;
mod header;
mod kind;
pub mod laws;
mod part;
mod ranges;
mod write;

pub use blob::{BlobFault, Compression, MAX_RAW, raw};
pub use fault::FrameFault;
pub use frame::{Frame, read_frame, whole_frame};
pub use framer::Framer;
pub use kind::Kind;
pub use part::MAX_OFFSET;
pub use ranges::{Range, ranges_of};
pub use write::write_frame;
