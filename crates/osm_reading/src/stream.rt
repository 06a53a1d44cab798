//! The frames of a source, one after the other, and the lines of its faults.

mod fault;
mod frames;
mod line;
mod piece;
mod reading;
mod source;

pub use fault::{Stop, StreamFault};
pub use frames::FrameReader;
pub use line::{put_fault_at, put_plain_fault};
pub use piece::Piece;
pub use reading::{has_more, read_frame};
pub use source::{Inlet, Source, SourceFailed};
