//! Files that are only read: the frames of a source, one after the other; whether the blob of a frame is good; and the
//! lines of what is wrong.
#![tactic(auto)]

mod examination;
mod fault;
mod stream;

pub use examination::{ExamineFault, Good, examine, examine_frame};
pub use fault::Fault;
pub use stream::{
    FrameReader, Inlet, Piece, Source, SourceFailed, Stop, StreamFault, has_more, put_fault_at,
    put_plain_fault, read_frame,
};
