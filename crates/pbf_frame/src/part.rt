//! The parts of a frame: its length bytes, its header and its blob.

ghost use Rattle.std.specs.Prelude.{◌≡◌, ◌≤◌, IfOk};
ghost use Rattle.pbf_frame.specs.Parts.{HasBegun, end_after, end_of, part_at};

use crate::fault::FrameFault;
use crate::front::{Front, LENGTH_BYTES, read_front};

/// The greatest offset at which a frame ends, in bytes: 2^62.
pub const MAX_OFFSET: u64 = 4_611_686_018_427_387_904;

/// The part of a frame that has begun. The parts before it are whole.
#[derive(Clone, Copy, Debug)]
pub(crate) enum Part {
    /// The bytes that say how long the header is.
    Length,
    /// The header, which ends behind so many bytes of the frame.
    Header { end: usize },
    /// The blob, which ends behind so many bytes of the frame.
    Blob { end: usize },
}

impl Part {
    /// How many bytes the frame has up to the end of this part.
    pub(crate) fn end(self) -> usize
        ensures { result ≡ end_of self }
    {
        match self {
            Part::Length => LENGTH_BYTES,
            Part::Header { end } => end,
            Part::Blob { end } => end,
        }
    }

    /// Whether an input may end here, with so many bytes of the frame; a whole frame is there or the part is cut.
    pub(crate) fn end_after(self, len: usize) -> Result<(), FrameFault>
        ensures { result ≡ end_after len self }
    {
        match self {
            Part::Length => Err(FrameFault::LengthCut),
            Part::Header { .. } => Err(FrameFault::HeaderCut),
            Part::Blob { end } if len < end => Err(FrameFault::BlobCut),
            Part::Blob { .. } => Ok(()),
        }
    }

    /// The part that has begun where the frame has these bytes by now, this one being the part before they came. The
    /// front is read again only where this part is full and isn't the last.
    pub(crate) fn after(self, offset: u64, bytes: &[u8]) -> Result<Part, FrameFault>
        requires small { offset ≤ MAX_OFFSET }
        requires begun { HasBegun offset self bytes.now }
        ensures exact { result ≡ part_at offset bytes.now }
        ensures small { IfOk result (λ part. end_of part ≤ 33685507) }
    {
        match self {
            Part::Blob { .. } => Ok(self),
            _ if bytes.len() < self.end() => Ok(self),
            _ => begun_part(offset, bytes),
        }
    }
}

/// The part of which the bytes have begun, as their front says; or the fault that stands, though the rest of the frame
/// be missing.
fn begun_part(offset: u64, bytes: &[u8]) -> Result<Part, FrameFault>
    requires { offset ≤ MAX_OFFSET }
    ensures exact { result ≡ part_at offset bytes.now }
    ensures small { IfOk result (λ part. end_of part ≤ 33685507) }
{
    match read_front(bytes)? {
        Front::Length => Ok(Part::Length),
        Front::Header { end } => Ok(Part::Header { end }),
        Front::Blob { start, size, .. } => {
            let end = start + size;
            if end as u64 > MAX_OFFSET - offset {
                return Err(FrameFault::OffsetTooLarge);
            }
            Ok(Part::Blob { end })
        }
    }
}
