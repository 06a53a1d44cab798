//! The front of a frame: the length of its header, and the header.

ghost use Rattle.std.specs.Prelude.{IfOk};
ghost use Rattle.pbf_wire.specs.Fault.{ReturnsReading};
ghost use Rattle.pbf_frame.specs.Front.{IsWithin, begun, front_at};
ghost use Rattle.std.specs.Prelude.{length};

use crate::fault::FrameFault;
use crate::header::read_header;

/// How many bytes say how long the header is.
pub(crate) const LENGTH_BYTES: usize = 4;

/// The longest header: it is less than 64 KiB (fileformat.proto; OpenStreetMap Wiki, "PBF Format", "File format").
const MAX_HEADER: usize = 65_535;

/// The part of a frame that isn't whole yet, as far as its length bytes and its header tell.
#[derive(Clone, Copy, Debug)]
pub(crate) enum Front<'a> {
    /// Fewer than four bytes are there.
    Length,
    /// Fewer bytes are there than up to the end of the header.
    Header {
        end: usize,
    },
    /// The header is there. It names the type, and the size of the blob that starts behind it.
    Blob {
        type_name: &'a [u8],
        start: usize,
        size: usize,
    },
}

/// What the front of the bytes says.
#[tactic(auto, unfolding(crate::specs::Front::front_at))]
pub(crate) fn read_front(bytes: &[u8]) -> Result<Front<'_>, FrameFault>
    ensures within { IfOk result (λ front. IsWithin front (length bytes.now)) }
    ensures exact { ReturnsReading begun result (front_at bytes.now) }
{
    let Some((name, rest)) = bytes.split_first_chunk::<LENGTH_BYTES>() else {
        return Ok(Front::Length);
    };
    let header_len = u32::from_be_bytes(*name) as usize;
    if header_len > MAX_HEADER {
        return Err(FrameFault::HeaderTooLong);
    }
    let start = LENGTH_BYTES + header_len;
    if rest.len() < header_len {
        return Ok(Front::Header { end: start });
    }
    let (type_name, size) = read_header(&rest[..header_len])?;
    Ok(Front::Blob {
        type_name,
        start,
        size,
    })
}
