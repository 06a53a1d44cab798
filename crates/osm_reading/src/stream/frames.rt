//! The frames of a source, one after the other.

ghost use Rattle.std.specs.Prelude.{◌≡◌, ◌≤◌, ◌++◌, ◌↔◌, [], true, IfOk, IfErr};
ghost use Rattle.std.specs.Borrow.{sem};
ghost use Rattle.std.specs.Io.BufRead.{Rests};
ghost use Rattle.std.specs.Io.KnownBytes.{prepend_known};
ghost use Rattle.pbf_frame.specs.declared.part.TheConstants.{MAX_OFFSET};
ghost use Rattle.osm_reading.specs.declared.stream.fault.Stop.TheVariants.{Memory};
ghost use Rattle.osm_reading.specs.FrameReads.{Reading, ReadsFrame, IsReady};
ghost use Rattle.osm_reading.specs.Framings.{IsBegun};

use super::fault::{Stop, StreamFault};
use super::piece::Piece;
use super::reading::{absorb, read_frame};
use super::source::Source;
use pbf_frame::Framer;
use std::alloc::{AllocError, Global};
use std::marker::Model;

/// Gives the frames of a source, one after the other. It holds one frame and one piece of the input at most.
#[derive(Drop)]
pub struct FrameReader<R: Source> {
    framer: Framer,
    piece: Piece,
    reader: R,
    next_at: u64,
}

impl<R: Source> Model for FrameReader<R> {
    ghost Value = { Reading };

    ghost view = { λ r. record { offset = r.framer.offset; left = prepend_known (r.framer.rest ++ r.piece) (R.bytes_left r.reader); has_failed = R.has_failed r.reader; read = r.framer.rest ++ r.piece; behind = R.bytes_left r.reader } };

    ghost invariant = { λ r. (r.next_at ≡ r.framer.offset) × (r.next_at ≤ MAX_OFFSET) × IsBegun r.framer };
}

impl<R: Source> FrameReader<R> {
    ghost use Rattle.osm_reading.specs.contracts.stream.frames.FrameReader.{the_row};

    /// The frames of a reader that stands at the offset `from`, in bytes, at most 2^62. It reads nothing. Refused
    /// memory is a fault at that offset, the only one.
    pub fn new(alloc: Global, from: u64, reader: R) -> Result<FrameReader<R>, StreamFault>
    where
        R: Drop,
        requires { from ≤ MAX_OFFSET }
        ensures ok { IfOk result (λ r. r ≡ record { offset = from; left = R.bytes_left reader; has_failed = R.has_failed reader; read = []; behind = R.bytes_left reader }) }
        ensures err { IfErr result (λ stop. stop ≡ record { fault = Memory; at = from }) }
    {
        let Ok(piece) = Piece::new(alloc) else {
            return Err(StreamFault {
                fault: Stop::Memory,
                at: from,
            });
        };
        Ok(FrameReader {
            framer: Framer::new(alloc, from),
            piece,
            reader,
            next_at: from,
        })
    }

    /// Whether a whole frame was read, or bytes at whose fault `next` stops: the next call of `next` then answers
    /// without a read of the reader. An error where memory was refused; nothing is lost by it.
    pub fn is_ready(&mut self) -> Result<bool, AllocError>
        ensures kept { self.new ≡ self.old }
        ensures ready { IfOk result (λ ready. (ready ≡ true) ↔ IsReady self.new) }
    {
        absorb(&mut self.framer, &mut self.piece)
    }

    /// Lends the next frame, with its offset, and gives none where the input has ended behind the frame before. The
    /// reader is asked for bytes only where no whole frame was read. It stops, with the offset of the frame that was
    /// being read:
    ///
    /// - at a fault of a frame, also where the input ends inside one, and answers that fault again from then on;
    /// - with `ReadFailed` where a read failed, and then no whole frame is among the bytes that were read;
    /// - with `Memory` where memory was refused.
    ///
    /// At the last two nothing is lost.
    pub fn next(&mut self) -> Result<Option<(u64, &[u8])>, StreamFault>
        ensures* after { sem 𝓛 (Rests (the_row R.row R.Source) self.entry (λ new. ReadsFrame self.old new result)) }
    {
        let at = self.next_at;
        match read_frame(&mut self.framer, &mut self.piece, &mut self.reader) {
            Ok(()) => self.next_at = at + self.framer.held_bytes() as u64,
            Err(fault) => return Err(StreamFault { fault, at }),
        }
        match self.framer.next_frame() {
            Ok(lent) => Ok(lent),
            Err(fault) => Err(StreamFault {
                fault: Stop::Frame(fault),
                at,
            }),
        }
    }
}
