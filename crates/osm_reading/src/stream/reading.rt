//! The next frame of a source, piece by piece.

ghost use Rattle.std.specs.Prelude.{◌≡◌, ◌≤◌, ◌<◌, ◌↔◌, ◌++◌, [], true, false, Some, IfOk, IfErr, OnErr, OnOk, length};
ghost use Rattle.std.specs.Io.KnownBytes.{Consumes, IsAtEnd, prepend_known};
ghost use Rattle.pbf_frame.specs.Parts.{is_cut};
ghost use Rattle.osm_reading.specs.Framings.{Moved, ReadHasCause, IsFull, IsBegun, HasFull};
ghost use Rattle.osm_reading.specs.FrameReads.{HasFrame, LacksFrame};

use super::fault::Stop;
use super::piece::Piece;
use super::source::{Source, SourceFailed};
use pbf_frame::{FrameFault, Framer};
use std::alloc::AllocError;

/// Whether the input has a byte; the piece then has one.
pub fn has_more<R: Source>(piece: &mut Piece, reader: &mut R) -> Result<bool, SourceFailed>
    ensures kept { Consumes (prepend_known piece.old (R.bytes_left reader.old)) (prepend_known piece.new (R.bytes_left reader.new)) [] }
    ensures more { IfOk result (λ more. more ≡ true → 0 < length piece.new) }
    ensures ended { IfOk result (λ more. more ≡ false → (piece.new ≡ []) × IsAtEnd (R.bytes_left reader.new)) }
    ensures failed { OnErr result (R.has_failed reader.new ≡ true) }
    ensures empty { OnErr result (piece.new ≡ []) }
{
    if !piece.unread().is_empty() {
        return Ok(true);
    }
    piece.refill(reader)?;
    Ok(!piece.unread().is_empty())
}

/// Whether the fault is that of bytes that end too early.
fn is_cut(fault: FrameFault) -> bool
    ensures { result ≡ is_cut fault }
{
    matches!(
        fault,
        FrameFault::LengthCut | FrameFault::HeaderCut | FrameFault::BlobCut
    )
}

/// Whether the framer takes no more: a frame waits in it, or a fault applies.
fn is_full(framer: &Framer) -> bool
    requires { framer.now.lent ≡ [] }
    ensures { (result ≡ true) ↔ IsFull framer.now }
{
    match framer.end() {
        Ok(()) => framer.held_bytes() > 0,
        Err(fault) => !is_cut(fault),
    }
}

/// Feeds the framer what is unread, and answers whether it takes no more; nothing is unread otherwise.
pub(super) fn absorb(framer: &mut Framer, piece: &mut Piece) -> Result<bool, AllocError>
    ensures moved { Moved framer.old framer.new (Some piece.old) (Some piece.new) }
    ensures full { IfOk result (λ is_full. (is_full ≡ true) ↔ IsFull framer.new) }
    ensures spent { IfOk result (λ is_full. is_full ≡ false → piece.new ≡ []) }
    ensures begun { IsBegun framer.old → IsBegun framer.new }
    ensures let_go { framer.new.lent ≡ [] }
    ensures within { length framer.new.rest ≤ 33685507 }
{
    loop {
        let count = framer.feed(piece.unread())?;
        if count == 0 {
            return Ok(is_full(framer));
        }
        piece.skip(count);
    }
}

/// Feeds the framer until it takes no more, which is true, or the input ends, which is false. The reader is asked for
/// bytes only where the framer takes more.
fn fill<R: Source>(framer: &mut Framer, piece: &mut Piece, reader: &mut R) -> Result<bool, Stop>
    ensures moved { Moved framer.old framer.new (prepend_known piece.old (R.bytes_left reader.old)) (prepend_known piece.new (R.bytes_left reader.new)) }
    ensures full { IfOk result (λ is_full. is_full ≡ true → IsFull framer.new) }
    ensures ended { IfOk result (λ is_full. is_full ≡ false → (piece.new ≡ []) × IsAtEnd (R.bytes_left reader.new)) }
    ensures cause { IfErr result (ReadHasCause (R.has_failed reader.new)) }
    ensures late { IsBegun framer.old → HasFull framer.old.offset (framer.old.rest ++ piece.old) → reader.new ≡ reader.old }
    ensures unread { IfErr result (λ stop. stop ≡ Stop.ReadFailed → ¬ (IsFull framer.new) × (piece.new ≡ [])) }
    ensures begun { IsBegun framer.old → IsBegun framer.new }
    ensures let_go { framer.new.lent ≡ [] }
{
    loop {
        match absorb(framer, piece) {
            Ok(true) => return Ok(true),
            Ok(false) => {}
            Err(_) => return Err(Stop::Memory),
        }
        match has_more(piece, reader) {
            Ok(true) => {}
            Ok(false) => return Ok(false),
            Err(_) => return Err(Stop::ReadFailed),
        }
    }
}

/// Reads until a frame waits or the input ends behind the frame before.
pub fn read_frame<R: Source>(
    framer: &mut Framer,
    piece: &mut Piece,
    reader: &mut R,
) -> Result<(), Stop>
    ensures moved { Moved framer.old framer.new (prepend_known piece.old (R.bytes_left reader.old)) (prepend_known piece.new (R.bytes_left reader.new)) }
    ensures late { IsBegun framer.old → HasFull framer.old.offset (framer.old.rest ++ piece.old) → reader.new ≡ reader.old }
    ensures ok { OnOk result (HasFrame framer.new (prepend_known piece.new (R.bytes_left reader.new))) }
    ensures spent { IfErr result (λ stop. stop ≡ Stop.ReadFailed → piece.new ≡ []) }
    ensures begun { IsBegun framer.old → IsBegun framer.new }
    ensures err { IfErr result (LacksFrame framer.new (prepend_known piece.new (R.bytes_left reader.new)) (R.has_failed reader.new)) }
    ensures let_go { framer.new.lent ≡ [] }
{
    match fill(framer, piece, reader) {
        Ok(_) => {}
        Err(stop) => return Err(stop),
    }
    match framer.end() {
        Ok(()) => Ok(()),
        Err(fault) => Err(Stop::Frame(fault)),
    }
}
