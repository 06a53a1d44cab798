//! The blobs of several stores in one row, each of them once.

ghost use Rattle.std.specs.Prelude.{◌≡◌, ◌++◌, IfOk, IfErr, OnOk, IsPermutation};
ghost use Rattle.std.specs.List.Sorted.{IsNonDecreasingBy};
ghost use Rattle.osm_parts.specs.Pieces.{offset_of, pieces_of, AreOnce, IsNext, IsAmong, IsInTheWay};

use crate::fault::PartsFault;
use osm_import::Conflict;
use osm_rows::Extent;
use std::alloc::{AllocError, Global};

/// A blob of one of the stores.
#[derive(Clone, Copy, Debug)]
pub(crate) struct Piece {
    /// The place of its store in the list of stores, from 0.
    pub(crate) place: u64,
    /// Where it stands.
    pub(crate) extent: Extent,
    /// Whether an element of its store has a flag of visibility. It is false where that wasn't asked.
    pub(crate) history: bool,
}

/// Puts the blobs at these extents of a store behind the others.
pub(crate) fn add_pieces(
    pieces: &mut Vec<Piece>,
    place: u64,
    history: bool,
    extents: &[Extent],
) -> Result<(), AllocError>
    ensures { OnOk result (pieces.new.items ≡ pieces.old.items ++ pieces_of place history extents.now) }
{
    for extent in extents {
        pieces.push(Piece {
            place,
            extent: *extent,
            history,
        })?;
    }
    Ok(())
}

/// The pieces by offset. Of those at one offset that of the lowest place comes first, if they came by place.
pub(crate) fn by_offset(mut pieces: Vec<Piece>) -> Result<Vec<Piece>, AllocError>
    ensures same { IfOk result (λ sorted. IsPermutation pieces.items sorted.items) }
    ensures sorted { IfOk result (λ sorted. IsNonDecreasingBy offset_of sorted.items) }
{
    pieces.sort_by_key(|piece| piece.extent.off)?;
    Ok(pieces)
}

/// Puts a piece behind those before it, unless the last of them has its extent.
fn add_once(kept: &mut Vec<Piece>, piece: &Piece) -> Result<(), PartsFault>
    ensures next { OnOk result (IsNext piece.now kept.old.items kept.new.items) }
    ensures refused { IfErr result (IsInTheWay piece.now kept.old.items) }
{
    if let Some(last) = kept.last() {
        if last.extent == piece.extent {
            return Ok(());
        }
        if last.extent.off == piece.extent.off {
            return Err(PartsFault::Refused(Conflict::Differs, piece.extent.off));
        }
        if piece.extent.off < last.extent.fin {
            return Err(PartsFault::Refused(Conflict::Overlap, piece.extent.off));
        }
    }
    kept.push(*piece)?;
    Ok(())
}

/// Of pieces that come by offset those whose extent the one before doesn't have. An error says which two are in each
/// other's way: where both begin at the same offset with different extents, or one begins inside the other.
pub(crate) fn each_once(alloc: Global, pieces: &[Piece]) -> Result<Vec<Piece>, PartsFault>
    ensures once { IfOk result (λ kept. AreOnce pieces.now kept.items) }
    ensures refused { IsNonDecreasingBy offset_of pieces.now → IfErr result (IsAmong pieces.now) }
{
    let mut kept = Vec::new(alloc);
    for piece in pieces {
        add_once(&mut kept, piece)?;
    }
    Ok(kept)
}
