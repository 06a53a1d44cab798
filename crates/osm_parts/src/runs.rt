//! Rows of successive blobs of one store.

ghost use Rattle.std.specs.Prelude.{◌≡◌, ◌+◌, ◌<◌, ◌↔◌, length, IsTrue, IfOk, IfSome, IfNone, OnOk};
ghost use Rattle.osm_parts.specs.Runs.{first_offset, AreCut, IsPut, HasPlace, ReturnsAt, IsBetween, NoneReturns};

use crate::pieces::Piece;
use osm_rows::Extent;
use std::alloc::{AllocError, Global};

/// A run: successive blobs of one store, behind which, if more follow, the next blob is of another.
#[derive(Debug, Drop)]
pub struct Part {
    /// The place of the store in the list of stores, from 0.
    pub place: u64,
    /// The extents of the blobs, by offset: one at least.
    pub extents: Vec<Extent>,
    /// Whether an element of the store has a flag of visibility. It is false where that wasn't asked.
    pub history: bool,
}

/// Puts a piece into the last run, or behind it, as one of its own, if it is of another store.
fn add_to_runs(alloc: Global, parts: &mut Vec<Part>, piece: &Piece) -> Result<(), AllocError>
    ensures { OnOk result (IsPut piece.now parts.old.items parts.new.items) }
{
    if let Some(mut last) = parts.pop() {
        if last.place == piece.place {
            last.extents.push(piece.extent)?;
            parts.push(last)?;
            return Ok(());
        }
        parts.push(last)?;
    }
    let mut extents = Vec::new(alloc);
    extents.push(piece.extent)?;
    parts.push(Part {
        place: piece.place,
        extents,
        history: piece.history,
    })?;
    Ok(())
}

/// The runs of these pieces, in turn.
pub(crate) fn cut_into_runs(alloc: Global, pieces: &[Piece]) -> Result<Vec<Part>, AllocError>
    ensures { IfOk result (λ parts. AreCut parts.items pieces.now) }
{
    let mut parts = Vec::new(alloc);
    for piece in pieces {
        add_to_runs(alloc, &mut parts, piece)?;
    }
    Ok(parts)
}

/// Where the first of these extents begins, 0 where there is none.
fn first_offset(extents: &[Extent]) -> u64
    ensures { result ≡ first_offset extents.now }
{
    match extents.first() {
        Some(extent) => extent.off,
        None => 0,
    }
}

/// Whether one of the runs is of the store at this place.
fn has_place(parts: &[Part], place: u64) -> bool
    ensures { IsTrue result ↔ HasPlace place parts.now }
{
    for part in parts {
        if part.place == place {
            return true;
        }
    }
    false
}

/// Whether the run behind the one at an index comes back to a store which was left before.
fn returns_at(parts: &[Part], index: usize) -> bool
    requires { index + 1 < length parts.now }
    ensures { IsTrue result ↔ ReturnsAt parts.now index }
{
    let place = parts[index + 1].place;
    parts[index].place != place && has_place(&parts[..index], place)
}

/// Where the run begins before the first one that comes back to a store which was left before.
pub(crate) fn first_return(parts: &[Part]) -> Option<u64>
    ensures found { IfSome result (IsBetween parts.now) }
    ensures none { IfNone result (NoneReturns parts.now) }
{
    for index in 1..parts.len().saturating_sub(1) {
        if returns_at(parts, index) {
            return Some(first_offset(&parts[index].extents));
        }
    }
    None
}
