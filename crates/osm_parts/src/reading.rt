//! What several stores hold together, read of one after the other.

ghost use Rattle.std.specs.Prelude.{◌≡◌, ◌≤◌, ℕ, Bool, ◌&&◌, List, Some, IfOk, IfErr, length, slice_get};
ghost use Rattle.osm_rows.specs.Flags.{has_flags};
ghost use Rattle.osm_rows.specs.Held.{HeldMap, IsApart};
ghost use Rattle.osm_rows.specs.Calls.{OfHeld};
ghost use Rattle.osm_rows.specs.Keeping.{IsForeign, extents_of};
ghost use Rattle.osm_import.specs.Gaps.{AreGaps};
ghost use Rattle.osm_import.specs.Step.{HasCause};
ghost use Rattle.osm_import.specs.Stores.{Rereads};
ghost use Rattle.osm_parts.specs.Opening.{OnlyOpens};
ghost use Rattle.osm_parts.specs.Parts.{AreParts};
ghost use Rattle.osm_parts.specs.PartsFaults.{IsOfMaps, PartsFaultHasCause};
ghost use Rattle.osm_parts.specs.Pieces.{AreGathered};
ghost use Rattle.osm_parts.specs.Reading.{IsReadOf, AreStores, AreRead, joined_extents};
ghost use Rattle.osm_parts.specs.Runs.{AreFew};

use crate::fault::PartsFault;
use crate::openings::Openings;
use crate::pieces::{Piece, add_pieces, by_offset, each_once};
use crate::runs::{Part, cut_into_runs, first_return};
use osm_import::gaps_between;
use osm_rows::{BlobReader, Extent, StoreFault};
use std::alloc::{AllocError, Global};

/// Whether one of its elements has a flag of visibility, if that is asked.
fn history_of<K: BlobReader>(alloc: Global, store: &mut K, asked: bool) -> Result<bool, StoreFault>
    ensures flags { OfHeld K.BlobReader store.old store.new (λ held. IfOk result (λ found. found ≡ (asked && has_flags held))) }
    ensures rereads { Rereads K.BlobReader store.old result store.new }
    ensures own { OfHeld K.BlobReader store.old store.new (λ _. IfErr result (λ fault. ¬ (IsForeign fault))) }
    ensures cause { IfErr result (HasCause (K.failures store.old) (K.failures store.new)) }
    ensures counted { K.failures store.old ≤ K.failures store.new }
{
    if asked {
        store.history(alloc)
    } else {
        Ok(false)
    }
}

/// What is read of the store at a place.
fn read_store<K: BlobReader>(
    alloc: Global,
    store: &mut K,
    place: u64,
    asks_history: bool,
) -> Result<Part, StoreFault>
    ensures told { OfHeld K.BlobReader store.old store.new (λ held. IfOk result (IsReadOf asks_history place held)) }
    ensures rereads { Rereads K.BlobReader store.old result store.new }
    ensures own { OfHeld K.BlobReader store.old store.new (λ _. IfErr result (λ fault. ¬ (IsForeign fault))) }
    ensures cause { IfErr result (HasCause (K.failures store.old) (K.failures store.new)) }
{
    let extents = store.extents(alloc)?;
    let history = history_of(alloc, store, asks_history)?;
    Ok(Part {
        place,
        extents,
        history,
    })
}

/// What is read of the store at a place, which is opened and closed.
fn read_part<K: BlobReader + Drop, O: Openings<K>>(
    alloc: Global,
    openings: &mut O,
    place: u64,
    asks_history: bool,
) -> Result<Part, StoreFault>
    ensures told { (maps : List HeldMap) (held : HeldMap) → O.holds openings.old maps → O.is_honest openings.new → slice_get maps place ≡ Some held
        → IfOk result (IsReadOf asks_history place held) }
    ensures opens { OnlyOpens O.holds O.is_honest O.is_open openings.old result openings.new }
    ensures own { (maps : List HeldMap) → O.holds openings.old maps → O.is_honest openings.new → IfErr result (λ fault. ¬ (IsForeign fault)) }
    ensures apart { (maps : List HeldMap) (held : HeldMap) → O.holds openings.old maps → O.is_honest openings.new → slice_get maps place ≡ Some held
        → IfOk result (λ _. IsApart held) }
    ensures cause { IfErr result (HasCause (O.failures openings.old) (O.failures openings.new)) }
    ensures counted { O.failures openings.old ≤ O.failures openings.new }
{
    let mut store = openings.open(place)?;
    let answer = read_store(alloc, &mut store, place, asks_history);
    openings.close(store);
    answer
}

/// The blobs of the stores at `count` places, each store opened, read and closed in turn.
fn gather<K: BlobReader + Drop, O: Openings<K>>(
    alloc: Global,
    openings: &mut O,
    count: u64,
    asks_history: bool,
) -> Result<Vec<Piece>, StoreFault>
    ensures read { (maps : List HeldMap) → O.holds openings.old maps → O.is_honest openings.new → length maps ≡ count
        → IfOk result (λ pieces. AreGathered maps asks_history count pieces.items) }
    ensures own { (maps : List HeldMap) → O.holds openings.old maps → O.is_honest openings.new → IfErr result (λ fault. ¬ (IsForeign fault)) }
    ensures opens { OnlyOpens O.holds O.is_honest O.is_open openings.old result openings.new }
    ensures cause { IfErr result (HasCause (O.failures openings.old) (O.failures openings.new)) }
    ensures counted { O.failures openings.old ≤ O.failures openings.new }
{
    let mut pieces = Vec::new(alloc);
    for place in 0..count {
        let part = read_part(alloc, openings, place, asks_history)?;
        add_pieces(&mut pieces, place, part.history, &part.extents)?;
    }
    Ok(pieces)
}

/// The runs of these blobs, if there aren't more than twice as many as stores.
fn runs_of(alloc: Global, pieces: Vec<Piece>, count: u64) -> Result<Vec<Part>, PartsFault>
    ensures read { (maps : List HeldMap) (asked : Bool) → AreGathered maps asked count pieces.items → length maps ≡ count → IfOk result (λ parts. AreRead maps asked parts.items) }
    ensures few { IfOk result (λ parts. AreFew count parts.items) }
    ensures fault { (maps : List HeldMap) (asked : Bool) → AreGathered maps asked count pieces.items → length maps ≡ count → IfErr result (IsOfMaps maps) }
    ensures cause { IfErr result (λ fault. (before : ℕ) (now : ℕ) → PartsFaultHasCause before now fault) }
{
    let sorted = by_offset(pieces)?;
    let pieces = each_once(alloc, &sorted)?;
    let parts = cut_into_runs(alloc, &pieces)?;
    if parts.len() as u64 > count.saturating_mul(2) {
        if let Some(off) = first_return(&parts) {
            return Err(PartsFault::Interleaved(off));
        }
    }
    Ok(parts)
}

/// The blobs of the stores at `count` places, by offset and cut into runs, each of successive blobs of one store; each
/// store is opened, read and closed in turn. Of blobs with the same extent at the same offset one counts, that of the
/// lowest place. Whether elements have flags of visibility is read where `asks_history`. What each store holds stays.
///
/// An error is `Refused` with `Differs` where two stores hold blobs at one offset whose extents differ, or with `Overlap`
/// where a blob begins inside another one's bytes, at its beginning; `Interleaved` where there are more than twice as many
/// runs as stores, with the offset of a run that lies between two of another store; or `Store`, the fault of an opening or
/// of a read, or refused memory.
pub fn read_parts<K: BlobReader + Drop, O: Openings<K>>(
    alloc: Global,
    openings: &mut O,
    count: u64,
    asks_history: bool,
) -> Result<Vec<Part>, PartsFault>
    ensures read { (maps : List HeldMap) → O.holds openings.old maps → O.is_honest openings.new → length maps ≡ count
        → IfOk result (λ parts. AreRead maps asks_history parts.items) }
    ensures few { IfOk result (λ parts. AreFew count parts.items) }
    ensures fault { (maps : List HeldMap) → O.holds openings.old maps → O.is_honest openings.new → length maps ≡ count → IfErr result (IsOfMaps maps) }
    ensures opens { OnlyOpens O.holds O.is_honest O.is_open openings.old result openings.new }
    ensures cause { IfErr result (PartsFaultHasCause (O.failures openings.old) (O.failures openings.new)) }
    ensures counted { O.failures openings.old ≤ O.failures openings.new }
{
    let pieces = gather(alloc, openings, count, asks_history)?;
    runs_of(alloc, pieces, count)
}

/// The blobs of all that was read of stores.
fn pieces_of_stores(alloc: Global, stores: &[Part]) -> Result<Vec<Piece>, AllocError>
    ensures { (maps : List HeldMap) (asked : Bool) → AreStores asked 0 maps stores.now → IfOk result (λ pieces. AreGathered maps asked (length stores.now) pieces.items) }
{
    let mut pieces = Vec::new(alloc);
    for own in stores {
        add_pieces(&mut pieces, own.place, own.history, &own.extents)?;
    }
    Ok(pieces)
}

/// What `read_parts` reads of stores, where all their extents were read already, those of each at its place. An error is
/// one of its own, or refused memory.
pub fn parts_of(alloc: Global, stores: &[Part]) -> Result<Vec<Part>, PartsFault>
    ensures read { (maps : List HeldMap) (asked : Bool) → AreStores asked 0 maps stores.now → IfOk result (λ parts. AreRead maps asked parts.items) }
    ensures few { IfOk result (λ parts. AreFew (length stores.now) parts.items) }
    ensures fault { (maps : List HeldMap) (asked : Bool) → AreStores asked 0 maps stores.now → IfErr result (IsOfMaps maps) }
    ensures cause { IfErr result (λ fault. (before : ℕ) (now : ℕ) → PartsFaultHasCause before now fault) }
{
    let pieces = pieces_of_stores(alloc, stores)?;
    runs_of(alloc, pieces, stores.len() as u64)
}

/// All extents of the parts, by offset: those of the map that holds what the runs hold.
pub fn extents_of_parts(alloc: Global, parts: &[Part]) -> Result<Vec<Extent>, AllocError>
    ensures joined { IfOk result (λ extents. extents.items ≡ joined_extents parts.now) }
    ensures whole { (maps : List HeldMap) (asked : Bool) (whole : HeldMap) (read : AreRead maps asked parts.now) → AreParts read.ordered whole
        → IfOk result (λ extents. extents.items ≡ extents_of whole) }
{
    let mut extents = Vec::new(alloc);
    for part in parts {
        extents.extend_from_slice(&part.extents)?;
    }
    Ok(extents)
}

/// The maximal ranges within `0..size` that no extent of the parts covers, as `gaps` tells them of one store that holds
/// all of their blobs, each once. The one error is refused memory.
pub fn gaps_of_parts(
    alloc: Global,
    parts: &[Part],
    size: u64,
) -> Result<Vec<(u64, u64)>, AllocError>
    ensures { (maps : List HeldMap) (asked : Bool) (whole : HeldMap) (read : AreRead maps asked parts.now) → AreParts read.ordered whole
        → IfOk result (λ gaps. AreGaps whole size gaps.items) }
{
    let extents = extents_of_parts(alloc, parts)?;
    let gaps = gaps_between(alloc, &extents, size)?;
    Ok(gaps)
}
