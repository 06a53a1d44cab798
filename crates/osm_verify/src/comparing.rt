//! One frame of a file and what a store holds at its offset.

ghost use Rattle.std.specs.Prelude.{◌≡◌, ◌==◌, ◌≤◌, length, find, filter, nat_le, IfOk, IfErr};
ghost use Rattle.sha2.specs.Sha256.{sha256};
ghost use Rattle.osm_rows.specs.Calls.{KeepsTables, OfHeld};
ghost use Rattle.osm_rows.specs.Keeping.{IsForeign, extents_of};
ghost use Rattle.osm_reading.specs.Good.{IsGood};
ghost use Rattle.osm_import.specs.Step.{HasCause};
ghost use Rattle.osm_import.specs.Stores.{Rereads};
ghost use Rattle.osm_verify.specs.Agreements.{IsAgreement, IsExtentOf, Tells, begins};
ghost use Rattle.osm_verify.specs.Audits.{IsEntryOf};

use crate::auditing::has_frame;
use osm_import::Good;
use osm_rows::{Audited, BlobReader, Extent, StoreFault};
use pbf_frame::MAX_OFFSET;
use sha2::{Digest, Sha256};
use std::alloc::{AllocError, Global};

/// How much of a held blob is compared.
#[derive(Clone, Copy, Debug, PartialEq, Eq)]
pub enum Depth {
    /// Its end, its SHA-256, its kind and how many elements it has.
    Extents,
    /// All rows of its elements too, and that there are no others.
    Elements,
}

/// How what is held at the offset of a good frame compares with the frame.
#[derive(Clone, Copy, Debug, PartialEq, Eq)]
pub enum Agreement {
    /// It is that of the frame.
    Same,
    /// Nothing is held there.
    Missing,
    /// It is another blob, or has other rows.
    Differs,
}

/// The one of these extents that begins at the offset.
fn extent_at(extents: &[Extent], off: u64) -> Option<Extent>
    ensures { result ≡ find (λ extent. extent.off == off) extents.now }
{
    for extent in extents {
        if extent.off == off {
            return Some(*extent);
        }
    }
    None
}

/// Whether the extent is that of these bytes, which end at `fin`. The digest comes last, since it takes the most time.
fn is_extent_of(found: &Extent, fin: u64, bytes: &[u8], good: &Good<'_>) -> bool
    ensures { Tells result (IsExtentOf found.now fin (sha256 bytes.now) good.now.kind (length good.now.elements.items)) }
{
    if found.fin != fin || found.kind != good.kind || found.n != good.elements.len() as u64 {
        return false;
    }
    let digest = Sha256::digest(bytes);
    found.digest == digest
}

/// How what a store holds at the offset `off`, in bytes, of a file compares with the good frame that the file has there,
/// of these bytes: `Missing` where nothing is held at the offset, `Same` where it is held with the frame's end, SHA-256,
/// kind and count of elements, and by `Depth::Elements` with the frame's elements, and `Differs` where it is held
/// otherwise. What is held stays.
///
/// Of the rows nothing has to be known: by `Depth::Elements` it is `Same` only where the rows at the offset are those that
/// an import of the frame writes, and no others.
///
/// An error is that of a read of the store that has failed, or `Memory` where memory was refused. Over an honest disk,
/// where the store holds a map, it is never `NotThisStore`.
pub fn compare<K: Audited>(
    alloc: Global,
    store: &mut K,
    off: u64,
    bytes: &[u8],
    good: &Good<'_>,
    depth: Depth,
) -> Result<Agreement, StoreFault>
    requires { IsGood off bytes.now good.now.kind good.now.elements.items }
    ensures compared { OfHeld K.BlobReader store.old store.new (λ held. IfOk result (IsAgreement depth held off bytes.now)) }
    ensures rows { K.is_honest store.new → K.is_open store.new → K.has_tables store.old → depth ≡ Depth.Elements
        → IfOk result (λ agreement. agreement ≡ Agreement.Same → IsEntryOf (K.has_rows (K.trees store.old) off) off bytes.now good.now.elements.items) }
    ensures same { KeepsTables K.BlobReader store.old store.new }
    ensures rereads { Rereads K.BlobReader store.old result store.new }
    ensures own { OfHeld K.BlobReader store.old store.new (λ _. IfErr result (λ fault. ¬ (IsForeign fault))) }
    ensures cause { IfErr result (HasCause (K.failures store.old) (K.failures store.new)) }
    ensures counted { K.failures store.old ≤ K.failures store.new }
{
    let fin = off + bytes.len() as u64;
    let touched = store.extents_touching(alloc, off, fin)?;
    let found = match extent_at(&touched, off) {
        Some(found) => found,
        None => return Ok(Agreement::Missing),
    };
    if !is_extent_of(&found, fin, bytes, good) {
        return Ok(Agreement::Differs);
    }
    if depth == Depth::Extents {
        return Ok(Agreement::Same);
    }
    if has_frame(alloc, store, off, bytes, good)? {
        return Ok(Agreement::Same);
    }
    Ok(Agreement::Differs)
}

/// Those of the extents that begin at `from` or behind.
fn from_on(alloc: Global, extents: &[Extent], from: u64) -> Result<Vec<Extent>, AllocError>
    ensures { IfOk result (λ later. later.items ≡ filter (λ extent. nat_le from extent.off) extents.now) }
{
    let mut later = Vec::new(alloc);
    for extent in extents {
        if from <= extent.off {
            later.push(*extent)?;
        }
    }
    Ok(later)
}

/// The held extents that begin in `from..to`, ascending by offset; both are offsets in bytes, `to` at most `MAX_OFFSET`.
/// Where `from` is `to` nothing is read.
/// What is held stays.
///
/// An error is that of a read of the store that has failed, or `Memory` where memory was refused. Over an honest disk,
/// where the store holds a map, it is never `NotThisStore`.
pub fn extents_beginning<K: BlobReader>(
    alloc: Global,
    store: &mut K,
    from: u64,
    to: u64,
) -> Result<Vec<Extent>, StoreFault>
    requires order { from ≤ to }
    requires limit { to ≤ MAX_OFFSET }
    ensures all { OfHeld K.BlobReader store.old store.new (λ held. IfOk result (λ extents. extents.items ≡ filter (begins from to) (extents_of held))) }
    ensures same { KeepsTables K.BlobReader store.old store.new }
    ensures rereads { Rereads K.BlobReader store.old result store.new }
    ensures own { OfHeld K.BlobReader store.old store.new (λ _. IfErr result (λ fault. ¬ (IsForeign fault))) }
    ensures cause { IfErr result (HasCause (K.failures store.old) (K.failures store.new)) }
    ensures counted { K.failures store.old ≤ K.failures store.new }
{
    if from == to {
        return Ok(Vec::new(alloc));
    }
    let touched = store.extents_touching(alloc, from, to)?;
    let beginning = from_on(alloc, &touched, from)?;
    Ok(beginning)
}
