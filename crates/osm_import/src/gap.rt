//! What no held extent covers.

ghost use Rattle.std.specs.Prelude.{◌≡◌, IfOk, IfErr, OnOk};
ghost use Rattle.osm_rows.specs.Calls.{OfHeld};
ghost use Rattle.osm_rows.specs.Keeping.{IsForeign};
ghost use Rattle.osm_import.specs.Gaps.{AreGaps, gap_before, ranges_between};
ghost use Rattle.osm_import.specs.Step.{HasCause};
ghost use Rattle.osm_import.specs.Stores.{Rereads};

use osm_rows::{BlobReader, Extent, StoreFault};
use std::alloc::{AllocError, Global};

/// The bytes from `end` to `next`, within the size, if there are any.
pub(crate) fn gap_before(end: u64, next: u64, size: u64) -> Option<(u64, u64)>
    ensures { result ≡ gap_before end next size }
{
    let to = next.min(size);
    if end < to { Some((end, to)) } else { None }
}

/// The ranges within `0..size` between extents, which ascend, each as its first offset and the offset behind its last byte,
/// in bytes.
pub fn gaps_between(
    alloc: Global,
    extents: &[Extent],
    size: u64,
) -> Result<Vec<(u64, u64)>, AllocError>
    ensures { IfOk result (λ gaps. gaps.items ≡ ranges_between 0 size extents.now) }
{
    let mut gaps = Vec::new(alloc);
    let mut end = 0;
    for extent in extents {
        if let Some(gap) = gap_before(end, extent.off, size) {
            gaps.push(gap)?;
        }
        end = end.max(extent.fin);
    }
    if let Some(gap) = gap_before(end, size, size) {
        gaps.push(gap)?;
    }
    Ok(gaps)
}

/// The maximal ranges within `0..size` that no held extent covers, ascending, each as its first offset and the offset
/// behind its last byte, in bytes. What is held past the size is left aside. What is held stays, also after an error.
///
/// An error is that of a read of the store that has failed, or `Memory` where memory was refused. Over an honest disk,
/// where the store holds a map, it is never `NotThisStore`.
pub fn gaps<K: BlobReader>(
    alloc: Global,
    keeper: &mut K,
    size: u64,
) -> Result<Vec<(u64, u64)>, StoreFault>
    ensures gaps { OfHeld K.BlobReader keeper.old keeper.new (λ held. IfOk result (λ gaps. AreGaps held size gaps.items)) }
    ensures rereads { Rereads K.BlobReader keeper.old result keeper.new }
    ensures own { OfHeld K.BlobReader keeper.old keeper.new (λ _. IfErr result (λ fault. ¬ (IsForeign fault))) }
    ensures cause { IfErr result (HasCause (K.failures keeper.old) (K.failures keeper.new)) }
    ensures told { OnOk result (K.failures keeper.new ≡ K.failures keeper.old) }
{
    let extents = keeper.extents(alloc)?;
    let gaps = gaps_between(alloc, &extents, size)?;
    Ok(gaps)
}
