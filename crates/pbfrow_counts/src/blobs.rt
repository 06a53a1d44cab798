//! The elements of one store, counted blob after blob.

ghost use Rattle.std.specs.Prelude.{◌≡◌, ◌≤◌, Some, IfErr, OnOk};
ghost use Rattle.std.specs.FinMap.{get, entries};
ghost use Rattle.std.specs.List.{sum_by};
ghost use Rattle.osm_rows.specs.Held.{Blob, HeldMap};
ghost use Rattle.osm_rows.specs.Keeping.{extent_of, extents_of};
ghost use Rattle.osm_rows.specs.declared.keeper.Extent.{Extent as ExtentValue};
ghost use Rattle.osm_import.specs.Walks.{IsWithin};
ghost use Rattle.osm_import.specs.Stores.{Rereads};
ghost use Rattle.pbfrow_counts.specs.Counting.{CountHasCause, CountTells, CountsMore, CountsSoMany, IsOfMap, elements_of};

use crate::elements::ElementCounts;
use crate::fault::CountFault;
use osm_rows::{BlobReader, Extent};
use std::alloc::Global;

/// Counts the elements of the blob at an extent, unless the store has other than as many of it as the extent says, or a row
/// of it that no element has.
fn count_blob<K: BlobReader>(
    alloc: Global,
    keeper: &mut K,
    extent: &Extent,
    counts: &mut ElementCounts,
) -> Result<(), CountFault>
    ensures held { (held : HeldMap) (blob : Blob) → K.holds keeper.old held → K.is_honest keeper.new → get held extent.now.off ≡ Some blob
        → extent.now ≡ extent_of (extent.now.off, blob) → OnOk result (CountsMore counts.old blob.elements counts.new) }
    ensures own { (held : HeldMap) (blob : Blob) → K.holds keeper.old held → K.is_honest keeper.new → get held extent.now.off ≡ Some blob
        → extent.now ≡ extent_of (extent.now.off, blob) → IfErr result IsOfMap }
    ensures complete { OnOk result (CountsSoMany counts.old extent.now.n counts.new) }
    ensures rereads { Rereads K.BlobReader keeper.old result keeper.new }
    ensures cause { IfErr result (CountHasCause (K.failures keeper.old) (K.failures keeper.new)) }
    ensures told { CountTells (K.failures keeper.old) (K.failures keeper.new) result }
    ensures counted { K.failures keeper.old ≤ K.failures keeper.new }
{
    let loaded = keeper.load(alloc, extent.off)?;
    let Some(elements) = loaded.elements(alloc)? else {
        return Err(CountFault::Miscounted(extent.off));
    };
    if elements.len() as u64 != extent.n {
        return Err(CountFault::Miscounted(extent.off));
    }
    counts.add(&elements);
    Ok(())
}

/// Counts the elements of the blobs at these extents, beside those that were counted before, up to the first fault. The
/// rows of one blob at a time are in memory. What is held stays.
///
/// Where the extents are all or some of those that the store holds, the elements of these blobs are counted, each once, and
/// an error is that of a read that has failed, or refused memory. Whatever rows the store has, as many elements are counted
/// as the extents say; where the store has more or fewer, or a row that no element has, it stops with `Miscounted` and that
/// offset.
pub fn count_blobs<K: BlobReader>(
    alloc: Global,
    keeper: &mut K,
    extents: &[Extent],
    counts: &mut ElementCounts,
) -> Result<(), CountFault>
    ensures held { (held run : HeldMap) → K.holds keeper.old held → K.is_honest keeper.new → IsWithin run held → extents.now ≡ extents_of run
        → OnOk result (CountsMore counts.old (elements_of (entries run)) counts.new) }
    ensures own { (held run : HeldMap) → K.holds keeper.old held → K.is_honest keeper.new → IsWithin run held → extents.now ≡ extents_of run
        → IfErr result IsOfMap }
    ensures complete { OnOk result (CountsSoMany counts.old (sum_by (λ (extent : ExtentValue). extent.n) extents.now) counts.new) }
    ensures rereads { Rereads K.BlobReader keeper.old result keeper.new }
    ensures cause { IfErr result (CountHasCause (K.failures keeper.old) (K.failures keeper.new)) }
    ensures told { CountTells (K.failures keeper.old) (K.failures keeper.new) result }
    ensures counted { K.failures keeper.old ≤ K.failures keeper.new }
{
    for extent in extents {
        count_blob(alloc, keeper, extent, counts)?;
    }
    Ok(())
}
