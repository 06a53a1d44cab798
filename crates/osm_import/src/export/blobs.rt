//! The walk over the held blobs, whatever an export writes of each.

ghost use Rattle.std.specs.Prelude.{◌≡◌, ◌≤◌, ℕ, false, Err, IfOk, IfErr, OnOk};
ghost use Rattle.std.specs.FinMap.{entries};
ghost use Rattle.osm_rows.specs.Held.{Blob, HeldMap};
ghost use Rattle.osm_rows.specs.Calls.{OfHeld};
ghost use Rattle.osm_rows.specs.Keeping.{extent_of, extents_of};
ghost use Rattle.osm_rows.specs.Load.Loading.{HasRowsOf};
ghost use Rattle.osm_import.specs.Gaps.{Tiles};
ghost use Rattle.osm_import.specs.Exports.{size_of, IsUnbegun};
ghost use Rattle.osm_import.specs.ExportCauses.{ExportHasCause, ExportIsOwn, ExportTells, WriteHasCause};
ghost use Rattle.osm_import.specs.Walks.{Writing, IsWithin, WritesOne, WritesComplete, Walks, WalksComplete};
ghost use Rattle.osm_import.specs.Stores.{Rereads};

use super::ExportFault;
use super::refusal::export_refusal;
use osm_rows::{BlobReader, Extent, Loaded};
use osm_value::{Element, Sink};
use std::alloc::Global;

/// What an export writes of a blob.
pub trait BlobStep<S: Sink> {
    /// What the step does, at a blob with these elements, to what was written before.
    ghost writes: { Writing };

    /// Writes what stands for these elements.
    fn write(&self, alloc: Global, elements: &[Element], out: &mut S) -> Result<(), ExportFault>
        ensures wrote { writes (S.written out.old) elements.now (S.written out.new) result }
        ensures cause { WriteHasCause (S.has_failed out.new) result };
}

/// All held extents, by offset, for an export that has written nothing yet. Unless `partial`, an error is also why they
/// don't tile the size, which is the greatest held end where none is given.
pub(super) fn extents_to_export<K: BlobReader>(
    alloc: Global,
    keeper: &mut K,
    size: Option<u64>,
    partial: bool,
) -> Result<Vec<Extent>, ExportFault>
    ensures all { OfHeld K.BlobReader keeper.old keeper.new (λ held. IfOk result (λ extents. extents.items ≡ extents_of held)) }
    ensures tiled { OfHeld K.BlobReader keeper.old keeper.new (λ held. partial ≡ false → OnOk result (Tiles held (size_of size (extents_of held)))) }
    ensures refused { OfHeld K.BlobReader keeper.old keeper.new (λ held. IfErr result (IsUnbegun held (size_of size (extents_of held)) partial)) }
    ensures rereads { Rereads K.BlobReader keeper.old result keeper.new }
    ensures own { OfHeld K.BlobReader keeper.old keeper.new (λ _. IfErr result (λ fault. ExportIsOwn (Err fault))) }
    ensures cause { IfErr result (λ fault. ExportHasCause (K.failures keeper.old) (K.failures keeper.new) false (Err fault)) }
    ensures told { ExportTells (K.failures keeper.old) (K.failures keeper.new) result }
    ensures counted { K.failures keeper.old ≤ K.failures keeper.new }
{
    let extents = keeper.extents(alloc)?;
    if !partial {
        if let Some(fault) = export_refusal(&extents, size) {
            return Err(fault);
        }
    }
    Ok(extents)
}

/// Takes the step at the elements of a loaded blob, unless they are other than as many as the extent says, or a row of it is
/// that of no element.
fn write_loaded<S: Sink, W: BlobStep<S>>(
    alloc: Global,
    loaded: &Loaded,
    extent: &Extent,
    step: &W,
    out: &mut S,
) -> Result<(), ExportFault>
    ensures wrote { (blob : Blob) → HasRowsOf loaded.now blob.elements → extent.now ≡ extent_of (extent.now.off, blob)
        → WritesOne W.writes (S.written out.old) blob.elements (S.written out.new) result }
    ensures complete { WritesComplete W.writes (S.written out.old) extent.now (S.written out.new) result }
    ensures own { ExportIsOwn result }
    ensures cause { (before now : ℕ) → ExportHasCause before now (S.has_failed out.new) result }
{
    let Some(elements) = loaded.elements(alloc)? else {
        return Err(ExportFault::Miscounted(extent.off));
    };
    if elements.len() as u64 != extent.n {
        return Err(ExportFault::Miscounted(extent.off));
    }
    step.write(alloc, &elements, out)
}

/// Takes the step at each of the blobs at these extents, in their order, up to the first fault. Where they are all or some
/// of those that the store holds, it is taken once at each of these, by offset. What is held stays.
///
/// Whatever rows the store has, the step is taken at as many elements as each extent says; where the store has more or
/// fewer, or a row that no element has, it stops with `Miscounted` and that offset.
pub fn write_blobs<K: BlobReader, S: Sink, W: BlobStep<S>>(
    alloc: Global,
    keeper: &mut K,
    extents: &[Extent],
    step: &W,
    out: &mut S,
) -> Result<(), ExportFault>
    ensures wrote { (held run : HeldMap) → K.holds keeper.old held → K.is_honest keeper.new → IsWithin run held → extents.now ≡ extents_of run
        → Walks W.writes (S.written out.old) (entries run) (S.written out.new) result }
    ensures complete { WalksComplete W.writes (S.written out.old) extents.now (S.written out.new) result }
    ensures rereads { Rereads K.BlobReader keeper.old result keeper.new }
    ensures own { OfHeld K.BlobReader keeper.old keeper.new (λ _. ExportIsOwn result) }
    ensures cause { ExportHasCause (K.failures keeper.old) (K.failures keeper.new) (S.has_failed out.new) result }
    ensures told { ExportTells (K.failures keeper.old) (K.failures keeper.new) result }
    ensures counted { K.failures keeper.old ≤ K.failures keeper.new }
{
    for extent in extents {
        let loaded = keeper.load(alloc, extent.off)?;
        write_loaded(alloc, &loaded, extent, step, out)?;
    }
    Ok(())
}
