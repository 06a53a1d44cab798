//! Whether a blob may be put at its offset, by what a store holds.

ghost use Rattle.std.specs.Prelude.{◌≡◌, ◌==◌, ◌<◌, ◌≤◌, find, IfOk};
ghost use Rattle.pbf_frame.specs.declared.part.TheConstants.{MAX_OFFSET};
ghost use Rattle.osm_rows.specs.Held.{HeldMap};
ghost use Rattle.osm_rows.specs.Keeping.{OnlyReads};
ghost use Rattle.osm_import.specs.Places.{IsPlaceOf};

use crate::answer::Conflict;
use osm_rows::{BlobKeeper, Extent, StoreFault};
use std::alloc::Global;

/// What the place of a blob is, from its offset to its end.
#[derive(Clone, Copy, Debug, PartialEq, Eq)]
pub(crate) enum Place {
    /// Its extent meets no held one.
    Free,
    /// Its offset is held, with its digest.
    Held,
    /// Something else is in its way.
    Taken(Conflict),
}

fn extent_at(extents: &[Extent], off: u64) -> Option<Extent>
    ensures { result ≡ find (λ extent. extent.off == off) extents.now }
{
    for extent in extents {
        if extent.off == off {
            return Some(*extent);
        }
    }
    None
}

/// The place of a blob from `off` to `fin` with this digest, in a store that is only read.
pub(crate) fn place_of<K: BlobKeeper>(
    alloc: Global,
    keeper: &mut K,
    off: u64,
    fin: u64,
    digest: &[u8; 32],
) -> Result<Place, StoreFault>
    requires order { off < fin }
    requires limit { fin ≤ MAX_OFFSET }
    ensures place { (held : HeldMap) → K.holds keeper.old held → K.is_honest keeper.new → IfOk result (IsPlaceOf held off fin digest.now) }
    ensures reads { OnlyReads K.holds K.leaves K.leaves_a_map K.lists K.same_tables K.is_honest K.is_open K.failures keeper.old result keeper.new }
{
    let touched = keeper.extents_touching(alloc, off, fin)?;
    if let Some(extent) = extent_at(&touched, off) {
        if extent.digest == *digest {
            return Ok(Place::Held);
        }
        return Ok(Place::Taken(Conflict::Differs));
    }
    if touched.is_empty() {
        return Ok(Place::Free);
    }
    Ok(Place::Taken(Conflict::Overlap))
}
