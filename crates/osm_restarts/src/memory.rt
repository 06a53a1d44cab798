//! That deliveries to trees in memory need nothing of the store but the map that it holds.

ghost use Rattle.std.specs.Prelude.{◌≡◌, ℕ, List, IfOk, OnErr};
ghost use Rattle.osm_rows.specs.Held.{HeldMap};
ghost use Rattle.osm_import.specs.Runs.{Runs, Imports, IsNone, IsStored};
ghost use Rattle.osm_restarts.specs.Further.{AreOfOneFile};

use osm_import::{Answer, Delivery, deliver_all};
use osm_rows::BlobReader;
use osm_trees::TreeStore;
use osm_trees::laws::memory_goes_on;
use sqlite::MemStore;
use std::alloc::{AllocError, Global};

/// Delivers each in turn to trees in memory. Such a store is always usable, so what `deliver_all` promises of one that is
/// holds whatever is answered: over any list of deliveries of whole blobs of one file at their offsets, lost, repeated,
/// reordered and broken off at any call of the store, it then holds exactly the entries that it held and those of the
/// deliveries that were answered `Stored`, none of them twice.
pub fn deliver_all_in_memory(
    alloc: Global,
    keeper: &mut TreeStore<MemStore>,
    deliveries: &[Delivery<'_>],
) -> Result<Vec<Answer>, AllocError>
    ensures run { (held : HeldMap) → ⟦<TreeStore<MemStore> as BlobReader>⟧.holds keeper.old held
        → IfOk result (λ answers. Runs (⟦<TreeStore<MemStore> as BlobReader>⟧.holds keeper.new) held deliveries.now answers.items) }
    ensures one_file { (held : HeldMap) (frames : List (List ℕ)) → ⟦<TreeStore<MemStore> as BlobReader>⟧.holds keeper.old held
        → AreOfOneFile frames deliveries.now held
        → IfOk result (λ answers. Imports (⟦<TreeStore<MemStore> as BlobReader>⟧.holds keeper.new) frames held deliveries.now answers.items) }
    ensures same { IfOk result (λ answers. IsNone IsStored answers.items → ⟦<TreeStore<MemStore> as BlobReader>⟧.same_tables keeper.old keeper.new) }
    ensures err { OnErr result (keeper.new ≡ keeper.old) }
{
    let answers = deliver_all(alloc, keeper, deliveries);
    memory_goes_on(keeper);
    answers
}
