//! That a copy goes on over what a crash left of it.

ghost use Rattle.sqlite_trees.specs.Objects.{catalog_tree};
ghost use Rattle.sqlite_trees.specs.View.{IsClean};
ghost use Rattle.sqlite_store.specs.FileStore.{view, recovers};
ghost use Rattle.osm_rows.specs.declared.schema.layout.Layout.TheVariants.{Tables};
ghost use Rattle.osm_rows.specs.Held.{HeldMap};
ghost use Rattle.osm_openings.specs.Asked.{IsFoundAgain};
ghost use Rattle.osm_trees.specs.Below.{HoldsBelow, ListsAlways};
ghost use Rattle.osm_restarts.specs.Copied.{CopyGoesOn, IsCopied};
ghost use Rattle.osm_restarts.specs.Left.{IsReopened, MayBeOpened};

use crate::premise::what_is_left_may_be_opened;
use crate::restart::a_restart_holds_what_was_left;
use osm_import::{CopyCounts, CopyStop, copy_held};
use osm_rows::BlobReader;
use osm_trees::TreeStore;
use sqlite_disk::Disk;
use sqlite_store::FileStore;
use std::alloc::Global;

/// Copies the blobs that a store holds into one over files, and gives the files' trees back, which may crash now, with how the
/// copy ended. Whatever the crash leaves, the store that either opening gives over it (`after`) holds what was held with the
/// blobs of the first store below some offset, and after `Ok` with all of them. The copy begun again ends in what it would
/// have ended in with no crash, and the next crash finds all that this one found. The list of objects stays what it was. Where it
/// has no object beside a store's own, or each as its row asks, what the crash leaves may be opened by the opening that looks at
/// no other page.
pub fn copy_before_a_restart<D: Disk, E: Disk, F: BlobReader>(
    alloc: Global,
    from: &mut F,
    mut to: TreeStore<FileStore<D>>,
    after: &FileStore<E>,
) -> (FileStore<D>, Result<CopyCounts, CopyStop>)
    ensures opens { (held : HeldMap) → HoldsBelow Tables (view to.store) held → IsFoundAgain ((view to.store).trees catalog_tree) → MayBeOpened result.0 }
    ensures list { (held : HeldMap) → HoldsBelow Tables (view to.store) held → IsClean (view result.0)
        → ListsAlways (view result.0) (recovers result.0) ((view to.store).trees catalog_tree) }
    ensures goes_on { (source held : HeldMap) → F.holds from.old source → F.is_honest from.new → HoldsBelow Tables (view to.store) held
        → IsClean (view result.0) → IsReopened result.0 after.now
        → (left : HeldMap) × CopyGoesOn source held left after.now × IsCopied result.1 source held left }
{
    let outcome = copy_held(alloc, from, &mut to);
    let store = to.into_store();
    what_is_left_may_be_opened(&store);
    a_restart_holds_what_was_left(&store, after);
    (store, outcome)
}
