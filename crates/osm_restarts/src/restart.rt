//! That a store that is opened after a crash holds what the crash left.

ghost use Rattle.sqlite_store.specs.FileStore.{view, recovers};
ghost use Rattle.osm_rows.specs.declared.schema.layout.Layout.TheVariants.{Tables};
ghost use Rattle.osm_rows.specs.Held.{HeldMap};
ghost use Rattle.osm_trees.specs.Below.{HoldsBelow, LeavesAMap, MayLeave};
ghost use Rattle.osm_restarts.specs.Left.{IsReopened};

use sqlite_disk::Disk;
use sqlite_store::FileStore;

/// A store that is opened over what a crash left of the files of another holds one of the maps that the crash may leave of
/// that, whatever its database lists behind the store's trees. `before` is the store as it was when it crashed, `after` the
/// one that either opening gives.
pub fn a_restart_holds_what_was_left<D: Disk, E: Disk>(before: &FileStore<D>, after: &FileStore<E>)
    ensures { LeavesAMap (recovers before.now) → IsReopened before.now after.now
        → (held : HeldMap) × MayLeave (recovers before.now) held × HoldsBelow Tables (view after.now) held }
{
    let (_before, _after) = (before, after);
}
