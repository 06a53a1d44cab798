//! Whether each index added to the tables of a store has one entry for each row of its table, and no other.

ghost use Rattle.std.specs.Prelude.{◌≡◌, ◌<◌, length, slice_get, Some, IfSome, IfOk, IfErr, OnOk, MatchOption};
ghost use Rattle.sqlite_trees.specs.View.{IsClean};
ghost use Rattle.osm_rows.specs.Keeping.{IsForeign};
ghost use Rattle.osm_tree_audits.specs.Looking.{IsSound, Looks};
ghost use Rattle.osm_tree_audits.specs.Indexes.{AreWhole, IsWholeAdded};

use crate::indexes::is_indexed;
use osm_rows::StoreFault;
use sqlite_schema::schema::Index;
use sqlite_trees::store::Store;
use std::alloc::Global;

/// The place of the first of these indexes that has not one entry for each row of its table, and no other, if there is one;
/// whatever rows there are, in whatever order an index keeps them, and by whatever collation. No more than one row and its
/// entry are in memory. A fault is that of a read that has failed, `Memory`, or `Disk` where the trees have no such table or
/// index.
///
/// What it costs is what it costs of an index of the store (`look_at_indexes`): where the entries aren't in the order of the
/// table's rows, a search for each.
pub fn faulty_added_index<S: Store>(
    alloc: Global,
    store: &mut S,
    indexes: &[Index],
) -> Result<Option<usize>, StoreFault>
    ensures told { IfOk result (λ found. IsClean (S.Store.view store.new)
        → MatchOption found (AreWhole (S.Store.view store.old).trees indexes.now) (λ at. (index : _) → slice_get indexes.now at ≡ Some index → ¬ (IsWholeAdded (S.Store.view store.old).trees index))) }
    ensures within { IfOk result (λ found. IfSome found (λ at. at < length indexes.now)) }
    ensures sound { OnOk result (IsSound S.Store store.new) }
    ensures ours { IfErr result (λ fault. ¬ (IsForeign fault)) }
    ensures looks { Looks S.Store store.old store.new }
{
    if store.is_broken() {
        return Err(StoreFault::Disk);
    }
    for at in 0..indexes.len() {
        let index = &indexes[at];
        let columns = index.columns.as_slice();
        if !is_indexed(alloc, store, index.table, index.tree, index.order, columns)? {
            return Ok(Some(at));
        }
    }
    Ok(None)
}
