//! The two ways to walk over the rows of a table of elements, of tags or of links in the order of its primary key.

ghost use Rattle.std.specs.Prelude.{◌≡◌, length, IsSome, IsTrue, IfOk, IfErr, OnOk};
ghost use Rattle.sqlite_trees.specs.View.{IsClean};
ghost use Rattle.osm_rows.specs.Keeping.{IsForeign};
ghost use Rattle.osm_tree_audits.specs.Looking.{HasTable, Looks, Steps};
ghost use Rattle.osm_tree_audits.specs.ElementTables.{index_of, table_of};
ghost use Rattle.osm_tree_audits.specs.Looks.{IsInOrder};
ghost use Rattle.osm_tree_audits.specs.Walking.{CanWalk, IsWalkBy, Leads, all_reached, reached_by};

use crate::in_order::{begin_in_order, next_in_order};
use crate::tables::ElementTable;
use crate::walk::{begin_walk, next_row};
use osm_rows::StoreFault;
use sqlite_trees::store::{Shape, Store};
use sqlite_value::keys::Order;
use sqlite_value::row::Row;
use std::alloc::Global;

/// How a walk comes to the rows of a table in the order of its primary key.
#[derive(Clone, Copy, Debug, PartialEq, Eq)]
pub(crate) enum Way {
    /// The index gives entries, each of which names a row.
    ByIndex,
    /// The table gives the rows, which stand in this order.
    ByTable,
}

/// Begins a walk by the index over the rows of a table whose entries begin with `key`.
fn begin_by_index<S: Store>(
    alloc: Global,
    store: &mut S,
    of: ElementTable,
    key: &Row,
) -> Result<Way, StoreFault>
    requires index { IsClean (S.Store.view store.old) → (S.Store.view store.old).shape (index_of of) ≡ Shape.Index Order.PLAIN }
    requires table { HasTable S.Store store.old (table_of of) }
    ensures walk { IfOk result (λ way. IsClean (S.Store.view store.new) → IsWalkBy way (S.Store.view store.new) of) }
    ensures all { IfOk result (λ way. IsClean (S.Store.view store.new) → reached_by way (S.Store.view store.new) of key.now ≡ all_reached (S.Store.view store.old).trees of key.now) }
    ensures ready { OnOk result (CanWalk (S.Store.view store.new)) }
    ensures ours { IfErr result (λ fault. ¬ (IsForeign fault)) }
    ensures looks { Looks S.Store store.old store.new }
{
    begin_walk(alloc, store, of.index(), of.table(), key)?;
    Ok(Way::ByIndex)
}

/// Begins a walk over the rows of a table whose entries in the index of its primary key begin with `key`: by the table alone
/// where it is known that its rows stand in the order of this key.
pub(crate) fn begin<S: Store>(
    alloc: Global,
    store: &mut S,
    of: ElementTable,
    in_order: bool,
    key: &Row,
) -> Result<Way, StoreFault>
    requires index { IsClean (S.Store.view store.old) → (S.Store.view store.old).shape (index_of of) ≡ Shape.Index Order.PLAIN }
    requires table { HasTable S.Store store.old (table_of of) }
    ensures walk { IfOk result (λ way. IsClean (S.Store.view store.new) → (IsTrue in_order → IsInOrder (S.Store.view store.old).trees of) → IsWalkBy way (S.Store.view store.new) of) }
    ensures all { IfOk result (λ way. IsClean (S.Store.view store.new) → (IsTrue in_order → IsInOrder (S.Store.view store.old).trees of)
        → reached_by way (S.Store.view store.new) of key.now ≡ all_reached (S.Store.view store.old).trees of key.now) }
    ensures ready { OnOk result (CanWalk (S.Store.view store.new)) }
    ensures ours { IfErr result (λ fault. ¬ (IsForeign fault)) }
    ensures looks { Looks S.Store store.old store.new }
{
    if !in_order {
        return begin_by_index(alloc, store, of, key);
    }
    if begin_in_order(alloc, store, of, key)? {
        return Ok(Way::ByTable);
    }
    begin_by_index(alloc, store, of, key)
}

/// Writes the next row, whose entry begins with the one value of `key`, over `row`, or answers false where there is no more.
/// `entry` and `found` may be written over.
pub(crate) fn next_by<S: Store>(
    store: &mut S,
    way: Way,
    of: ElementTable,
    key: &Row,
    entry: &mut Row,
    found: &mut Row,
    row: &mut Row,
) -> Result<bool, StoreFault>
    requires one { length key.now ≡ 1 }
    requires entries { IsSome ((S.Store.view store.old).cursors 0) }
    requires rows { IsSome ((S.Store.view store.old).cursors 1) }
    ensures told { IfOk result (λ more. IsClean (S.Store.view store.new) → IsWalkBy way (S.Store.view store.old) of
        → Leads (reached_by way (S.Store.view store.old) of key.now) row.new (reached_by way (S.Store.view store.new) of key.now) more) }
    ensures walk { OnOk result (IsClean (S.Store.view store.new) → IsWalkBy way (S.Store.view store.old) of → IsWalkBy way (S.Store.view store.new) of) }
    ensures steps { OnOk result (Steps (S.Store.view store.old) (S.Store.view store.new)) }
    ensures ours { IfErr result (λ fault. ¬ (IsForeign fault)) }
    ensures looks { Looks S.Store store.old store.new }
{
    match way {
        Way::ByIndex => next_row(store, of.table(), of.width(), key, entry, found, row),
        Way::ByTable => next_in_order(store, key, row),
    }
}
