//! A walk over the rows of a table that stand in the order of its primary key: the cursor 1 gives them, one behind another, and
//! the index is asked only where they begin.

ghost use Rattle.std.specs.Prelude.{◌≡◌, length, IsSome, IsTrue, IfOk, IfErr, OnOk};
ghost use Rattle.sqlite_trees.specs.View.{IsClean};
ghost use Rattle.sqlite_exec.specs.Loops.{left_of};
ghost use Rattle.osm_rows.specs.Keeping.{IsForeign};
ghost use Rattle.osm_tree_audits.specs.Looking.{HasTable, IsSound, Looks, Steps};
ghost use Rattle.osm_tree_audits.specs.declared.tables.ElementTable.{ElementTable as AnyTable};
ghost use Rattle.osm_tree_audits.specs.ElementTables.{index_of, key_of, table_of};
ghost use Rattle.osm_tree_audits.specs.Looks.{IsInOrder};
ghost use Rattle.osm_tree_audits.specs.Walking.{AreInOrder, IsAtNamed, Leads, all_reached, reached_alone};

use crate::tables::ElementTable;
use osm_rows::StoreFault;
use osm_tree_writes::fault_of;
use sqlite_trees::store::{Direction, Shape, Store};
use sqlite_value::keys::Order;
use sqlite_value::order::compare;
use sqlite_value::row::Row;
use sqlite_value::value::ValueRef;
use std::alloc::Global;
use std::cmp::Ordering;

/// Places the cursor 1 at the row of a table that an entry of its index names behind the columns, of which there are `width`, or
/// where that row would be.
fn seek_row<S: Store>(
    alloc: Global,
    store: &mut S,
    table: u32,
    width: usize,
    entry: &Row,
) -> Result<(), StoreFault>
    requires { HasTable S.Store store.old table }
    ensures placed { OnOk result (IsClean (S.Store.view store.new) → IsAtNamed ((S.Store.view store.old).trees table) entry.now width (left_of (S.Store.view store.new) 1)) }
    ensures rows { OnOk result (IsSome ((S.Store.view store.new).cursors 1)) }
    ensures steps { OnOk result (Steps (S.Store.view store.old) (S.Store.view store.new)) }
    ensures ours { IfErr result (λ fault. ¬ (IsForeign fault)) }
    ensures looks { Looks S.Store store.old store.new }
{
    let ValueRef::Int(id) = entry.get(width) else {
        return Err(StoreFault::Disk);
    };
    let mut key = Row::new(alloc);
    key.push(ValueRef::Int(id))?;
    if let Err(error) = store.seek(1, table, &key, Direction::Forward) {
        return Err(fault_of(error));
    }
    Ok(())
}

/// Places the cursor 1 at the first row of a table whose entry in the index of its primary key begins with `key`, or where such
/// a row would be, if the rows stand in the order of this key. Where no entry begins with `key` or with more, the cursor 1 isn't
/// placed, and the answer is false.
pub(crate) fn begin_in_order<S: Store>(
    alloc: Global,
    store: &mut S,
    of: ElementTable,
    key: &Row,
) -> Result<bool, StoreFault>
    requires index { IsClean (S.Store.view store.old) → (S.Store.view store.old).shape (index_of of) ≡ Shape.Index Order.PLAIN }
    requires table { HasTable S.Store store.old (table_of of) }
    ensures walk { IfOk result (λ begun. IsClean (S.Store.view store.new) → IsInOrder (S.Store.view store.old).trees of → IsTrue begun
        → AreInOrder (S.Store.view store.new) (key_of of) × (reached_alone (S.Store.view store.new) (key_of of) key.now ≡ all_reached (S.Store.view store.old).trees of key.now)) }
    ensures entries { OnOk result (IsSome ((S.Store.view store.new).cursors 0)) }
    ensures rows { IfOk result (λ begun. IsTrue begun → IsSome ((S.Store.view store.new).cursors 1)) }
    ensures sound { OnOk result (IsSound S.Store store.new) }
    ensures ours { IfErr result (λ fault. ¬ (IsForeign fault)) }
    ensures looks { Looks S.Store store.old store.new }
{
    let mut entry = Row::new(alloc);
    if let Err(error) = store.seek(0, of.index(), key, Direction::Forward) {
        return Err(fault_of(error));
    }
    match store.next(0, &mut entry) {
        Ok(true) => {}
        Ok(false) => return Ok(false),
        Err(error) => return Err(fault_of(error)),
    }
    seek_row(alloc, store, of.table(), of.width(), &entry)?;
    Ok(true)
}

/// Writes the next row, whose entry in the index of its table's primary key begins with the one value of `key`, over `row`, or
/// answers false where there is no more.
pub(crate) fn next_in_order<S: Store>(
    store: &mut S,
    key: &Row,
    row: &mut Row,
) -> Result<bool, StoreFault>
    requires one { length key.now ≡ 1 }
    requires rows { IsSome ((S.Store.view store.old).cursors 1) }
    ensures told { IfOk result (λ more. IsClean (S.Store.view store.new) → (of : AnyTable) → AreInOrder (S.Store.view store.old) (key_of of)
        → Leads (reached_alone (S.Store.view store.old) (key_of of) key.now) row.new (reached_alone (S.Store.view store.new) (key_of of) key.now) more) }
    ensures walk { OnOk result (IsClean (S.Store.view store.new) → (of : AnyTable) → AreInOrder (S.Store.view store.old) (key_of of) → AreInOrder (S.Store.view store.new) (key_of of)) }
    ensures steps { OnOk result (Steps (S.Store.view store.old) (S.Store.view store.new)) }
    ensures ours { IfErr result (λ fault. ¬ (IsForeign fault)) }
    ensures looks { Looks S.Store store.old store.new }
{
    match store.next(1, row) {
        Ok(true) => {}
        Ok(false) => return Ok(false),
        Err(error) => return Err(fault_of(error)),
    }
    match compare(row.get(1), key.get(0)) {
        // The seek has passed such rows.
        Ordering::Less => Err(StoreFault::Disk),
        Ordering::Greater => Ok(false),
        Ordering::Equal => Ok(true),
    }
}
