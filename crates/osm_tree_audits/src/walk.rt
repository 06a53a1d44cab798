//! A walk over the rows of a table in the order of an index: the cursor 0 gives the entries, and the cursor 1 the rows.

ghost use Rattle.std.specs.Prelude.{◌≡◌, Contains, IsSome, IsTrue, IfOk, IfErr, OnOk};
ghost use Rattle.sqlite_value.specs.Keys.{plain};
ghost use Rattle.sqlite_value.specs.Order.{column};
ghost use Rattle.sqlite_trees.specs.Tree.{from_key, rowid};
ghost use Rattle.sqlite_trees.specs.View.{IsClean};
ghost use Rattle.sqlite_exec.specs.Loops.{left_of};
ghost use Rattle.osm_rows.specs.Keeping.{IsForeign};
ghost use Rattle.osm_tree_audits.specs.Looking.{HasTable, KeepsCursor, Looks, Steps};
ghost use Rattle.osm_tree_audits.specs.Walking.{AreAmong, CanWalk, IsWalk, Leads, reached};

use osm_rows::StoreFault;
use osm_tree_writes::fault_of;
use sqlite_trees::store::{Direction, Shape, Store};
use sqlite_value::keys::Order;
use sqlite_value::order::is_same;
use sqlite_value::row::Row;
use sqlite_value::value::ValueRef;
use std::alloc::Global;
use std::cmp::Ordering;

/// Places the cursor 0 at the entries of an index that begin with a key, and the cursor 1 at the rows of a table.
pub(crate) fn begin_walk<S: Store>(
    alloc: Global,
    store: &mut S,
    index: u32,
    table: u32,
    key: &Row,
) -> Result<(), StoreFault>
    requires index { IsClean (S.Store.view store.old) → (S.Store.view store.old).shape index ≡ Shape.Index Order.PLAIN }
    requires table { HasTable S.Store store.old table }
    ensures ready { OnOk result (CanWalk (S.Store.view store.new)) }
    ensures walk { OnOk result (IsClean (S.Store.view store.new) → IsWalk (S.Store.view store.new) table) }
    ensures placed { OnOk result (IsClean (S.Store.view store.new) → left_of (S.Store.view store.new) 0 ≡ from_key plain key.now ((S.Store.view store.old).trees index)) }
    ensures ours { IfErr result (λ fault. ¬ (IsForeign fault)) }
    ensures looks { Looks S.Store store.old store.new }
{
    let first = Row::new(alloc);
    if let Err(error) = store.seek(1, table, &first, Direction::Forward) {
        return Err(fault_of(error));
    }
    if let Err(error) = store.seek(0, index, key, Direction::Forward) {
        return Err(fault_of(error));
    }
    Ok(())
}

/// Whether the row that the cursor 1 gives next is the one that an entry names behind its columns, of which there are
/// `width`. It moves on.
fn next_has<S: Store>(
    store: &mut S,
    width: usize,
    entry: &Row,
    row: &mut Row,
) -> Result<bool, StoreFault>
    requires { IsSome ((S.Store.view store.old).cursors 1) }
    ensures told { IfOk result (λ told. IsClean (S.Store.view store.new) → IsTrue told → Contains (left_of (S.Store.view store.old) 1) row.new × (rowid row.new ≡ column entry.now width)) }
    ensures left { OnOk result (IsClean (S.Store.view store.new) → AreAmong (left_of (S.Store.view store.old) 1) (left_of (S.Store.view store.new) 1)) }
    ensures entries { KeepsCursor S.Store 0 store.old result store.new }
    ensures steps { OnOk result (Steps (S.Store.view store.old) (S.Store.view store.new)) }
    ensures ours { IfErr result (λ fault. ¬ (IsForeign fault)) }
    ensures looks { Looks S.Store store.old store.new }
{
    match store.next(1, row) {
        Ok(true) => Ok(is_same(row.get(0), entry.get(width))),
        Ok(false) => Ok(false),
        Err(error) => Err(fault_of(error)),
    }
}

/// Whether a table has the row that an entry names. The cursor 1 is left behind it; `key` is written over.
fn seek_has<S: Store>(
    store: &mut S,
    table: u32,
    width: usize,
    entry: &Row,
    key: &mut Row,
    row: &mut Row,
) -> Result<bool, StoreFault>
    ensures told { IfOk result (λ told. IsClean (S.Store.view store.new) → IsTrue told → Contains ((S.Store.view store.old).trees table) row.new × (rowid row.new ≡ column entry.now width)) }
    ensures left { OnOk result (IsClean (S.Store.view store.new) → AreAmong ((S.Store.view store.old).trees table) (left_of (S.Store.view store.new) 1)) }
    ensures entries { KeepsCursor S.Store 0 store.old result store.new }
    ensures steps { OnOk result (Steps (S.Store.view store.old) (S.Store.view store.new)) }
    ensures ours { IfErr result (λ fault. ¬ (IsForeign fault)) }
    ensures looks { Looks S.Store store.old store.new }
{
    let ValueRef::Int(id) = entry.get(width) else {
        return Err(StoreFault::Disk);
    };
    key.clear();
    key.push(ValueRef::Int(id))?;
    if let Err(error) = store.seek(1, table, key, Direction::Forward) {
        return Err(fault_of(error));
    }
    next_has(store, width, entry, row)
}

/// Writes the row of a table that an entry names over `row`. Where it isn't the one that the cursor 1 gives next it is sought:
/// rows that were written in the order of the index cost no search.
fn read_row<S: Store>(
    store: &mut S,
    table: u32,
    width: usize,
    entry: &Row,
    key: &mut Row,
    row: &mut Row,
) -> Result<(), StoreFault>
    requires { IsSome ((S.Store.view store.old).cursors 1) }
    ensures found { OnOk result (IsClean (S.Store.view store.new) → AreAmong ((S.Store.view store.old).trees table) (left_of (S.Store.view store.old) 1) → Contains ((S.Store.view store.old).trees table) row.new × (rowid row.new ≡ column entry.now width)) }
    ensures left { OnOk result (IsClean (S.Store.view store.new) → AreAmong ((S.Store.view store.old).trees table) (left_of (S.Store.view store.old) 1) → AreAmong ((S.Store.view store.old).trees table) (left_of (S.Store.view store.new) 1)) }
    ensures entries { KeepsCursor S.Store 0 store.old result store.new }
    ensures steps { OnOk result (Steps (S.Store.view store.old) (S.Store.view store.new)) }
    ensures ours { IfErr result (λ fault. ¬ (IsForeign fault)) }
    ensures looks { Looks S.Store store.old store.new }
{
    if next_has(store, width, entry, row)? {
        return Ok(());
    }
    if seek_has(store, table, width, entry, key, row)? {
        return Ok(());
    }
    Err(StoreFault::Disk)
}

/// Writes the next row, whose entry in the index begins with `key`, over `row`, or answers false where there is no more. `entry`
/// and `found` are written over.
pub(crate) fn next_row<S: Store>(
    store: &mut S,
    table: u32,
    width: usize,
    key: &Row,
    entry: &mut Row,
    found: &mut Row,
    row: &mut Row,
) -> Result<bool, StoreFault>
    requires entries { IsSome ((S.Store.view store.old).cursors 0) }
    requires rows { IsSome ((S.Store.view store.old).cursors 1) }
    ensures told { IfOk result (λ more. IsClean (S.Store.view store.new) → IsWalk (S.Store.view store.old) table
        → Leads (reached (S.Store.view store.old) table width key.now) row.new (reached (S.Store.view store.new) table width key.now) more) }
    ensures walk { OnOk result (IsClean (S.Store.view store.new) → IsWalk (S.Store.view store.old) table → IsWalk (S.Store.view store.new) table) }
    ensures steps { OnOk result (Steps (S.Store.view store.old) (S.Store.view store.new)) }
    ensures ours { IfErr result (λ fault. ¬ (IsForeign fault)) }
    ensures looks { Looks S.Store store.old store.new }
{
    match store.next(0, entry) {
        Ok(true) => {}
        Ok(false) => return Ok(false),
        Err(error) => return Err(fault_of(error)),
    }
    match entry.cmp_prefix(Order::PLAIN, key) {
        // The seek has passed such entries.
        Ordering::Less => return Err(StoreFault::Disk),
        Ordering::Greater => return Ok(false),
        Ordering::Equal => {}
    }
    read_row(store, table, width, entry, found, row)?;
    Ok(true)
}
