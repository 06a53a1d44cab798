//! Rows put behind the last one of a table, each with its entries in the table's indexes.

ghost use Rattle.std.specs.Prelude.{◌≡◌, ◌∷◌, map, IsTrue, OnOk};
ghost use Rattle.sqlite_value.specs.declared.value.Value.TheVariants.{Int};
ghost use Rattle.sqlite_value.specs.Keys.{plain};
ghost use Rattle.sqlite_trees.specs.declared.store.Shape.TheVariants.{Table};
ghost use Rattle.sqlite_trees.specs.Tree.{rowid, put_row, insert_entry};
ghost use Rattle.sqlite_trees.specs.View.{IsClean, SetsTree, is_int};
ghost use Rattle.sqlite_sql.specs.Catalog.{entry_of};
ghost use Rattle.sqlite.specs.Values.{bound};
ghost use Rattle.osm_tree_writes.specs.Appending.{columns_of, AreIndexesAt, IsApart, IsApartOf, IsIndexAt, IsTableAt, Appends, AppendsRow, PutsEntries};
ghost use Rattle.osm_tree_writes.specs.Harmless.{IsHarmless};

use crate::fault::fault_of;
use crate::layout::{IndexTree, TableTree};
use crate::rowid::next_rowid;
use osm_rows::{StoreFault, TableRow};
use sqlite_schema::schema::Index;
use sqlite_trees::store::{Shape, Store};
use sqlite_value::row::Row;
use sqlite_value::value::ValueRef;
use std::alloc::{AllocError, Global};

/// Writes a row's entry in an index over `entry`. Columns past the greatest place count as out of memory.
fn make_entry(entry: &mut Row, index: IndexTree, row: &Row) -> Result<(), AllocError>
    ensures { OnOk result (entry.new ≡ entry_of (columns_of index) row.now) }
{
    entry.clear();
    let Some(end) = index.first.checked_add(index.width) else {
        return Err(AllocError);
    };
    for at in index.first..end {
        entry.push(row.get(at))?;
    }
    entry.push(row.get(0))
}

/// Puts a row's entry into an index.
fn put_entry<S: Store>(
    store: &mut S,
    index: IndexTree,
    row: &Row,
    entry: &mut Row,
) -> Result<(), StoreFault>
    requires { IsClean (S.Store.view store.old) → IsIndexAt (S.Store.view store.old).shape index }
    ensures ok { OnOk result (IsClean (S.Store.view store.new) → SetsTree (S.Store.view store.old) (S.Store.view store.new) index.tree (insert_entry plain (entry_of (columns_of index) row.now))) }
    ensures harmless { IsHarmless S.Store.view S.Store.faults S.Store.recovers S.Store.is_shielded store.old result store.new }
{
    make_entry(entry, index, row)?;
    store.insert(index.tree, entry).map_err(fault_of)
}

/// Puts a row into a table. It takes the place of one that has its rowid.
pub(crate) fn put_table_row<S: Store>(
    store: &mut S,
    table: u32,
    row: &Row,
) -> Result<(), StoreFault>
    requires table { IsClean (S.Store.view store.old) → (S.Store.view store.old).shape table ≡ Table }
    requires keyed { IsTrue (is_int (rowid row.now)) }
    ensures ok { OnOk result (IsClean (S.Store.view store.new) → SetsTree (S.Store.view store.old) (S.Store.view store.new) table (put_row row.now)) }
    ensures harmless { IsHarmless S.Store.view S.Store.faults S.Store.recovers S.Store.is_shielded store.old result store.new }
{
    store.put(table, row).map_err(fault_of)
}

/// Writes a row's entry in an index of these columns over `entry`.
fn make_entry_of(entry: &mut Row, columns: &[usize], row: &Row) -> Result<(), AllocError>
    ensures { OnOk result (entry.new ≡ entry_of columns.now row.now) }
{
    entry.clear();
    for at in columns {
        entry.push(row.get(*at))?;
    }
    entry.push(row.get(0))
}

/// Puts a row's entry into an index that the user has added.
fn put_entry_of<S: Store>(
    store: &mut S,
    added: &Index,
    row: &Row,
    entry: &mut Row,
) -> Result<(), StoreFault>
    requires { IsClean (S.Store.view store.old) → (S.Store.view store.old).shape added.now.tree ≡ Shape.Index added.now.order }
    ensures ok { OnOk result (IsClean (S.Store.view store.new) → SetsTree (S.Store.view store.old) (S.Store.view store.new) added.now.tree (insert_entry added.now.order (entry_of added.now.columns row.now))) }
    ensures harmless { IsHarmless S.Store.view S.Store.faults S.Store.recovers S.Store.is_shielded store.old result store.new }
{
    make_entry_of(entry, added.columns.as_slice(), row)?;
    store.insert(added.tree, entry).map_err(fault_of)
}

/// Puts a row's entries into those of these indexes that are of its table.
fn put_entries<S: Store>(
    store: &mut S,
    table: u32,
    more: &[Index],
    row: &Row,
    entry: &mut Row,
) -> Result<(), StoreFault>
    requires { IsClean (S.Store.view store.old) → AreIndexesAt (S.Store.view store.old).shape more.now }
    ensures ok { OnOk result (IsClean (S.Store.view store.new) → PutsEntries more.now table row.now (S.Store.view store.old) (S.Store.view store.new)) }
    ensures harmless { IsHarmless S.Store.view S.Store.faults S.Store.recovers S.Store.is_shielded store.old result store.new }
{
    for index in more {
        if index.table == table {
            put_entry_of(store, index, row, entry)?;
        }
    }
    Ok(())
}

/// Puts a row behind the last one of a table, with its entries in the indexes of a store, and in those that the user has added.
fn append_row<S: Store>(
    store: &mut S,
    table: &TableTree,
    more: &[Index],
    row: &Row,
    entry: &mut Row,
) -> Result<(), StoreFault>
    requires shaped { IsClean (S.Store.view store.old) → IsTableAt (S.Store.view store.old).shape table.now }
    requires more { IsClean (S.Store.view store.old) → AreIndexesAt (S.Store.view store.old).shape more.now }
    requires apart { IsApart table.now }
    requires apart_of { IsApartOf table.now more.now }
    requires keyed { IsTrue (is_int (rowid row.now)) }
    ensures appended { OnOk result (IsClean (S.Store.view store.new) → AppendsRow table.now more.now row.now (S.Store.view store.old) (S.Store.view store.new)) }
    ensures harmless { IsHarmless S.Store.view S.Store.faults S.Store.recovers S.Store.is_shielded store.old result store.new }
{
    put_table_row(store, table.tree, row)?;
    put_entry(store, table.key, row, entry)?;
    if let Some(index) = table.by_id {
        put_entry(store, index, row, entry)?;
    }
    put_entries(store, table.tree, more, row, entry)
}

/// Writes a row with this rowid. A NaN is written as NULL, as `sqlite` writes it.
fn make_row(row: &mut Row, rowid: i64, values: &[ValueRef<'_>]) -> Result<(), AllocError>
    ensures { OnOk result (row.new ≡ Int rowid ∷ bound values.now) }
{
    row.clear();
    row.push(ValueRef::Int(rowid))?;
    for value in values {
        match value {
            ValueRef::Real(number) if number.is_nan() => row.push(ValueRef::Null)?,
            _ => row.push(*value)?,
        }
    }
    Ok(())
}

/// Puts rows behind the last one of a table, in this order, each with its entries in the indexes.
pub(crate) fn append_rows<S: Store, R: TableRow>(
    alloc: Global,
    store: &mut S,
    table: &TableTree,
    more: &[Index],
    rows: &[R],
) -> Result<(), StoreFault>
    requires shaped { IsClean (S.Store.view store.old) → IsTableAt (S.Store.view store.old).shape table.now }
    requires more { IsClean (S.Store.view store.old) → AreIndexesAt (S.Store.view store.old).shape more.now }
    requires apart { IsApart table.now }
    requires apart_of { IsApartOf table.now more.now }
    ensures appended { OnOk result (IsClean (S.Store.view store.new) → Appends table.now more.now (map R.columns rows.now) (S.Store.view store.old) (S.Store.view store.new)) }
    ensures harmless { IsHarmless S.Store.view S.Store.faults S.Store.recovers S.Store.is_shielded store.old result store.new }
{
    let mut rowid = next_rowid(alloc, store, table.tree)?;
    let mut values = Vec::new(alloc);
    let mut row = Row::new(alloc);
    let mut entry = Row::new(alloc);
    for written in rows {
        values.clear();
        written.push_values(&mut values)?;
        make_row(&mut row, rowid, &values)?;
        append_row(store, table, more, &row, &mut entry)?;
        let Some(next) = rowid.checked_add(1) else {
            return Err(StoreFault::Full);
        };
        rowid = next;
    }
    Ok(())
}
