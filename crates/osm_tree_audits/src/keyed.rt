//! The rows of a table that an index finds by the first columns of its entries.

ghost use Rattle.std.specs.Prelude.{◌≡◌, drop, IfOk, IfErr, OnOk};
ghost use Rattle.sqlite_trees.specs.View.{IsClean};
ghost use Rattle.osm_rows.specs.Keeping.{IsForeign};
ghost use Rattle.osm_tree_audits.specs.Looking.{IsSound, Looks};
ghost use Rattle.osm_tree_audits.specs.Finding.{Finds};

use crate::walk::{begin_walk, next_row};
use osm_rows::StoreFault;
use sqlite_exec::work::FromRow;
use sqlite_trees::store::{Shape, Store};
use sqlite_value::keys::Order;
use sqlite_value::row::Row;
use std::alloc::{AllocError, Global};

/// Copies what follows the rowid.
fn copy_columns(row: &Row, columns: &mut Row) -> Result<(), AllocError>
    ensures { OnOk result (columns.new ≡ drop 1 row.now) }
{
    columns.clear();
    for at in 1..row.len() {
        columns.push(row.get(at))?;
    }
    Ok(())
}

/// The rows of the table whose entries in the index begin with this key, without their rowids, in the index's order.
/// An entry names a row by the number behind its columns, of which there are `width`. No more rows than these are in memory.
/// A fault is that of a read that has failed, `Memory`, or `Disk` where the trees are no such table and index.
pub fn rows_with<S: Store, R: FromRow>(
    alloc: Global,
    store: &mut S,
    index: u32,
    table: u32,
    width: usize,
    key: &Row,
) -> Result<Vec<R>, StoreFault>
    ensures rows { IfOk result (λ rows. IsClean (S.Store.view store.new) → Finds R.FromRow.from_row_gives (S.Store.view store.old).trees index table width key.now rows.items) }
    ensures sound { OnOk result (IsSound S.Store store.new) }
    ensures ours { IfErr result (λ fault. ¬ (IsForeign fault)) }
    ensures looks { Looks S.Store store.old store.new }
{
    if store.shape(index) != Shape::Index(Order::PLAIN) || store.shape(table) != Shape::Table {
        return Err(StoreFault::Disk);
    }
    begin_walk(alloc, store, index, table, key)?;
    let mut entry = Row::new(alloc);
    let mut found = Row::new(alloc);
    let mut row = Row::new(alloc);
    let mut columns = Row::new(alloc);
    let mut rows = Vec::new(alloc);
    'rows: for _ in 0..u64::MAX {
        if !next_row(store, table, width, key, &mut entry, &mut found, &mut row)? {
            return Ok(rows);
        }
        copy_columns(&row, &mut columns)?;
        rows.push(R::from_row(alloc, &columns)?)?;
    }
    // No sound store has this many rows.
    Err(StoreFault::Memory)
}
