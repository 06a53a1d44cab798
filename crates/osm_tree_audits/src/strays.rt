//! Rows of elements, of tags and of links at whose offset no blob is held.

ghost use Rattle.std.specs.Prelude.{◌≡◌, ◌↔◌, All, IsTrue, IfSome, IfOk, IfErr, OnOk, MatchOption};
ghost use Rattle.sqlite_value.specs.declared.value.Value.TheVariants.{Int};
ghost use Rattle.sqlite_value.specs.Order.{column};
ghost use Rattle.sqlite_trees.specs.View.{IsClean};
ghost use Rattle.osm_rows.specs.Keeping.{IsForeign};
ghost use Rattle.osm_tree_audits.specs.Looking.{IsSound, Looks, Steps};
ghost use Rattle.osm_tree_audits.specs.ElementTables.{table_of};
ghost use Rattle.osm_tree_audits.specs.Strays.{HasBlob, IsStrayRow, LacksBlob};

use crate::tables::ElementTable;
use osm_rows::StoreFault;
use osm_rows::trees::BLOBS;
use osm_tree_writes::fault_of;
use sqlite_trees::store::{Direction, Shape, Store};
use sqlite_value::row::Row;
use sqlite_value::value::ValueRef;
use std::alloc::Global;

/// A row of the table of elements, of tags or of links at whose offset no blob is held.
#[derive(Clone, Copy, Debug, PartialEq, Eq)]
pub struct Stray {
    pub table: ElementTable,
    pub off: i64,
}

/// Whether no blob is held at an offset. `blob` is written over.
fn lacks_blob<S: Store>(store: &mut S, off: i64, blob: &mut Row) -> Result<bool, StoreFault>
    ensures told { IfOk result (λ told. IsClean (S.Store.view store.new) → (IsTrue told ↔ LacksBlob (S.Store.view store.old).trees off)) }
    ensures same { OnOk result (IsClean (S.Store.view store.new) → S.Store.view store.new ≡ S.Store.view store.old) }
    ensures steps { OnOk result (Steps (S.Store.view store.old) (S.Store.view store.new)) }
    ensures ours { IfErr result (λ fault. ¬ (IsForeign fault)) }
    ensures looks { Looks S.Store store.old store.new }
{
    if store.shape(BLOBS) != Shape::Table {
        return Err(StoreFault::Disk);
    }
    match store.get(BLOBS, off, blob) {
        Ok(found) => Ok(!found),
        Err(error) => Err(fault_of(error)),
    }
}

/// The offset of a row, if no blob is held there. A blob is held at `held`, which becomes the row's: the rows of a blob follow one
/// another, so that it is looked for once. `blob` is written over.
fn stray_offset<S: Store>(
    store: &mut S,
    row: &Row,
    held: &mut Option<i64>,
    blob: &mut Row,
) -> Result<Option<i64>, StoreFault>
    requires { IsSound S.Store store.old }
    ensures told { IfOk result (λ stray. IsClean (S.Store.view store.new) → IfSome held.old (λ off. ¬ (LacksBlob (S.Store.view store.old).trees off))
        → MatchOption stray (HasBlob (S.Store.view store.old).trees row.now) (λ off. (column row.now 1 ≡ Int off) × LacksBlob (S.Store.view store.old).trees off)) }
    ensures held { OnOk result (IsClean (S.Store.view store.new) → IfSome held.old (λ off. ¬ (LacksBlob (S.Store.view store.old).trees off)) → IfSome held.new (λ off. ¬ (LacksBlob (S.Store.view store.old).trees off))) }
    ensures same { OnOk result (IsClean (S.Store.view store.new) → S.Store.view store.new ≡ S.Store.view store.old) }
    ensures steps { OnOk result (Steps (S.Store.view store.old) (S.Store.view store.new)) }
    ensures ours { IfErr result (λ fault. ¬ (IsForeign fault)) }
    ensures looks { Looks S.Store store.old store.new }
{
    let ValueRef::Int(off) = row.get(1) else {
        return Ok(None);
    };
    if *held == Some(off) {
        return Ok(None);
    }
    if lacks_blob(store, off, blob)? {
        return Ok(Some(off));
    }
    *held = Some(off);
    Ok(None)
}

/// A row of one table that belongs to no blob, if there is one.
fn stray_in<S: Store>(
    alloc: Global,
    store: &mut S,
    of: ElementTable,
) -> Result<Option<Stray>, StoreFault>
    ensures told { IfOk result (λ found. IsClean (S.Store.view store.new)
        → MatchOption found (All (HasBlob (S.Store.view store.old).trees) ((S.Store.view store.old).trees (table_of of))) (IsStrayRow (S.Store.view store.old).trees)) }
    ensures sound { OnOk result (IsSound S.Store store.new) }
    ensures ours { IfErr result (λ fault. ¬ (IsForeign fault)) }
    ensures looks { Looks S.Store store.old store.new }
{
    let mut row = Row::new(alloc);
    let mut blob = Row::new(alloc);
    if let Err(error) = store.seek(0, of.table(), &row, Direction::Forward) {
        return Err(fault_of(error));
    }
    let mut held = None;
    'rows: for _ in 0..u64::MAX {
        match store.next(0, &mut row) {
            Ok(true) => {}
            Ok(false) => return Ok(None),
            Err(error) => return Err(fault_of(error)),
        }
        if let Some(off) = stray_offset(store, &row, &mut held, &mut blob)? {
            return Ok(Some(Stray { table: of, off }));
        }
    }
    // No sound store has this many rows.
    Err(StoreFault::Memory)
}

/// A row that belongs to no blob, if there is one: of the table of elements, else of that of tags, else of that of links. Of the
/// rows nothing has to be known; one whose offset is no integer isn't told. No more than one row and a blob's are in memory. A
/// fault is that of a read that has failed, `Memory`, or `Disk` where the trees have no table of blobs.
pub fn stray_row<S: Store>(alloc: Global, store: &mut S) -> Result<Option<Stray>, StoreFault>
    ensures told { IfOk result (λ found. IsClean (S.Store.view store.new)
        → MatchOption found ((stray : _) → ¬ (IsStrayRow (S.Store.view store.old).trees stray)) (IsStrayRow (S.Store.view store.old).trees)) }
    ensures sound { OnOk result (IsSound S.Store store.new) }
    ensures ours { IfErr result (λ fault. ¬ (IsForeign fault)) }
    ensures looks { Looks S.Store store.old store.new }
{
    if let Some(stray) = stray_in(alloc, store, ElementTable::Elements)? {
        return Ok(Some(stray));
    }
    if let Some(stray) = stray_in(alloc, store, ElementTable::Tags)? {
        return Ok(Some(stray));
    }
    stray_in(alloc, store, ElementTable::Links)
}
