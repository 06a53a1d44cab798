//! The rowid after the last one of a table.

ghost use Rattle.std.specs.Prelude.{◌≡◌, false, IfOk, OnOk};
ghost use Rattle.sqlite_trees.specs.View.{IsClean};
ghost use Rattle.sqlite_exec.specs.Calls.{OnlyReads};
ghost use Rattle.osm_tree_writes.specs.Appending.{IsAfter};
ghost use Rattle.osm_tree_writes.specs.Harmless.{IsHarmless};

use crate::fault::fault_of;
use osm_rows::StoreFault;
use sqlite_exec::write::last;
use sqlite_trees::store::{Shape, Store};
use sqlite_value::row::Row;
use sqlite_value::value::ValueRef;
use std::alloc::Global;

/// A rowid above all those of the table. A fault is `Full` where the last one is the greatest that there is.
pub(crate) fn next_rowid<S: Store>(
    alloc: Global,
    store: &mut S,
    table: u32,
) -> Result<i64, StoreFault>
    requires { IsClean (S.Store.view store.old) → (S.Store.view store.old).shape table ≡ Shape.Table }
    ensures after { IfOk result (λ next. IsClean (S.Store.view store.new) → IsAfter next ((S.Store.view store.old).trees table)) }
    ensures same { OnOk result (IsClean (S.Store.view store.new) → OnlyReads (S.Store.view store.old) (S.Store.view store.new)) }
    ensures sound { OnOk result (IsClean (S.Store.view store.new) → (S.Store.view store.old).is_broken ≡ false) }
    ensures harmless { IsHarmless S.Store.view S.Store.faults S.Store.recovers S.Store.is_shielded store.old result store.new }
{
    let mut row = Row::new(alloc);
    match last(store, table, &mut row) {
        Ok(true) => match row.get(0) {
            ValueRef::Int(id) => id.checked_add(1).ok_or(StoreFault::Full),
            _ => Err(StoreFault::Disk),
        },
        Ok(false) => Ok(1),
        Err(error) => Err(fault_of(error)),
    }
}
