//! Whether the rows that an index finds are those that others write. Each is compared as the walk comes to it, so that no
//! more than one is in memory.

ghost use Rattle.std.specs.Prelude.{◌≡◌, ◌↔◌, [], drop, length, map, IsSome, IsTrue, IfOk, IfErr, OnOk};
ghost use Rattle.sqlite.specs.Value.{owned};
ghost use Rattle.sqlite.specs.Values.{bound, bound_value};
ghost use Rattle.sqlite_value.specs.Order.{column};
ghost use Rattle.sqlite_trees.specs.View.{IsClean};
ghost use Rattle.osm_rows.specs.Keeping.{IsForeign};
ghost use Rattle.osm_tree_audits.specs.Looking.{IsSound, Looks};
ghost use Rattle.osm_tree_audits.specs.Walking.{Begins, CanWalk, IsWalkBy, reached_by};

use crate::tables::ElementTable;
use crate::values::is_integer;
use crate::ways::{Way, next_by};
use osm_rows::{StoreFault, TableRow};
use sqlite_trees::store::Store;
use sqlite_value::order::is_same;
use sqlite_value::row::Row;
use sqlite_value::value::ValueRef;
use std::alloc::Global;

/// Whether a column of a row has what `sqlite` keeps of a value, which is NULL for a NaN.
#[inline(always)]
fn is_kept(row: &Row, at: usize, value: ValueRef<'_>) -> bool
    ensures { IsTrue result ↔ (column row.now at ≡ bound_value (owned value.entry)) }
{
    match value {
        ValueRef::Null => is_same(row.get(at), value),
        ValueRef::Int(number) => is_integer(row.get(at), number),
        ValueRef::Real(number) => {
            if number.is_nan() {
                is_same(row.get(at), ValueRef::Null)
            } else {
                is_same(row.get(at), value)
            }
        }
        ValueRef::Text(_) => is_same(row.get(at), value),
        ValueRef::Blob(_) => is_same(row.get(at), value),
    }
}

/// Whether a row has exactly these values behind its rowid.
fn has_values(row: &Row, values: &[ValueRef<'_>]) -> bool
    ensures { IsTrue result ↔ (drop 1 row.now ≡ bound values.now) }
{
    if row.len().saturating_sub(1) != values.len() {
        return false;
    }
    for at in 0..values.len() {
        if !is_kept(row, at + 1, values[at]) {
            return false;
        }
    }
    true
}

/// Whether the rows that a walk finds next, of those whose entries begin with the one value of `key`, are these, in the same
/// order.
pub(crate) fn finds_next<'v, S: Store, R: TableRow>(
    alloc: Global,
    store: &mut S,
    way: Way,
    of: ElementTable,
    key: &Row,
    expected: &'v [R],
) -> Result<bool, StoreFault>
    requires one { length key.now ≡ 1 }
    requires ready { CanWalk (S.Store.view store.old) }
    ensures told { IfOk result (λ told. IsClean (S.Store.view store.new) → IsWalkBy way (S.Store.view store.old) of
        → Begins (reached_by way (S.Store.view store.old) of key.now) (map R.columns expected.now) (reached_by way (S.Store.view store.new) of key.now) told) }
    ensures walk { OnOk result (IsClean (S.Store.view store.new) → IsWalkBy way (S.Store.view store.old) of → IsWalkBy way (S.Store.view store.new) of) }
    ensures ready { OnOk result (CanWalk (S.Store.view store.new)) }
    ensures ours { IfErr result (λ fault. ¬ (IsForeign fault)) }
    ensures looks { Looks S.Store store.old store.new }
{
    let mut entry = Row::new(alloc);
    let mut found = Row::new(alloc);
    let mut row = Row::new(alloc);
    let mut values = Vec::new(alloc);
    for at in 0..expected.len() {
        if !next_by(store, way, of, key, &mut entry, &mut found, &mut row)? {
            return Ok(false);
        }
        values.clear();
        expected[at].push_values(&mut values)?;
        if !has_values(&row, &values) {
            return Ok(false);
        }
    }
    Ok(true)
}

/// Whether a walk finds no more row whose entry begins with the one value of `key`.
pub(crate) fn finds_no_more<S: Store>(
    alloc: Global,
    store: &mut S,
    way: Way,
    of: ElementTable,
    key: &Row,
) -> Result<bool, StoreFault>
    requires one { length key.now ≡ 1 }
    requires entries { IsSome ((S.Store.view store.old).cursors 0) }
    requires rows { IsSome ((S.Store.view store.old).cursors 1) }
    ensures told { IfOk result (λ told. IsClean (S.Store.view store.new) → IsWalkBy way (S.Store.view store.old) of → (IsTrue told ↔ (reached_by way (S.Store.view store.old) of key.now ≡ []))) }
    ensures sound { OnOk result (IsSound S.Store store.new) }
    ensures ours { IfErr result (λ fault. ¬ (IsForeign fault)) }
    ensures looks { Looks S.Store store.old store.new }
{
    let mut entry = Row::new(alloc);
    let mut found = Row::new(alloc);
    let mut row = Row::new(alloc);
    let more = next_by(store, way, of, key, &mut entry, &mut found, &mut row)?;
    Ok(!more)
}
