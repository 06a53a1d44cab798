//! Whether each index of a store has one entry for each row of its table, and no other.

ghost use Rattle.std.specs.Prelude.{◌≡◌, ◌↔◌, ◌∷◌, [], Contains, IsSome, IsTrue, IfOk, IfErr, IfSome, OnOk};
ghost use Rattle.sqlite_trees.specs.Tree.{IsIndexShape};
ghost use Rattle.sqlite_trees.specs.View.{IsClean};
ghost use Rattle.sqlite_sql.specs.Catalog.{entry_of, IsIndexOf};
ghost use Rattle.sqlite_exec.specs.Loops.{left_of};
ghost use Rattle.osm_rows.specs.Keeping.{IsForeign};
ghost use Rattle.osm_tree_audits.specs.Looking.{HasTable, IsSound, KeepsCursor, KeepsOtherCursors, Looks, Steps};
ghost use Rattle.osm_tree_audits.specs.Looks.{AreEntered, CountsIf, CountsInStep, SeesIndex};
ghost use Rattle.osm_tree_audits.specs.Walking.{IsNext, AreAmong};

use crate::counts::count;
use crate::look::TableLook;
use crate::values::are_same;
use osm_rows::StoreFault;
use osm_tree_writes::fault_of;
use sqlite_trees::store::{Direction, Shape, Store};
use sqlite_value::keys::Order;
use sqlite_value::row::Row;
use std::alloc::{AllocError, Global};
use std::fmt;

/// An index of a store.
#[derive(Clone, Copy, Debug, PartialEq, Eq)]
pub enum StoreIndex {
    /// That of the primary key of the table of elements.
    ElementKey,
    /// That of the primary key of the table of tags.
    TagKey,
    /// That of the primary key of the table of links.
    LinkKey,
    /// Elements by kind and id.
    ElementById,
}

impl fmt::Display for StoreIndex {
    /// Its name in `sqlite_schema`.
    fn fmt<W: fmt::Write>(&self, f: &mut fmt::Formatter<W>) -> fmt::Result {
        f.write_str(match self {
            StoreIndex::ElementKey => "sqlite_autoindex_element_1",
            StoreIndex::TagKey => "sqlite_autoindex_tag_1",
            StoreIndex::LinkKey => "sqlite_autoindex_link_1",
            StoreIndex::ElementById => "element_by_id",
        })
    }
}

/// Writes a row's entry in an index over `entry`.
fn make_entry(entry: &mut Row, columns: &[usize], row: &Row) -> Result<(), AllocError>
    ensures { OnOk result (entry.new ≡ entry_of columns.now row.now) }
{
    entry.clear();
    for at in columns {
        entry.push(row.get(*at))?;
    }
    entry.push(row.get(0))
}

/// Whether the cursor 1 gives this entry next. It moves on.
fn next_is<S: Store>(store: &mut S, entry: &Row, found: &mut Row) -> Result<bool, StoreFault>
    requires { IsSome ((S.Store.view store.old).cursors 1) }
    ensures told { IfOk result (λ told. IsClean (S.Store.view store.new) → (IsTrue told ↔ IsNext (S.Store.view store.old) entry.now)) }
    ensures left { OnOk result (IsClean (S.Store.view store.new) → AreAmong (left_of (S.Store.view store.old) 1) (left_of (S.Store.view store.new) 1)) }
    ensures rows { KeepsCursor S.Store 0 store.old result store.new }
    ensures steps { OnOk result (Steps (S.Store.view store.old) (S.Store.view store.new)) }
    ensures ours { IfErr result (λ fault. ¬ (IsForeign fault)) }
    ensures looks { Looks S.Store store.old store.new }
{
    match store.next(1, found) {
        Ok(true) => Ok(found.is_same(entry)),
        Ok(false) => Ok(false),
        Err(error) => Err(fault_of(error)),
    }
}

/// Whether an index has this entry. The cursor 1 is left behind it.
fn seek_is<S: Store>(
    store: &mut S,
    tree: u32,
    entry: &Row,
    found: &mut Row,
) -> Result<bool, StoreFault>
    requires { IsClean (S.Store.view store.old) → IsIndexShape ((S.Store.view store.old).shape tree) }
    ensures told { IfOk result (λ told. IsClean (S.Store.view store.new) → (IsTrue told ↔ Contains ((S.Store.view store.old).trees tree) entry.now)) }
    ensures left { OnOk result (IsClean (S.Store.view store.new) → AreAmong ((S.Store.view store.old).trees tree) (left_of (S.Store.view store.new) 1)) }
    ensures rows { KeepsCursor S.Store 0 store.old result store.new }
    ensures steps { OnOk result (Steps (S.Store.view store.old) (S.Store.view store.new)) }
    ensures ours { IfErr result (λ fault. ¬ (IsForeign fault)) }
    ensures looks { Looks S.Store store.old store.new }
{
    if let Err(error) = store.seek(1, tree, entry, Direction::Forward) {
        return Err(fault_of(error));
    }
    next_is(store, entry, found)
}

/// Whether an index, of whose entries the cursor 1 has some left, has this entry. Where it isn't the next one it is sought:
/// rows that were written in the order of an index cost no search.
fn has_entry<S: Store>(
    store: &mut S,
    tree: u32,
    entry: &Row,
    found: &mut Row,
) -> Result<bool, StoreFault>
    requires shaped { IsClean (S.Store.view store.old) → IsIndexShape ((S.Store.view store.old).shape tree) }
    requires live { IsSome ((S.Store.view store.old).cursors 1) }
    ensures told { IfOk result (λ told. IsClean (S.Store.view store.new) → AreAmong ((S.Store.view store.old).trees tree) (left_of (S.Store.view store.old) 1) → (IsTrue told ↔ Contains ((S.Store.view store.old).trees tree) entry.now)) }
    ensures left { OnOk result (IsClean (S.Store.view store.new) → AreAmong ((S.Store.view store.old).trees tree) (left_of (S.Store.view store.old) 1) → AreAmong ((S.Store.view store.old).trees tree) (left_of (S.Store.view store.new) 1)) }
    ensures rows { KeepsCursor S.Store 0 store.old result store.new }
    ensures steps { OnOk result (Steps (S.Store.view store.old) (S.Store.view store.new)) }
    ensures ours { IfErr result (λ fault. ¬ (IsForeign fault)) }
    ensures looks { Looks S.Store store.old store.new }
{
    if next_is(store, entry, found)? {
        return Ok(true);
    }
    seek_is(store, tree, entry, found)
}

/// How many rows a table has, if an index has an entry for each.
fn count_entered<S: Store>(
    alloc: Global,
    store: &mut S,
    table: u32,
    tree: u32,
    columns: &[usize],
) -> Result<Option<u64>, StoreFault>
    requires index { IsClean (S.Store.view store.old) → IsIndexShape ((S.Store.view store.old).shape tree) }
    requires table { HasTable S.Store store.old table }
    ensures told { IfOk result (λ counted. IsClean (S.Store.view store.new)
        → CountsIf (AreEntered columns.now ((S.Store.view store.old).trees table) ((S.Store.view store.old).trees tree)) ((S.Store.view store.old).trees table) counted) }
    ensures sound { OnOk result (IsSound S.Store store.new) }
    ensures ours { IfErr result (λ fault. ¬ (IsForeign fault)) }
    ensures looks { Looks S.Store store.old store.new }
{
    let mut row = Row::new(alloc);
    let mut entry = Row::new(alloc);
    let mut found = Row::new(alloc);
    if let Err(error) = store.seek(1, tree, &entry, Direction::Forward) {
        return Err(fault_of(error));
    }
    if let Err(error) = store.seek(0, table, &row, Direction::Forward) {
        return Err(fault_of(error));
    }
    let mut count = 0u64;
    'rows: for _ in 0..u64::MAX {
        match store.next(0, &mut row) {
            Ok(true) => {}
            Ok(false) => return Ok(Some(count)),
            Err(error) => return Err(fault_of(error)),
        }
        make_entry(&mut entry, columns, &row)?;
        if !has_entry(store, tree, &entry, &mut found)? {
            return Ok(None);
        }
        count = count.checked_add(1).ok_or(StoreFault::Memory)?;
    }
    // No sound store has this many rows.
    Err(StoreFault::Memory)
}

/// How many rows a table has, if an index has one entry for each of them, and no other: by a search for each entry that isn't
/// the next one.
fn count_indexed<S: Store>(
    alloc: Global,
    store: &mut S,
    table: u32,
    tree: u32,
    columns: &[usize],
) -> Result<Option<u64>, StoreFault>
    requires index { IsClean (S.Store.view store.old) → IsIndexShape ((S.Store.view store.old).shape tree) }
    requires table { HasTable S.Store store.old table }
    ensures told { IfOk result (λ counted. IsClean (S.Store.view store.new)
        → CountsIf (IsIndexOf columns.now ((S.Store.view store.old).trees table) ((S.Store.view store.old).trees tree)) ((S.Store.view store.old).trees table) counted) }
    ensures sound { OnOk result (IsSound S.Store store.new) }
    ensures ours { IfErr result (λ fault. ¬ (IsForeign fault)) }
    ensures looks { Looks S.Store store.old store.new }
{
    let Some(rows) = count_entered(alloc, store, table, tree, columns)? else {
        return Ok(None);
    };
    let entries = count(alloc, store, tree)?;
    if rows != entries {
        return Ok(None);
    }
    Ok(Some(rows))
}

/// Whether an entry of an index is that of a row.
fn is_entry_of(entry: &Row, columns: &[usize], row: &Row) -> bool
    ensures { IsTrue result ↔ (entry.now ≡ entry_of columns.now row.now) }
{
    if entry.len() != columns.len() + 1 {
        return false;
    }
    for at in 0..columns.len() {
        if !are_same(entry, at, row, columns[at]) {
            return false;
        }
    }
    are_same(entry, columns.len(), row, 0)
}

/// Whether a cursor over an index gives the entry of this row next. It moves on.
fn next_is_of<S: Store>(
    store: &mut S,
    cursor: u16,
    columns: &[usize],
    row: &Row,
    found: &mut Row,
) -> Result<bool, StoreFault>
    requires { IsSome ((S.Store.view store.old).cursors cursor) }
    ensures told { IfOk result (λ told. IsClean (S.Store.view store.new) → IsTrue told → (left_of (S.Store.view store.old) cursor ≡ entry_of columns.now row.now ∷ left_of (S.Store.view store.new) cursor)) }
    ensures others { KeepsOtherCursors S.Store cursor store.old result store.new }
    ensures steps { OnOk result (Steps (S.Store.view store.old) (S.Store.view store.new)) }
    ensures ours { IfErr result (λ fault. ¬ (IsForeign fault)) }
    ensures looks { Looks S.Store store.old store.new }
{
    match store.next(cursor, found) {
        Ok(true) => Ok(is_entry_of(found, columns, row)),
        Ok(false) => Ok(false),
        Err(error) => Err(fault_of(error)),
    }
}

/// Whether a cursor has no more to give.
fn has_ended<S: Store>(store: &mut S, cursor: u16, found: &mut Row) -> Result<bool, StoreFault>
    requires { IsSome ((S.Store.view store.old).cursors cursor) }
    ensures told { IfOk result (λ told. IsClean (S.Store.view store.new) → IsTrue told → (left_of (S.Store.view store.old) cursor ≡ [])) }
    ensures others { KeepsOtherCursors S.Store cursor store.old result store.new }
    ensures steps { OnOk result (Steps (S.Store.view store.old) (S.Store.view store.new)) }
    ensures ours { IfErr result (λ fault. ¬ (IsForeign fault)) }
    ensures looks { Looks S.Store store.old store.new }
{
    match store.next(cursor, found) {
        Ok(more) => Ok(!more),
        Err(error) => Err(fault_of(error)),
    }
}

/// The count, if a cursor has no more to give.
fn count_if_ended<S: Store>(
    store: &mut S,
    cursor: u16,
    count: u64,
    found: &mut Row,
) -> Result<Option<u64>, StoreFault>
    requires { IsSome ((S.Store.view store.old).cursors cursor) }
    ensures told { IfOk result (λ counted. IsClean (S.Store.view store.new) → IfSome counted (λ n. (n ≡ count) × (left_of (S.Store.view store.old) cursor ≡ []))) }
    ensures others { KeepsOtherCursors S.Store cursor store.old result store.new }
    ensures steps { OnOk result (Steps (S.Store.view store.old) (S.Store.view store.new)) }
    ensures ours { IfErr result (λ fault. ¬ (IsForeign fault)) }
    ensures looks { Looks S.Store store.old store.new }
{
    if !has_ended(store, cursor, found)? {
        return Ok(None);
    }
    Ok(Some(count))
}

/// How many rows a table has, if the entries of an index are those of its rows, in the order of these. Two walks tell, side by
/// side.
fn count_in_step<S: Store>(
    alloc: Global,
    store: &mut S,
    table: u32,
    tree: u32,
    columns: &[usize],
) -> Result<Option<u64>, StoreFault>
    requires index { IsClean (S.Store.view store.old) → IsIndexShape ((S.Store.view store.old).shape tree) }
    requires table { HasTable S.Store store.old table }
    ensures told { IfOk result (λ counted. IsClean (S.Store.view store.new) → CountsInStep (S.Store.view store.old).trees table tree columns.now counted) }
    ensures sound { OnOk result (IsSound S.Store store.new) }
    ensures ours { IfErr result (λ fault. ¬ (IsForeign fault)) }
    ensures looks { Looks S.Store store.old store.new }
{
    let mut row = Row::new(alloc);
    let mut found = Row::new(alloc);
    if let Err(error) = store.seek(1, tree, &found, Direction::Forward) {
        return Err(fault_of(error));
    }
    if let Err(error) = store.seek(0, table, &row, Direction::Forward) {
        return Err(fault_of(error));
    }
    let mut count = 0u64;
    'rows: for _ in 0..u64::MAX {
        match store.next(0, &mut row) {
            Ok(true) => {}
            Ok(false) => return count_if_ended(store, 1, count, &mut found),
            Err(error) => return Err(fault_of(error)),
        }
        if !next_is_of(store, 1, columns, &row, &mut found)? {
            return Ok(None);
        }
        count = count.checked_add(1).ok_or(StoreFault::Memory)?;
    }
    // No sound store has this many rows.
    Err(StoreFault::Memory)
}

/// Whether an index goes on in step with its table: it was so until now, and a cursor over it gives the entry of this row next.
fn goes_on<S: Store>(
    store: &mut S,
    cursor: u16,
    until_now: bool,
    columns: &[usize],
    row: &Row,
    found: &mut Row,
) -> Result<bool, StoreFault>
    requires live { IsSome ((S.Store.view store.old).cursors cursor) }
    requires sound { IsSound S.Store store.old }
    ensures told { IfOk result (λ told. IsClean (S.Store.view store.new) → IsTrue told
        → IsTrue until_now × (left_of (S.Store.view store.old) cursor ≡ entry_of columns.now row.now ∷ left_of (S.Store.view store.new) cursor)) }
    ensures others { KeepsOtherCursors S.Store cursor store.old result store.new }
    ensures steps { OnOk result (Steps (S.Store.view store.old) (S.Store.view store.new)) }
    ensures ours { IfErr result (λ fault. ¬ (IsForeign fault)) }
    ensures looks { Looks S.Store store.old store.new }
{
    if !until_now {
        return Ok(false);
    }
    next_is_of(store, cursor, columns, row, found)
}

/// The count, if an index has been in step with its table to the end: it was so until now, and a cursor over it has no more to
/// give.
fn count_at_end<S: Store>(
    store: &mut S,
    cursor: u16,
    until_now: bool,
    count: u64,
    found: &mut Row,
) -> Result<Option<u64>, StoreFault>
    requires live { IsSome ((S.Store.view store.old).cursors cursor) }
    requires sound { IsSound S.Store store.old }
    ensures told { IfOk result (λ counted. IsClean (S.Store.view store.new) → IfSome counted (λ n. (n ≡ count) × IsTrue until_now × (left_of (S.Store.view store.old) cursor ≡ []))) }
    ensures others { KeepsOtherCursors S.Store cursor store.old result store.new }
    ensures steps { OnOk result (Steps (S.Store.view store.old) (S.Store.view store.new)) }
    ensures ours { IfErr result (λ fault. ¬ (IsForeign fault)) }
    ensures looks { Looks S.Store store.old store.new }
{
    if !until_now {
        return Ok(None);
    }
    count_if_ended(store, cursor, count, found)
}

/// The same of two indexes, with the cursors 1 and 2.
fn counts_at_end<S: Store>(
    store: &mut S,
    one: bool,
    other: bool,
    count: u64,
    found: &mut Row,
) -> Result<(Option<u64>, Option<u64>), StoreFault>
    requires one { IsSome ((S.Store.view store.old).cursors 1) }
    requires other { IsSome ((S.Store.view store.old).cursors 2) }
    requires sound { IsSound S.Store store.old }
    ensures told { IfOk result (λ counted. IsClean (S.Store.view store.new)
        → IfSome counted.0 (λ n. (n ≡ count) × IsTrue one × (left_of (S.Store.view store.old) 1 ≡ []))
        × IfSome counted.1 (λ n. (n ≡ count) × IsTrue other × (left_of (S.Store.view store.old) 2 ≡ []))) }
    ensures sound { OnOk result (IsSound S.Store store.new) }
    ensures ours { IfErr result (λ fault. ¬ (IsForeign fault)) }
    ensures looks { Looks S.Store store.old store.new }
{
    let one = count_at_end(store, 1, one, count, found)?;
    let other = count_at_end(store, 2, other, count, found)?;
    Ok((one, other))
}

/// The same as `count_in_step` of two indexes of one table, which is walked once for both. An index that is out of step is left
/// where it is, and the walk ends where both are.
pub(crate) fn counts_in_step<S: Store>(
    alloc: Global,
    store: &mut S,
    table: u32,
    one: u32,
    one_columns: &[usize],
    other: u32,
    other_columns: &[usize],
) -> Result<(Option<u64>, Option<u64>), StoreFault>
    ensures told { IfOk result (λ counted. IsClean (S.Store.view store.new)
        → CountsInStep (S.Store.view store.old).trees table one one_columns.now counted.0 × CountsInStep (S.Store.view store.old).trees table other other_columns.now counted.1) }
    ensures sound { OnOk result (IsSound S.Store store.new) }
    ensures ours { IfErr result (λ fault. ¬ (IsForeign fault)) }
    ensures looks { Looks S.Store store.old store.new }
{
    let mut row = Row::new(alloc);
    let mut found = Row::new(alloc);
    if let Err(error) = store.seek(1, one, &row, Direction::Forward) {
        return Err(fault_of(error));
    }
    if let Err(error) = store.seek(2, other, &row, Direction::Forward) {
        return Err(fault_of(error));
    }
    if let Err(error) = store.seek(0, table, &row, Direction::Forward) {
        return Err(fault_of(error));
    }
    let mut one_in_step = true;
    let mut other_in_step = true;
    let mut count = 0u64;
    'rows: for _ in 0..u64::MAX {
        match store.next(0, &mut row) {
            Ok(true) => {}
            Ok(false) => return counts_at_end(store, one_in_step, other_in_step, count, &mut found),
            Err(error) => return Err(fault_of(error)),
        }
        one_in_step = goes_on(store, 1, one_in_step, one_columns, &row, &mut found)?;
        other_in_step = goes_on(store, 2, other_in_step, other_columns, &row, &mut found)?;
        if !one_in_step && !other_in_step {
            return Ok((None, None));
        }
        count = count.checked_add(1).ok_or(StoreFault::Memory)?;
    }
    // No sound store has this many rows.
    Err(StoreFault::Memory)
}

/// What is found at an index, if it has one entry for each row of its table, and no other. Of the table it is known how many rows
/// it has, where a walk has shown the index in step with it.
fn seen_at<S: Store>(
    alloc: Global,
    store: &mut S,
    table: u32,
    tree: u32,
    columns: &[usize],
    in_step: Option<u64>,
) -> Result<Option<TableLook>, StoreFault>
    requires index { IsClean (S.Store.view store.old) → IsIndexShape ((S.Store.view store.old).shape tree) }
    requires table { HasTable S.Store store.old table }
    requires step { IsClean (S.Store.view store.old) → CountsInStep (S.Store.view store.old).trees table tree columns.now in_step }
    requires sound { IsSound S.Store store.old }
    ensures told { IfOk result (λ seen. IsClean (S.Store.view store.new) → SeesIndex (S.Store.view store.old).trees table tree columns.now seen) }
    ensures sound { OnOk result (IsSound S.Store store.new) }
    ensures ours { IfErr result (λ fault. ¬ (IsForeign fault)) }
    ensures looks { Looks S.Store store.old store.new }
{
    if let Some(rows) = in_step {
        return Ok(Some(TableLook {
            rows,
            in_order: true,
        }));
    }
    let Some(rows) = count_indexed(alloc, store, table, tree, columns)? else {
        return Ok(None);
    };
    Ok(Some(TableLook {
        rows,
        in_order: false,
    }))
}

/// What is found at an index, whose entries stand in this order, if it has one entry for each row of its table, and no other. A
/// fault is `Disk` where the trees are no such table and index.
pub(crate) fn look_at<S: Store>(
    alloc: Global,
    store: &mut S,
    table: u32,
    tree: u32,
    order: Order,
    columns: &[usize],
) -> Result<Option<TableLook>, StoreFault>
    ensures told { IfOk result (λ seen. IsClean (S.Store.view store.new) → SeesIndex (S.Store.view store.old).trees table tree columns.now seen) }
    ensures sound { OnOk result (IsSound S.Store store.new) }
    ensures ours { IfErr result (λ fault. ¬ (IsForeign fault)) }
    ensures looks { Looks S.Store store.old store.new }
{
    if store.shape(tree) != Shape::Index(order) || store.shape(table) != Shape::Table {
        return Err(StoreFault::Disk);
    }
    let in_step = count_in_step(alloc, store, table, tree, columns)?;
    seen_at(alloc, store, table, tree, columns, in_step)
}

/// Whether an index, whose entries stand in this order, has one entry for each row of its table, and no other. A fault is
/// `Disk` where the trees are no such table and index.
pub(crate) fn is_indexed<S: Store>(
    alloc: Global,
    store: &mut S,
    table: u32,
    tree: u32,
    order: Order,
    columns: &[usize],
) -> Result<bool, StoreFault>
    ensures told { IfOk result (λ told. IsClean (S.Store.view store.new) → (IsTrue told ↔ IsIndexOf columns.now ((S.Store.view store.old).trees table) ((S.Store.view store.old).trees tree))) }
    ensures sound { OnOk result (IsSound S.Store store.new) }
    ensures ours { IfErr result (λ fault. ¬ (IsForeign fault)) }
    ensures looks { Looks S.Store store.old store.new }
{
    let seen = look_at(alloc, store, table, tree, order, columns)?;
    Ok(seen.is_some())
}

/// What is found at an index in the plain order, of which it is known that it is in step with its table, and how many rows this
/// has, or that no walk has shown it.
pub(crate) fn look_on<S: Store>(
    alloc: Global,
    store: &mut S,
    table: u32,
    tree: u32,
    columns: &[usize],
    in_step: Option<u64>,
) -> Result<Option<TableLook>, StoreFault>
    requires step { IsClean (S.Store.view store.old) → CountsInStep (S.Store.view store.old).trees table tree columns.now in_step }
    requires sound { IsSound S.Store store.old }
    ensures told { IfOk result (λ seen. IsClean (S.Store.view store.new) → SeesIndex (S.Store.view store.old).trees table tree columns.now seen) }
    ensures sound { OnOk result (IsSound S.Store store.new) }
    ensures ours { IfErr result (λ fault. ¬ (IsForeign fault)) }
    ensures looks { Looks S.Store store.old store.new }
{
    if store.shape(tree) != Shape::Index(Order::PLAIN) || store.shape(table) != Shape::Table {
        return Err(StoreFault::Disk);
    }
    seen_at(alloc, store, table, tree, columns, in_step)
}
