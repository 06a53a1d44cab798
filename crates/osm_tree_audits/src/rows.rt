//! Whether the rows at an offset are those of one blob.

ghost use Rattle.std.specs.Prelude.{◌≡◌, ◌↔◌, ◌+◌, ◌<◌, ◌≤◌, ◌^◌, ◌∷◌, [], pos, filter, length, IsTrue, IfOk, IfErr, OnOk};
ghost use Rattle.sqlite_value.specs.declared.value.Value.TheVariants.{Int};
ghost use Rattle.sqlite_trees.specs.Tree.{has_rowid};
ghost use Rattle.sqlite_trees.specs.View.{IsClean};
ghost use Rattle.osm_rows.specs.Keeping.{IsForeign};
ghost use Rattle.osm_rows.specs.Rows.{placed, extent_row};
ghost use Rattle.osm_tree_writes.specs.Putting.{IsIndexedStore};
ghost use Rattle.osm_tree_audits.specs.Looking.{IsSound, Looks};
ghost use Rattle.osm_tree_audits.specs.Auditing.{KeepElementsAt, KeepsAt, KeepsBlob};
ghost use Rattle.osm_tree_audits.specs.ElementTables.{rows_in, table_of};
ghost use Rattle.osm_tree_audits.specs.Looks.{IsInOrder, IsLook};
ghost use Rattle.osm_tree_audits.specs.Walking.{Begins, CanWalk, IsWalkBy, reached_by};

use crate::look::Look;
use crate::matching::{finds_next, finds_no_more};
use crate::tables::ElementTable;
use crate::ways::{Way, begin};
use osm_rows::trees::BLOBS;
use osm_rows::{Extent, StoreFault, blob_code, element_rows, link_rows, tag_rows};
use osm_tree_writes::fault_of;
use osm_value::Element;
use pbf_frame::MAX_OFFSET;
use sqlite_trees::store::{Shape, Store};
use sqlite_value::keys::Order;
use sqlite_value::row;
use sqlite_value::value::ValueRef;
use std::alloc::{AllocError, Global};

/// Of how many elements the rows are made at once.
const AT_ONCE: usize = 64;

/// The key of all rows at an offset.
fn offset_key(alloc: Global, off: u64) -> Result<row::Row, AllocError>
    requires { off ≤ MAX_OFFSET }
    ensures { IfOk result (λ key. key ≡ Int (pos off) ∷ []) }
{
    let mut key = row::Row::new(alloc);
    key.push(ValueRef::Int(off as i64))?;
    Ok(key)
}

/// Whether the rows that a walk finds next are those of some elements of a blob, of which the first has this position in it.
fn finds_some<S: Store>(
    alloc: Global,
    store: &mut S,
    way: Way,
    of: ElementTable,
    key: &row::Row,
    off: u64,
    first: u64,
    elements: &[Element],
) -> Result<bool, StoreFault>
    requires one { length key.now ≡ 1 }
    requires ready { CanWalk (S.Store.view store.old) }
    requires bounds { (off ≤ MAX_OFFSET) × (first + length elements.now ≤ 2 ^ 63) }
    ensures told { IfOk result (λ told. IsClean (S.Store.view store.new) → IsWalkBy way (S.Store.view store.old) of
        → Begins (reached_by way (S.Store.view store.old) of key.now) (rows_in of (placed off first elements.now)) (reached_by way (S.Store.view store.new) of key.now) told) }
    ensures walk { OnOk result (IsClean (S.Store.view store.new) → IsWalkBy way (S.Store.view store.old) of → IsWalkBy way (S.Store.view store.new) of) }
    ensures ready { OnOk result (CanWalk (S.Store.view store.new)) }
    ensures ours { IfErr result (λ fault. ¬ (IsForeign fault)) }
    ensures looks { Looks S.Store store.old store.new }
{
    match of {
        ElementTable::Elements => {
            let expected = element_rows(alloc, off, first, elements)?;
            finds_next(alloc, store, way, of, key, &expected)
        }
        ElementTable::Tags => {
            let expected = tag_rows(alloc, off, first, elements)?;
            finds_next(alloc, store, way, of, key, &expected)
        }
        ElementTable::Links => {
            let expected = link_rows(alloc, off, first, elements)?;
            finds_next(alloc, store, way, of, key, &expected)
        }
    }
}

/// Whether the rows that a walk finds are those of a blob's elements. Those of a few elements are made at once: a blob of
/// relations may have a million members.
fn finds_each<S: Store>(
    alloc: Global,
    store: &mut S,
    way: Way,
    of: ElementTable,
    key: &row::Row,
    off: u64,
    elements: &[Element],
) -> Result<bool, StoreFault>
    requires one { length key.now ≡ 1 }
    requires ready { CanWalk (S.Store.view store.old) }
    requires bounds { off ≤ MAX_OFFSET }
    ensures told { IfOk result (λ told. IsClean (S.Store.view store.new) → IsWalkBy way (S.Store.view store.old) of
        → (IsTrue told ↔ (reached_by way (S.Store.view store.old) of key.now ≡ rows_in of (placed off 0 elements.now)))) }
    ensures sound { OnOk result (IsSound S.Store store.new) }
    ensures ours { IfErr result (λ fault. ¬ (IsForeign fault)) }
    ensures looks { Looks S.Store store.old store.new }
{
    // Nothing is found yet. The borrow checker takes the rest of a split here, and not `elements` itself.
    let (_, mut rest) = elements.split_at(0);
    while !rest.is_empty() {
        let first = elements.len() - rest.len();
        let (some, after) = rest.split_at(rest.len().min(AT_ONCE));
        if !finds_some(alloc, store, way, of, key, off, first as u64, some)? {
            return Ok(false);
        }
        rest = after;
    }
    finds_no_more(alloc, store, way, of, key)
}

/// Whether a table has the rows of these elements at the offset, and no others. If it is known that its rows stand in the order
/// of its primary key, they are read one behind another, with no entry of the index but the first. A fault is `Disk` where the
/// trees are no such table and index.
fn has_rows_in<S: Store>(
    alloc: Global,
    store: &mut S,
    of: ElementTable,
    in_order: bool,
    off: u64,
    elements: &[Element],
) -> Result<bool, StoreFault>
    requires { off ≤ MAX_OFFSET }
    ensures told { IsClean (S.Store.view store.new) → IsIndexedStore (S.Store.view store.old).trees → (IsTrue in_order → IsInOrder (S.Store.view store.old).trees of)
        → IfOk result (λ told. IsTrue told ↔ KeepsAt off (rows_in of (placed off 0 elements.now)) ((S.Store.view store.old).trees (table_of of))) }
    ensures sound { OnOk result (IsSound S.Store store.new) }
    ensures ours { IfErr result (λ fault. ¬ (IsForeign fault)) }
    ensures looks { Looks S.Store store.old store.new }
{
    if store.shape(of.index()) != Shape::Index(Order::PLAIN)
        || store.shape(of.table()) != Shape::Table
    {
        return Err(StoreFault::Disk);
    }
    let key = offset_key(alloc, off)?;
    let way = begin(alloc, store, of, in_order, &key)?;
    finds_each(alloc, store, way, of, &key, off, elements)
}

/// The row of the table of blobs.
fn extent_row(alloc: Global, extent: &Extent) -> Result<row::Row, AllocError>
    requires bounds { (extent.now.off ≤ MAX_OFFSET) × (extent.now.fin ≤ MAX_OFFSET) × (extent.now.n < 2 ^ 63) }
    ensures { IfOk result (λ row. row ≡ extent_row extent.now) }
{
    let mut row = row::Row::new(alloc);
    row.push(ValueRef::Int(extent.off as i64))?;
    row.push(ValueRef::Null)?;
    row.push(ValueRef::Int(extent.fin as i64))?;
    row.push(ValueRef::Blob(&extent.digest))?;
    row.push(ValueRef::Int(i64::from(blob_code(extent.kind))))?;
    row.push(ValueRef::Int(extent.n as i64))?;
    Ok(row)
}

/// Whether the table of blobs has the row of this extent at its offset. A fault is `Disk` where the tree is no such table.
fn has_extent_row<S: Store>(
    alloc: Global,
    store: &mut S,
    extent: &Extent,
) -> Result<bool, StoreFault>
    requires bounds { (extent.now.off ≤ MAX_OFFSET) × (extent.now.fin ≤ MAX_OFFSET) × (extent.now.n < 2 ^ 63) }
    ensures told { IsClean (S.Store.view store.new)
        → IfOk result (λ told. IsTrue told ↔ (filter (has_rowid (pos extent.now.off)) ((S.Store.view store.old).trees BLOBS) ≡ extent_row extent.now ∷ [])) }
    ensures sound { OnOk result (IsSound S.Store store.new) }
    ensures ours { IfErr result (λ fault. ¬ (IsForeign fault)) }
    ensures looks { Looks S.Store store.old store.new }
{
    if store.shape(BLOBS) != Shape::Table {
        return Err(StoreFault::Disk);
    }
    let expected = extent_row(alloc, extent)?;
    let mut row = row::Row::new(alloc);
    match store.get(BLOBS, extent.off as i64, &mut row) {
        Ok(true) => Ok(row.is_same(&expected)),
        Ok(false) => Ok(false),
        Err(error) => Err(fault_of(error)),
    }
}

/// The same of the rows of elements, of tags and of links.
fn has_inner_rows<S: Store>(
    alloc: Global,
    store: &mut S,
    look: &Look,
    off: u64,
    elements: &[Element],
) -> Result<bool, StoreFault>
    requires { off ≤ MAX_OFFSET }
    ensures told { IsClean (S.Store.view store.new) → IsIndexedStore (S.Store.view store.old).trees → IsLook (S.Store.view store.old).trees look.now
        → IfOk result (λ told. IsTrue told ↔ KeepElementsAt off (placed off 0 elements.now) (S.Store.view store.old).trees) }
    ensures sound { OnOk result (IsSound S.Store store.new) }
    ensures ours { IfErr result (λ fault. ¬ (IsForeign fault)) }
    ensures looks { Looks S.Store store.old store.new }
{
    if !has_rows_in(
        alloc,
        store,
        ElementTable::Elements,
        look.elements.in_order,
        off,
        elements,
    )? {
        return Ok(false);
    }
    if !has_rows_in(
        alloc,
        store,
        ElementTable::Tags,
        look.tags.in_order,
        off,
        elements,
    )? {
        return Ok(false);
    }
    has_rows_in(
        alloc,
        store,
        ElementTable::Links,
        look.links.in_order,
        off,
        elements,
    )
}

/// Whether the rows at a blob's offset, in all tables, are those that a put of it writes, and no others, each as it is
/// kept. Of the rows nothing has to be known, but each index has to have one entry for each, and what was seen of the tables
/// as the indexes were checked (`look_at_indexes`). The offsets are at most `MAX_OFFSET`, in bytes. No more rows than those
/// of a few elements are in memory. A fault is that of a read that has failed, `Memory`, or `Disk` where the trees have no
/// such tables and indexes.
pub fn has_rows_of<S: Store>(
    alloc: Global,
    store: &mut S,
    look: &Look,
    extent: &Extent,
    elements: &[Element],
) -> Result<bool, StoreFault>
    requires bounds { (extent.now.off ≤ MAX_OFFSET) × (extent.now.fin ≤ MAX_OFFSET) × (extent.now.n < 2 ^ 63) }
    ensures told { IsClean (S.Store.view store.new) → IsIndexedStore (S.Store.view store.old).trees → IsLook (S.Store.view store.old).trees look.now → IfOk result (λ told. IsTrue told ↔ KeepsBlob (S.Store.view store.old).trees extent.now elements.now) }
    ensures sound { OnOk result (IsSound S.Store store.new) }
    ensures ours { IfErr result (λ fault. ¬ (IsForeign fault)) }
    ensures looks { Looks S.Store store.old store.new }
{
    if !has_extent_row(alloc, store, extent)? {
        return Ok(false);
    }
    has_inner_rows(alloc, store, look, extent.off, elements)
}
