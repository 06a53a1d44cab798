//! A blob's rows, put into the trees in one transaction.

ghost use Rattle.std.specs.Prelude.{◌≡◌, ◌↔◌, ◌+◌, ◌<◌, ◌≤◌, ◌^◌, length, IsTrue, IsSome, IfSome, OnOk, IfOk};
ghost use Rattle.std.specs.List.{AllByRecursion};
ghost use Rattle.sqlite_trees.specs.declared.store.Shape.TheVariants.{Table};
ghost use Rattle.sqlite_trees.specs.Objects.{catalog_tree};
ghost use Rattle.sqlite_trees.specs.Tree.{put_row};
ghost use Rattle.sqlite_trees.specs.View.{IsClean, SetsTree};
ghost use Rattle.osm_value.specs.Elements.{IsElement};
ghost use Rattle.osm_rows.specs.Rows.{placed, extent_row};
ghost use Rattle.osm_tree_writes.specs.Added.{AreKept, plain_indexes};
ghost use Rattle.osm_tree_writes.specs.Appending.{AreBehind, AreIndexesAt, IsStoreAt, RiseFrom, TakeBlobs};
ghost use Rattle.osm_tree_writes.specs.Harmless.{IsHarmless};
ghost use Rattle.osm_tree_writes.specs.Putting.{PutsBlob, WritesUncommitted, WritesElements};
ghost use Rattle.osm_rows.specs.declared.trees.TheConstants.{TREES};

use crate::added::plain_indexes;
use crate::append::{append_rows, put_table_row};
use crate::fault::fault_of;
use crate::free::are_places_free;
use crate::layout::{ELEMENTS, LINKS, TAGS, has_more, has_table};
use osm_rows::trees::BLOBS;
use osm_rows::{Extent, StoreFault, blob_code, element_rows, link_rows, tag_rows};
use osm_value::Element;
use osm_value::laws::elements_in_range;
use pbf_frame::MAX_OFFSET;
use sqlite_schema::schema::Index;
use sqlite_trees::store::{Alter, Shape, Store};
use sqlite_value::row::Row;
use sqlite_value::value::ValueRef;
use std::alloc::{AllocError, Global};

/// Of how many elements the rows are made at once.
const AT_ONCE: usize = 64;

/// Whether the trees have the tables of a store and their indexes.
fn has_tables<S: Store>(store: &S) -> bool
    ensures { IsTrue result ↔ IsStoreAt (S.Store.view store.now).shape }
{
    store.shape(BLOBS) == Shape::Table
        && has_table(store, &ELEMENTS)
        && has_table(store, &TAGS)
        && has_table(store, &LINKS)
}

/// The indexes added to the tables of a store, each of which has to get the entries of the rows that a put
/// writes; none where a put can't write to these trees, as where a trigger is on one of the tables.
fn indexes_to_keep<S: Alter>(alloc: Global, store: &S) -> Result<Option<Vec<Index>>, AllocError>
    ensures shaped { IfOk result (λ found. IfSome found (λ more. IsStoreAt (S.Store.view store.now).shape × RiseFrom (S.Store.view store.now).shape TREES more.items)) }
    ensures all { IfOk result (λ found. IfSome found (λ more. IsClean (S.Store.view store.now) → AreKept ((S.Store.view store.now).trees catalog_tree) × (more.items ≡ plain_indexes ((S.Store.view store.now).trees catalog_tree)))) }
    ensures none { IfOk result (λ found. IsClean (S.Store.view store.now) → TakeBlobs (S.Store.view store.now).shape ((S.Store.view store.now).trees catalog_tree) → IsSome found) }
{
    let objects = store.objects(alloc)?;
    let Some(more) = plain_indexes(alloc, objects.as_slice())? else {
        return Ok(None);
    };
    if has_tables(store) && has_more(store, more.as_slice()) {
        Ok(Some(more))
    } else {
        Ok(None)
    }
}

/// Whether a put can write to these trees: they have the tables of a store and their indexes, each index that somebody has
/// added to these tables is one that a put keeps (`plain_index`), and no trigger is on one of them. Views,
/// tables of other names with their indexes, and triggers on those may stand beside them.
pub fn takes_blobs<S: Alter>(alloc: Global, store: &S) -> Result<bool, AllocError>
    ensures store { IfOk result (λ takes. IsTrue takes → IsStoreAt (S.Store.view store.now).shape) }
    ensures indexed { IfOk result (λ takes. IsTrue takes → IsClean (S.Store.view store.now) → TakeBlobs (S.Store.view store.now).shape ((S.Store.view store.now).trees catalog_tree)) }
    ensures whole { IfOk result (λ takes. IsClean (S.Store.view store.now) → TakeBlobs (S.Store.view store.now).shape ((S.Store.view store.now).trees catalog_tree) → IsTrue takes) }
{
    let found = indexes_to_keep(alloc, store)?;
    Ok(found.is_some())
}

/// The row of the table of blobs.
fn extent_row(alloc: Global, extent: &Extent) -> Result<Row, AllocError>
    requires bounds { (extent.now.off ≤ MAX_OFFSET) × (extent.now.fin ≤ MAX_OFFSET) × (extent.now.n < 2 ^ 63) }
    ensures { IfOk result (λ row. row ≡ extent_row extent.now) }
{
    let mut row = Row::new(alloc);
    row.push(ValueRef::Int(extent.off as i64))?;
    row.push(ValueRef::Null)?;
    row.push(ValueRef::Int(extent.fin as i64))?;
    row.push(ValueRef::Blob(&extent.digest))?;
    row.push(ValueRef::Int(i64::from(blob_code(extent.kind))))?;
    row.push(ValueRef::Int(extent.n as i64))?;
    Ok(row)
}

/// Puts the row of a blob into its table.
fn put_extent<S: Store>(alloc: Global, store: &mut S, extent: &Extent) -> Result<(), StoreFault>
    requires shaped { IsClean (S.Store.view store.old) → (S.Store.view store.old).shape BLOBS ≡ Table }
    requires bounds { (extent.now.off ≤ MAX_OFFSET) × (extent.now.fin ≤ MAX_OFFSET) × (extent.now.n < 2 ^ 63) }
    ensures ok { OnOk result (IsClean (S.Store.view store.new) → SetsTree (S.Store.view store.old) (S.Store.view store.new) BLOBS (put_row (extent_row extent.now))) }
    ensures harmless { IsHarmless S.Store.view S.Store.faults S.Store.recovers S.Store.is_shielded store.old result store.new }
{
    let row = extent_row(alloc, extent)?;
    put_table_row(store, BLOBS, &row)
}

/// Puts the rows of some elements of a blob, of which the first has this position in it, behind those of their tables.
fn append_some<S: Store>(
    alloc: Global,
    store: &mut S,
    off: u64,
    first: u64,
    elements: &[Element],
    more: &[Index],
) -> Result<(), StoreFault>
    requires shaped { IsClean (S.Store.view store.old) → IsStoreAt (S.Store.view store.old).shape }
    requires bounds { (off ≤ MAX_OFFSET) × (first + length elements.now ≤ 2 ^ 63) }
    requires more { IsClean (S.Store.view store.old) → AreIndexesAt (S.Store.view store.old).shape more.now }
    requires behind { AreBehind more.now }
    ensures written { OnOk result (IsClean (S.Store.view store.new) → WritesElements more.now (S.Store.view store.old) (S.Store.view store.new) (placed off first elements.now)) }
    ensures harmless { IsHarmless S.Store.view S.Store.faults S.Store.recovers S.Store.is_shielded store.old result store.new }
{
    let rows = element_rows(alloc, off, first, elements)?;
    append_rows(alloc, store, &ELEMENTS, more, &rows)?;
    let tags = tag_rows(alloc, off, first, elements)?;
    append_rows(alloc, store, &TAGS, more, &tags)?;
    let links = link_rows(alloc, off, first, elements)?;
    append_rows(alloc, store, &LINKS, more, &links)
}

/// Puts the rows of a blob's elements behind those of their tables. Those of a few elements are made at once: a blob of
/// relations may have a million members.
fn append_elements<S: Store>(
    alloc: Global,
    store: &mut S,
    off: u64,
    elements: &[Element],
    more: &[Index],
) -> Result<(), StoreFault>
    requires shaped { IsClean (S.Store.view store.old) → IsStoreAt (S.Store.view store.old).shape }
    requires bounds { off ≤ MAX_OFFSET }
    requires more { IsClean (S.Store.view store.old) → AreIndexesAt (S.Store.view store.old).shape more.now }
    requires behind { AreBehind more.now }
    ensures written { OnOk result (IsClean (S.Store.view store.new) → WritesElements more.now (S.Store.view store.old) (S.Store.view store.new) (placed off 0 elements.now)) }
    ensures harmless { IsHarmless S.Store.view S.Store.faults S.Store.recovers S.Store.is_shielded store.old result store.new }
{
    // The first part is written even where a blob has no elements: only a call that ends well shows that the store has
    // the three tables.
    let (some, mut rest) = elements.split_at(elements.len().min(AT_ONCE));
    append_some(alloc, store, off, 0, some, more)?;
    while !rest.is_empty() {
        let first = elements.len() - rest.len();
        let (some, after) = rest.split_at(rest.len().min(AT_ONCE));
        append_some(alloc, store, off, first as u64, some, more)?;
        rest = after;
    }
    Ok(())
}

/// Writes the rows of a blob, and commits nothing.
fn write_rows<S: Alter>(
    alloc: Global,
    store: &mut S,
    extent: &Extent,
    elements: &[Element],
) -> Result<(), StoreFault>
    requires bounds { (extent.now.off ≤ MAX_OFFSET) × (extent.now.fin ≤ MAX_OFFSET) × (extent.now.n < 2 ^ 63) }
    ensures written { OnOk result (IsClean (S.Store.view store.new) → WritesUncommitted (plain_indexes ((S.Store.view store.old).trees catalog_tree)) (S.Store.view store.old) (S.Store.view store.new) extent.now (placed extent.now.off 0 elements.now)) }
    ensures can_store { OnOk result (AllByRecursion IsElement elements.now) }
    ensures indexed { OnOk result (IsClean (S.Store.view store.old) → TakeBlobs (S.Store.view store.old).shape ((S.Store.view store.old).trees catalog_tree)) }
    ensures harmless { IsHarmless S.Store.view S.Store.faults S.Store.recovers S.Store.is_shielded store.old result store.new }
{
    elements_in_range(elements);
    let Some(more) = indexes_to_keep(alloc, store)? else {
        return Err(StoreFault::Disk);
    };
    let are_free = are_places_free(alloc, store, extent.off)?;
    if !are_free {
        return Err(StoreFault::Disk);
    }
    put_extent(alloc, store, extent)?;
    append_elements(alloc, store, extent.off, elements, more.as_slice())
}

/// One transaction adds the rows of a blob and of its elements, or nothing. Each index added to the
/// tables gets an entry for each row, and no other tree behind those of a store is touched. A fault is `Memory`, `Full` where
/// there is no room, and else `Disk`, as where the trees take no blobs (`takes_blobs`) or have rows at the blob's offset that
/// are those of no blob; what was committed before stays, and where the trees needn't be opened again they are those of that
/// commit. Trees whose transaction is broken take nothing, and it is rolled back.
pub fn put_blob<S: Alter>(
    alloc: Global,
    store: &mut S,
    extent: &Extent,
    elements: &[Element],
) -> Result<(), StoreFault>
    requires bounds { (extent.now.off ≤ MAX_OFFSET) × (extent.now.fin ≤ MAX_OFFSET) × (extent.now.n < 2 ^ 63) }
    ensures { PutsBlob S.Store store.old store.new extent.now elements.now result }
{
    if store.is_broken() {
        store.rollback();
        return Err(StoreFault::Disk);
    }
    match write_rows(alloc, store, extent, elements) {
        Ok(()) => store.commit().map_err(fault_of),
        Err(fault) => {
            store.rollback();
            Err(fault)
        }
    }
}
