//! The rows of the elements of one kind and id.

ghost use Rattle.std.specs.Prelude.{◌≡◌, [], ◌∷◌, pos, List, filter, IfOk, OnOk};
ghost use Rattle.std.specs.List.Sorted.{IsPermutation, IsSorted};
ghost use Rattle.sqlite_value.specs.declared.value.Value.TheVariants.{Int};
ghost use Rattle.sqlite_value.specs.Keys.{plain, entry_cmp};
ghost use Rattle.sqlite_trees.specs.View.{IsClean};
ghost use Rattle.osm_rows.specs.declared.schema.layout.Layout.TheVariants.{Tables};
ghost use Rattle.osm_rows.specs.Held.{HeldMap};
ghost use Rattle.osm_rows.specs.Load.TableAnswers.{AreRowsOf};
ghost use Rattle.osm_rows.specs.Rows.{Placed, element_code, is_of, placed_in};
ghost use Rattle.osm_rows.specs.TableRows.{element_rows};
ghost use Rattle.osm_tree_audits.specs.Looking.{Looks};
ghost use Rattle.osm_trees.specs.Answers.{AreAlone, ArePartsOf, IsAnswer};
ghost use Rattle.osm_trees.specs.Below.{HoldsBelow};

use crate::parts::parts_of;
use osm_rows::trees::{ELEMENT_BY_ID, ELEMENTS};
use osm_rows::{PartRow, StoreFault, element_code};
use osm_tree_audits::rows_with;
use osm_value::MemberKind;
use sqlite::Row;
use sqlite_exec::work::FromRow;
use sqlite_trees::store::Store;
use sqlite_value::keys::Order;
use sqlite_value::row;
use sqlite_value::value::ValueRef;
use std::alloc::{AllocError, Global};

/// The key of the elements of this kind and id.
fn id_key(alloc: Global, kind: MemberKind, id: i64) -> Result<row::Row, AllocError>
    ensures { IfOk result (λ key. key ≡ Int (pos (element_code kind)) ∷ Int id ∷ []) }
{
    let mut key = row::Row::new(alloc);
    key.push(ValueRef::Int(i64::from(element_code(kind))))?;
    key.push(ValueRef::Int(id))?;
    Ok(key)
}

/// Puts rows in the order of their columns, from the first one on.
fn sort_rows(rows: &mut Vec<row::Row>) -> Result<(), AllocError>
    ensures same { IsPermutation rows.old.items rows.new.items }
    ensures sorted { OnOk result (IsSorted (entry_cmp plain) rows.new.items) }
{
    rows.sort_by(|a, b| a.cmp_entry(Order::PLAIN, b))
}

/// The same rows, as an answer has them.
fn answered(alloc: Global, rows: &[row::Row]) -> Result<Vec<Row>, AllocError>
    ensures { IfOk result (λ answer. answer.items ≡ rows.now) }
{
    let mut answer = Vec::new(alloc);
    for row in rows {
        answer.push(Row::from_row(alloc, row)?)?;
    }
    Ok(answer)
}

/// The rows of the table of elements of this kind and id. The index has them by their rowids, so they are put in order here.
fn matching_rows<S: Store>(
    alloc: Global,
    store: &mut S,
    kind: MemberKind,
    id: i64,
) -> Result<Vec<row::Row>, StoreFault>
    ensures held { IsClean (S.Store.view store.new) → (held : HeldMap) → HoldsBelow Tables (S.Store.view store.old) held
        → IsAnswer (S.Store.view store.new) result (λ rows. rows.items ≡ element_rows (filter (is_of kind id) (placed_in held))) }
    ensures looks { Looks S.Store store.old store.new }
{
    let key = id_key(alloc, kind, id)?;
    let mut rows: Vec<row::Row> = rows_with(alloc, store, ELEMENT_BY_ID, ELEMENTS, 2, &key)?;
    sort_rows(&mut rows)?;
    Ok(rows)
}

/// The rows of the tags and those of the links of the elements of all rows, in their order.
fn all_parts<S: Store>(
    alloc: Global,
    store: &mut S,
    elements: &[row::Row],
) -> Result<(Vec<PartRow>, Vec<PartRow>), StoreFault>
    ensures held { IsClean (S.Store.view store.new) → (held : HeldMap) (found : List Placed) → HoldsBelow Tables (S.Store.view store.old) held → elements.now ≡ element_rows found → AreAlone held found
        → IsAnswer (S.Store.view store.new) result (λ parts. ArePartsOf found parts.0.items parts.1.items) }
    ensures looks { Looks S.Store store.old store.new }
{
    let mut tags = Vec::new(alloc);
    let mut links = Vec::new(alloc);
    for row in elements {
        let (mut its_tags, mut its_links) = parts_of(alloc, store, row)?;
        tags.append(&mut its_tags)?;
        links.append(&mut its_links)?;
    }
    Ok((tags, links))
}

/// The rows of all held elements of this kind and id, and those of their tags and links, by offset, position and number.
pub(crate) fn found_rows<S: Store>(
    alloc: Global,
    store: &mut S,
    kind: MemberKind,
    id: i64,
) -> Result<(Vec<Row>, Vec<PartRow>, Vec<PartRow>), StoreFault>
    ensures held { IsClean (S.Store.view store.new) → (held : HeldMap) → HoldsBelow Tables (S.Store.view store.old) held
        → IsAnswer (S.Store.view store.new) result (λ rows. AreRowsOf (record { elements = rows.0; tags = rows.1; links = rows.2 }) (filter (is_of kind id) (placed_in held))) }
    ensures looks { Looks S.Store store.old store.new }
{
    let elements = matching_rows(alloc, store, kind, id)?;
    let (tags, links) = all_parts(alloc, store, &elements)?;
    Ok((answered(alloc, &elements)?, tags, links))
}
