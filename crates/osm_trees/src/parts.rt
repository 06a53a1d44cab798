//! The keys of rows, and the rows of tags and links.

ghost use Rattle.std.specs.Prelude.{◌≡◌, ◌<◌, ◌^◌, [], ◌∷◌, pos, IfOk, IfErr, OnOk};
ghost use Rattle.sqlite_value.specs.declared.value.Value.TheVariants.{Int};
ghost use Rattle.sqlite_value.specs.Order.{column};
ghost use Rattle.sqlite_trees.specs.View.{IsClean};
ghost use Rattle.osm_rows.specs.declared.schema.layout.Layout.TheVariants.{Tables};
ghost use Rattle.osm_rows.specs.Held.{HeldMap};
ghost use Rattle.osm_rows.specs.Keeping.{IsForeign};
ghost use Rattle.osm_rows.specs.Load.TableParts.{IsAlone};
ghost use Rattle.osm_rows.specs.Rows.{Placed, placed_in};
ghost use Rattle.osm_rows.specs.TableRows.{element_row};
ghost use Rattle.osm_tree_audits.specs.Finding.{Finds};
ghost use Rattle.osm_tree_audits.specs.Looking.{IsSound, Looks};
ghost use Rattle.osm_trees.specs.Answers.{AreItsParts, IsAnswer};
ghost use Rattle.osm_trees.specs.Below.{HoldsBelow};

use osm_rows::trees::{ELEMENT_KEY, ELEMENTS, LINK_KEY, LINKS, TAG_KEY, TAGS};
use osm_rows::{PartRow, StoreFault};
use osm_tree_audits::rows_with;
use sqlite_trees::store::Store;
use sqlite_value::row;
use sqlite_value::value::ValueRef;
use std::alloc::{AllocError, Global};

/// The key of all rows at an offset.
pub(crate) fn offset_key(alloc: Global, off: u64) -> Result<row::Row, AllocError>
    requires { off < 2 ^ 63 }
    ensures { IfOk result (λ key. key ≡ Int (pos off) ∷ []) }
{
    let mut key = row::Row::new(alloc);
    key.push(ValueRef::Int(off as i64))?;
    Ok(key)
}

/// The key of the tags, and of the links, of the element that a row stands for.
fn place_key(alloc: Global, element: &row::Row) -> Result<row::Row, AllocError>
    ensures { IfOk result (λ key. key ≡ column element.now 0 ∷ column element.now 1 ∷ []) }
{
    let mut key = row::Row::new(alloc);
    key.push(element.get(0))?;
    key.push(element.get(1))?;
    Ok(key)
}

/// The rows of the tags and those of the links whose keys begin with this one.
pub(crate) fn parts_with<S: Store>(
    alloc: Global,
    store: &mut S,
    key: &row::Row,
) -> Result<(Vec<PartRow>, Vec<PartRow>), StoreFault>
    ensures found { IfOk result (λ parts. IsClean (S.Store.view store.new)
        → Finds (λ r. r) (S.Store.view store.old).trees TAG_KEY TAGS 3 key.now parts.0.items × Finds (λ r. r) (S.Store.view store.old).trees LINK_KEY LINKS 3 key.now parts.1.items) }
    ensures sound { OnOk result (IsSound S.Store store.new) }
    ensures ours { IfErr result (λ fault. ¬ (IsForeign fault)) }
    ensures looks { Looks S.Store store.old store.new }
{
    let tags: Vec<PartRow> = rows_with(alloc, store, TAG_KEY, TAGS, 3, key)?;
    let links: Vec<PartRow> = rows_with(alloc, store, LINK_KEY, LINKS, 3, key)?;
    Ok((tags, links))
}

/// The rows of the tags and those of the links of the element that a row stands for.
pub(crate) fn parts_of<S: Store>(
    alloc: Global,
    store: &mut S,
    element: &row::Row,
) -> Result<(Vec<PartRow>, Vec<PartRow>), StoreFault>
    ensures held { IsClean (S.Store.view store.new) → (held : HeldMap) (p : Placed) → HoldsBelow Tables (S.Store.view store.old) held → element.now ≡ element_row p → IsAlone (placed_in held) p
        → IsAnswer (S.Store.view store.new) result (λ parts. AreItsParts p parts.0.items parts.1.items) }
    ensures looks { Looks S.Store store.old store.new }
{
    let key = place_key(alloc, element)?;
    parts_with(alloc, store, &key)
}
