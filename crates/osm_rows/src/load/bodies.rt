//! Rows of elements, in the layout of bodies.

ghost use Rattle.std.specs.Prelude.{◌≡◌, ◌↔◌, ◌∷◌, [], ◌<◌, pos, List, length, Some, IfOk, IfErr, IsTrue};
ghost use Rattle.sqlite.specs.declared.types.Value.TheVariants.{Int, Blob as Octets};
ghost use Rattle.sqlite.specs.Order.{column};
ghost use Rattle.osm_value.specs.declared.element.Element.{Element};
ghost use Rattle.osm_value.specs.Elements.{kind_of_element, id_of_element};
ghost use Rattle.osm_write.specs.Canon.{canon};
ghost use Rattle.osm_rows.specs.Held.{HasFewTexts};
ghost use Rattle.osm_rows.specs.Load.Loading.{AreBodiesOf};
ghost use Rattle.osm_rows.specs.Rows.{Placed, body_row, element_code, HasBlock, IsStored};

use crate::StoreFault;
use crate::load::values::{bytes_at, kind_at, place_of, wide_at};
use crate::schema::Layout;
use osm_block::{BlockError, read_block};
use osm_value::Element;
use sqlite::Row;
use std::alloc::{AllocError, Global};

/// The rows of some elements, each with its place, its kind and id, and its block, by offset and position.
#[derive(Debug, Drop)]
pub struct BodyRows {
    /// Those of `body`.
    pub rows: Vec<Row>,
}

impl BodyRows {
    /// The elements, each after the offset of its blob and its position there.
    pub(crate) fn matches(&self, alloc: Global) -> Result<Vec<(u64, u64, Element<'_>)>, AllocError>
        ensures { (placed : List Placed) → AreBodiesOf self.now placed → IfOk result (λ found. found.items ≡ placed) }
    {
        let mut matches = Vec::new(alloc);
        for row in &self.rows {
            if let Some(found) = match_at(alloc, row)? {
                matches.push(found)?;
            }
        }
        Ok(matches)
    }

    /// Whether each row has a place and the block of one element, of the kind and id that it names.
    pub fn check(&self, alloc: Global) -> Result<(), StoreFault>
        ensures { (placed : List Placed) → AreBodiesOf self.now placed → IfErr result (λ fault. fault ≡ StoreFault.Memory) }
    {
        for row in &self.rows {
            if match_at(alloc, row)?.is_none() {
                return Err(StoreFault::NotThisStore(None));
            }
        }
        Ok(())
    }
}

/// The only element of the list.
fn only_element<'a>(mut elements: Vec<Element<'a>>) -> Option<Element<'a>>
    ensures { (e : Element) → elements.entry.items ≡ e ∷ [] → result ≡ Some e }
{
    match elements.pop() {
        Some(element) if elements.is_empty() => Some(element),
        _ => None,
    }
}

/// The element whose block this is.
fn element_in<'a>(alloc: Global, block: &'a [u8]) -> Result<Option<Element<'a>>, AllocError>
    ensures { (e : Element) → HasBlock e → HasFewTexts e → block.now ≡ canon (e ∷ []) → IfOk result (λ found. found ≡ Some e) }
{
    match read_block(alloc, block) {
        Ok(elements) => Ok(only_element(elements)),
        Err(BlockError::Memory) => Err(AllocError),
        Err(BlockError::Fault(_)) => Ok(None),
    }
}

/// The element whose block a row has; None where it has no block of one element.
fn element_at(alloc: Global, row: &Row) -> Result<Option<Element<'_>>, AllocError>
    ensures { (e : Element) → HasBlock e → HasFewTexts e → 4 < length row.now → column row.now 4 ≡ Octets (canon (e ∷ [])) → IfOk result (λ found. found ≡ Some e) }
{
    match bytes_at(row, 4) {
        Some(block) => element_in(alloc, block),
        None => Ok(None),
    }
}

/// Whether a row names the kind and the id of this element.
fn names(row: &Row, element: &Element) -> bool
    ensures { IsTrue result ↔ ((column row.now 2 ≡ Int (pos (element_code (kind_of_element element.now)))) × (column row.now 3 ≡ Int (id_of_element element.now))) }
{
    kind_at(row, 2) == Some(element.kind()) && wide_at(row, 3) == Some(element.id())
}

/// The element that a row stands for, after its place; None where it stands for none.
fn match_at(alloc: Global, row: &Row) -> Result<Option<(u64, u64, Element<'_>)>, AllocError>
    ensures { (p : Placed) → IsStored Layout.Bodies p.2 → row.now ≡ body_row p → IfOk result (λ found. found ≡ Some p) }
{
    let Some((off, position)) = place_of(row) else {
        return Ok(None);
    };
    match element_at(alloc, row)? {
        Some(element) if names(row, &element) => Ok(Some((off, position, element))),
        _ => Ok(None),
    }
}
