//! The rows of one blob.

ghost use Rattle.std.specs.Prelude.{◌≡◌, ℕ, List, IfOk, IsOkAnd, IsSomeAnd};
ghost use Rattle.osm_value.specs.declared.element.Element.{Element};
ghost use Rattle.osm_rows.specs.Load.Loading.{HasRowsOf, IsInPlace};
ghost use Rattle.osm_rows.specs.Load.TableAnswers.{AreRowsOf};
ghost use Rattle.osm_rows.specs.Rows.{placed};

use crate::StoreFault;
use crate::load::rows::ElementRows;
use crate::load::tables::{PartRow, TableRows};
use crate::load::values::are_numbered;
use osm_value::Element;
use sqlite::Row;
use std::alloc::{AllocError, Global};

/// The rows of one blob.
#[derive(Debug, Drop)]
pub struct Loaded {
    /// In the layout of their store.
    pub rows: ElementRows,
}

impl Loaded {
    /// The rows of one blob, read from the tables `element`, `tag` and `link`, each by offset, position and number, and
    /// without their rowids. Where the elements' positions aren't 0, 1, 2, .. the fault is `NotThisStore(None)`; whether
    /// each row is of an element is seen once they are made, in `elements`.
    pub fn from_tables(
        elements: Vec<Row>,
        tags: Vec<PartRow>,
        links: Vec<PartRow>,
    ) -> Result<Loaded, StoreFault>
        ensures rows { (off : ℕ) (blob : List Element) → AreRowsOf (record { elements = elements; tags = tags; links = links }) (placed off 0 blob)
            → IsOkAnd result (λ loaded. HasRowsOf loaded blob) }
        ensures positions { IfOk result IsInPlace }
    {
        let rows = TableRows {
            elements,
            tags,
            links,
        };
        if !are_numbered(&rows.elements, 1) {
            return Err(StoreFault::NotThisStore(None));
        }
        Ok(Loaded {
            rows: ElementRows::Tables(rows),
        })
    }

    /// The elements of the blob, in order; None where its rows are those of no blob. Their texts lie in the rows. An error
    /// where memory is refused.
    pub fn elements(&self, alloc: Global) -> Result<Option<Vec<Element<'_>>>, AllocError>
        ensures { (elements : List Element) → HasRowsOf self.now elements → IfOk result (λ found. IsSomeAnd found (λ made. made.items ≡ elements)) }
    {
        self.rows.elements(alloc)
    }
}
