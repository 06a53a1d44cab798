//! The rows of the elements of one kind and id.

ghost use Rattle.std.specs.Prelude.{◌≡◌, List, IfOk, MatchResult};
ghost use Rattle.osm_rows.specs.Load.Finding.{AreMatches};
ghost use Rattle.osm_rows.specs.Load.TableAnswers.{AreRowsOf};
ghost use Rattle.osm_rows.specs.Rows.{Placed};

use crate::StoreFault;
use crate::load::rows::ElementRows;
use crate::load::tables::{PartRow, TableRows};
use osm_value::Element;
use sqlite::Row;
use std::alloc::{AllocError, Global};

/// The rows of the elements of one kind and id.
#[derive(Debug, Drop)]
pub struct Found {
    /// In the layout of their store.
    pub rows: ElementRows,
}

impl Found {
    /// The rows of these elements, read from the tables `element`, `tag` and `link`, each by offset, position and number,
    /// and without their rowids. A fault is `Memory`, or `NotThisStore(None)` for rows that are those of no elements.
    pub fn from_tables(
        alloc: Global,
        elements: Vec<Row>,
        tags: Vec<PartRow>,
        links: Vec<PartRow>,
    ) -> Result<Found, StoreFault>
        ensures { (matches : List Placed) → AreRowsOf (record { elements = elements; tags = tags; links = links }) matches
            → MatchResult result (λ found. AreMatches found matches) (λ fault. fault ≡ StoreFault.Memory) }
    {
        let rows = TableRows {
            elements,
            tags,
            links,
        };
        match rows.check(alloc) {
            Ok(()) => Ok(Found {
                rows: ElementRows::Tables(rows),
            }),
            Err(fault) => Err(fault),
        }
    }

    /// The elements, each after the offset of its blob and its position there, ascending by both.
    /// Their texts lie in the rows. An error where memory is refused.
    pub fn matches(&self, alloc: Global) -> Result<Vec<(u64, u64, Element<'_>)>, AllocError>
        ensures { (matches : List Placed) → AreMatches self.now matches → IfOk result (λ found. found.items ≡ matches) }
    {
        self.rows.matches(alloc)
    }
}
