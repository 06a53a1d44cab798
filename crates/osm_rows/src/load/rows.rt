//! Rows of elements, as their store keeps elements.

ghost use Rattle.std.specs.Prelude.{◌≡◌, List, map, IfOk, IsSomeAnd};
ghost use Rattle.osm_rows.specs.Load.Loading.{StandFor};
ghost use Rattle.osm_rows.specs.Rows.{Placed};

use crate::load::bodies::BodyRows;
use crate::load::tables::TableRows;
use osm_value::Element;
use std::alloc::{AllocError, Global};

/// Rows of elements, as their store keeps elements.
#[derive(Debug, Drop)]
pub enum ElementRows {
    /// Each is a row with a block of its own.
    Bodies(BodyRows),
    /// Each is a row of numbers and texts, with rows of its tags and links.
    Tables(TableRows),
}

impl ElementRows {
    /// The elements, each after the offset of its blob and its position there. Their texts lie in the rows.
    pub(crate) fn matches(&self, alloc: Global) -> Result<Vec<(u64, u64, Element<'_>)>, AllocError>
        ensures { (placed : List Placed) → StandFor self.now placed → IfOk result (λ found. found.items ≡ placed) }
    {
        match self {
            ElementRows::Bodies(bodies) => bodies.matches(alloc),
            ElementRows::Tables(tables) => tables.matches(alloc),
        }
    }

    /// The same, but None where a row of tables is of no element.
    fn placed(&self, alloc: Global) -> Result<Option<Vec<(u64, u64, Element<'_>)>>, AllocError>
        ensures { (placed : List Placed) → StandFor self.now placed → IfOk result (λ found. IsSomeAnd found (λ elements. elements.items ≡ placed)) }
    {
        match self {
            ElementRows::Bodies(bodies) => Ok(Some(bodies.matches(alloc)?)),
            ElementRows::Tables(tables) => tables.placed(alloc),
        }
    }

    /// The elements alone; None where a row of tables is of no element.
    pub(crate) fn elements(&self, alloc: Global) -> Result<Option<Vec<Element<'_>>>, AllocError>
        ensures { (placed : List Placed) → StandFor self.now placed → IfOk result (λ found. IsSomeAnd found (λ elements. elements.items ≡ map (λ p. p.2) placed)) }
    {
        let Some(placed) = self.placed(alloc)? else {
            return Ok(None);
        };
        let mut elements = Vec::with_capacity(alloc, placed.len())?;
        for found in placed {
            elements.push(found.2)?;
        }
        Ok(Some(elements))
    }
}
