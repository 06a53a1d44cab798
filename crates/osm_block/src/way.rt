//! Ways.

ghost use Rattle.std.specs.Prelude.{◌≡◌, ◌∷◌, []};
ghost use Rattle.osm_value.specs.declared.element.Element.TheVariants as elements;
ghost use Rattle.osm_value.specs.Value.{WayValue};
ghost use Rattle.osm_block.specs.Block.{WayOf};
ghost use Rattle.osm_block.specs.Fields.{context_of, way_message_of};
ghost use Rattle.osm_block.specs.Phases.{Gives, first, way_phases};

use crate::deltas::absolute;
use crate::element_fields::ElementFields;
use crate::element_message::ElementMessage;
use crate::fault::{BlockError, BlockFault};
use crate::fields::WAY_REFS;
use crate::info::{info_of, optional_i64};
use crate::number_array::NumberArray;
use crate::scale::Scale;
use crate::tag_list::tags_of;
use osm_value::{Element, Way};
use pbf_wire::{Field, WireFault};
use std::alloc::{AllocError, Global};

/// A way's message as it stands there. It is read into again for each way.
#[derive(Drop)]
pub struct WayFields {
    pub element: ElementFields,
    pub refs: NumberArray,
}

impl WayFields {
    pub(crate) fn new(alloc: Global) -> WayFields {
        WayFields {
            element: ElementFields::new(alloc),
            refs: NumberArray::new(alloc),
        }
    }
}

impl ElementMessage for WayFields {
    ghost use Rattle.std.specs.Prelude.{refl};
    ghost use Rattle.osm_block.specs.declared.fields.TheConstants.{WAY_REFS};
    ghost use Rattle.osm_block.specs.Message.{Way};
    ghost use Rattle.osm_block.specs.FieldsLeft.{WayLeft};

    ghost message = { Way };

    ghost own = { WAY_REFS ∷ [] };

    ghost left = { WayLeft };

    ghost is_wired = { λ p. refl };

    fn clear(&mut self) {
        self.element.clear();
        self.refs.clear();
    }

    #[inline(always)]
    fn take(&mut self, field: Field) -> Result<(), AllocError> {
        match field.number {
            WAY_REFS => self.refs.take(field.value)?,
            _ => self.element.take(field)?,
        }
        Ok(())
    }

    fn fault(&self) -> Option<WireFault> {
        self.element.fault(self.refs.fault)
    }

    fn element<'a>(&self, alloc: Global, scale: &Scale<'a>) -> Result<Element<'a>, BlockError> {
        way_of(alloc, scale, self)
    }
}

/// The way that the message encodes.
fn way_of<'a>(alloc: Global, scale: &Scale<'a>, way: &WayFields) -> Result<Element<'a>, BlockError>
    ensures { Gives (λ e. (w : WayValue) × (e ∷ [] ≡ elements.Way w ∷ []) × WayOf (context_of scale.now) w (way_message_of way.now)) (first (way_phases (context_of scale.now) (way_message_of way.now))) result }
{
    let element = &way.element;
    let Some(id) = optional_i64(element.id) else {
        return Err(BlockError::Fault(BlockFault::Missing));
    };
    if element.keys.numbers.len() != element.vals.numbers.len() {
        return Err(BlockError::Fault(BlockFault::LengthsDiffer));
    }
    let refs = absolute(alloc, &way.refs.numbers)?;
    if !element.ids_in_range(scale, id, &refs) {
        return Err(BlockError::Fault(BlockFault::OutOfRange));
    }
    let table: &[&'a str] = &scale.table;
    if !element.indexes_fit(table.len()) {
        return Err(BlockError::Fault(BlockFault::BadIndex));
    }
    let tags = tags_of(alloc, table, &element.keys.numbers, &element.vals.numbers)?;
    let info = &element.info.numbers;
    Ok(Element::Way(Way::new(id, refs, tags, info_of(scale, info))))
}
