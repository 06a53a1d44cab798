//! Nodes with a message of their own.

ghost use Rattle.std.specs.Prelude.{◌≡◌, ◌&&◌, ◌∷◌, []};
ghost use Rattle.osm_value.specs.declared.element.Element.TheVariants as elements;
ghost use Rattle.osm_value.specs.Ranges.{is_wide};
ghost use Rattle.osm_value.specs.Value.{NodeValue};
ghost use Rattle.osm_block.specs.Block.{NodeOf};
ghost use Rattle.osm_block.specs.Fields.{context_of, info_message_of, node_message_of};
ghost use Rattle.osm_block.specs.Phases.{Gives, first, node_phases, info_in_range, coordinate_in_range};

use crate::deltas::optional_unzigzag;
use crate::element_fields::ElementFields;
use crate::element_message::ElementMessage;
use crate::fault::{BlockError, BlockFault};
use crate::fields::{NODE_LAT, NODE_LON};
use crate::info::{InfoNumbers, info_in_range, info_of};
use crate::ranges::{coordinate_in_range, coordinate_of};
use crate::scale::Scale;
use crate::tag_list::tags_of;
use osm_value::{Element, Node, wide_in_range};
use pbf_wire::{Field, Value, WireFault};
use std::alloc::{AllocError, Global};

/// A node's message as it stands there. It is read into again for each node.
#[derive(Drop)]
pub struct NodeFields {
    pub element: ElementFields,
    pub lat: Option<u64>,
    pub lon: Option<u64>,
}

impl NodeFields {
    pub(crate) fn new(alloc: Global) -> NodeFields {
        NodeFields {
            element: ElementFields::new(alloc),
            lat: None,
            lon: None,
        }
    }
}

impl ElementMessage for NodeFields {
    ghost use Rattle.std.specs.Prelude.{refl};
    ghost use Rattle.osm_block.specs.Message.{Plain};
    ghost use Rattle.osm_block.specs.FieldsLeft.{NodeLeft};

    ghost message = { Plain };

    ghost own = { [] };

    ghost left = { NodeLeft };

    ghost is_wired = { λ p. refl };

    fn clear(&mut self) {
        self.element.clear();
        self.lat = None;
        self.lon = None;
    }

    #[inline(always)]
    fn take(&mut self, field: Field) -> Result<(), AllocError> {
        match (field.number, field.value) {
            (NODE_LAT, Value::Number(number)) => self.lat = Some(number),
            (NODE_LON, Value::Number(number)) => self.lon = Some(number),
            _ => self.element.take(field)?,
        }
        Ok(())
    }

    fn fault(&self) -> Option<WireFault> {
        self.element.fault(None)
    }

    fn element<'a>(&self, alloc: Global, scale: &Scale<'a>) -> Result<Element<'a>, BlockError> {
        node_of(alloc, scale, self)
    }
}

fn node_in_range(scale: &Scale, id: i64, lat: i64, lon: i64, info: &InfoNumbers) -> bool
    ensures { result ≡ (is_wide id && coordinate_in_range scale.now.lat_offset scale.now.granularity lat && coordinate_in_range scale.now.lon_offset scale.now.granularity lon && info_in_range (context_of scale.now) (info_message_of info.now)) }
{
    let lat = coordinate_in_range(scale.lat_offset, scale.granularity, lat);
    let lon = coordinate_in_range(scale.lon_offset, scale.granularity, lon);
    wide_in_range(id) & lat & lon & info_in_range(scale, info)
}

/// The node that the message encodes.
fn node_of<'a>(
    alloc: Global,
    scale: &Scale<'a>,
    node: &NodeFields,
) -> Result<Element<'a>, BlockError>
    ensures { Gives (λ e. (n : NodeValue) × (e ∷ [] ≡ elements.Node n ∷ []) × NodeOf (context_of scale.now) n (node_message_of node.now)) (first (node_phases (context_of scale.now) (node_message_of node.now))) result }
{
    let element = &node.element;
    let info = &element.info.numbers;
    let Some(id) = optional_unzigzag(element.id) else {
        return Err(BlockError::Fault(BlockFault::Missing));
    };
    let Some(lat) = optional_unzigzag(node.lat) else {
        return Err(BlockError::Fault(BlockFault::Missing));
    };
    let Some(lon) = optional_unzigzag(node.lon) else {
        return Err(BlockError::Fault(BlockFault::Missing));
    };
    if element.keys.numbers.len() != element.vals.numbers.len() {
        return Err(BlockError::Fault(BlockFault::LengthsDiffer));
    }
    if !node_in_range(scale, id, lat, lon, info) {
        return Err(BlockError::Fault(BlockFault::OutOfRange));
    }
    let table: &[&'a str] = &scale.table;
    if !element.indexes_fit(table.len()) {
        return Err(BlockError::Fault(BlockFault::BadIndex));
    }
    let tags = tags_of(alloc, table, &element.keys.numbers, &element.vals.numbers)?;
    let lat = coordinate_of(scale.lat_offset, scale.granularity, lat);
    let lon = coordinate_of(scale.lon_offset, scale.granularity, lon);
    Ok(Element::Node(Node::new(id, lat, lon, tags, info_of(scale, info))))
}
