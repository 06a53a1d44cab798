//! The messages of a group.

ghost use Rattle.std.specs.Prelude.{◌≡◌, map, option_map, OnOk, ⊤, not, nat_le, ◌∷◌, []};
ghost use Rattle.std.specs.List.{flat_map, count_by};
ghost use Rattle.pbf_wire.specs.Readings.{fields, wire};
ghost use Rattle.pbf_wire.specs.Readings.{each, is_there};
ghost use Rattle.osm_block.specs.Block.{GroupOf};
ghost use Rattle.osm_block.specs.GroupMessages.{messages_of};
ghost use Rattle.osm_block.specs.Fields.{context_of};
ghost use Rattle.osm_block.specs.declared.fault.BlockFault.TheVariants as faults;
ghost use Rattle.osm_block.specs.Phases.{Gives, first, message_phases, group_phases};
ghost use Rattle.osm_block.specs.Reads.{Appended, AppendedOne, AppendedGroups};

use crate::dense::read_dense;
use crate::element_message::read_elements;
use crate::fault::{BlockError, BlockFault};
use crate::fields::{GROUP_DENSE, GROUP_NODES, GROUP_RELATIONS, GROUP_WAYS};
use crate::node::NodeFields;
use crate::relation::RelationFields;
use crate::scale::Scale;
use crate::way::WayFields;
use osm_value::Element;
use pbf_wire::{Fields, Value};
use std::alloc::Global;

/// What messages are read into. It is used again for each one.
#[derive(Drop)]
pub struct Scratch {
    pub node: NodeFields,
    pub way: WayFields,
    pub relation: RelationFields,
}

impl Scratch {
    pub(crate) fn new(alloc: Global) -> Scratch {
        Scratch {
            node: NodeFields::new(alloc),
            way: WayFields::new(alloc),
            relation: RelationFields::new(alloc),
        }
    }
}

/// The payloads of a group, by kind.
#[derive(Drop)]
pub struct GroupPayloads<'a> {
    pub nodes: Vec<&'a [u8]>,
    pub dense: Vec<&'a [u8]>,
    pub ways: Vec<&'a [u8]>,
    pub relations: Vec<&'a [u8]>,
}

impl<'a> GroupPayloads<'a> {
    pub(crate) fn new(alloc: Global) -> GroupPayloads<'a> {
        GroupPayloads {
            nodes: Vec::new(alloc),
            dense: Vec::new(alloc),
            ways: Vec::new(alloc),
            relations: Vec::new(alloc),
        }
    }
}

pub(crate) fn some_there(payloads: &[&[u8]]) -> bool
    ensures { result ≡ is_there (map (λ p. p.now) payloads.now) }
{
    !payloads.is_empty()
}

fn several(a: bool, b: bool, c: bool, d: bool) -> bool
    ensures { result ≡ not (nat_le (count_by (λ x. x) (a ∷ b ∷ c ∷ d ∷ [])) 1) }
{
    a & (b | c | d) | b & (c | d) | c & d
}

/// Whether a group has elements of several kinds.
pub(crate) fn is_mixed(payloads: &GroupPayloads) -> bool
    ensures { result ≡ not (nat_le (count_by (λ x. x) (is_there (map (λ p. p.now) payloads.now.nodes.items) ∷ is_there (map (λ p. p.now) payloads.now.dense.items) ∷ is_there (map (λ p. p.now) payloads.now.ways.items) ∷ is_there (map (λ p. p.now) payloads.now.relations.items) ∷ [])) 1) }
{
    let nodes = some_there(&payloads.nodes);
    let dense = some_there(&payloads.dense);
    let ways = some_there(&payloads.ways);
    several(nodes, dense, ways, some_there(&payloads.relations))
}

/// Reads the payloads of a group.
pub(crate) fn read_group_payloads<'a>(
    group: &'a [u8],
    payloads: &mut GroupPayloads<'a>,
) -> Result<(), BlockError>
    ensures phase { Gives (λ _. ⊤) (option_map faults.BlockWire (wire group.now)) result }
    ensures nodes { OnOk result (map (λ p. p.now) payloads.new.nodes.items ≡ each (fields group.now) GROUP_NODES) }
    ensures dense { OnOk result (map (λ p. p.now) payloads.new.dense.items ≡ each (fields group.now) GROUP_DENSE) }
    ensures ways { OnOk result (map (λ p. p.now) payloads.new.ways.items ≡ each (fields group.now) GROUP_WAYS) }
    ensures relations { OnOk result (map (λ p. p.now) payloads.new.relations.items ≡ each (fields group.now) GROUP_RELATIONS) }
{
    payloads.nodes.clear();
    payloads.dense.clear();
    payloads.ways.clear();
    payloads.relations.clear();
    for field in Fields::new(group) {
        let field = field?;
        match (field.number, field.value) {
            (GROUP_NODES, Value::Bytes(node)) => payloads.nodes.push(node)?,
            (GROUP_DENSE, Value::Bytes(dense)) => payloads.dense.push(dense)?,
            (GROUP_WAYS, Value::Bytes(way)) => payloads.ways.push(way)?,
            (GROUP_RELATIONS, Value::Bytes(relation)) => payloads.relations.push(relation)?,
            _ => {}
        }
    }
    Ok(())
}

/// Appends the elements of the payloads, in order.
pub(crate) fn read_messages<'a>(
    alloc: Global,
    scale: &Scale<'a>,
    payloads: &GroupPayloads<'a>,
    scratch: &mut Scratch,
    out: &mut Vec<Element<'a>>,
) -> Result<(), BlockError>
    ensures phase { Gives (λ _. ⊤) (first (flat_map (message_phases (context_of scale.now)) (messages_of payloads.now))) result }
    ensures read { OnOk result (Appended (context_of scale.now) out.old.items out.new.items (messages_of payloads.now)) }
{
    read_elements(alloc, scale, &payloads.nodes, &mut scratch.node, out)?;
    read_dense(alloc, scale, &payloads.dense, out)?;
    read_elements(alloc, scale, &payloads.ways, &mut scratch.way, out)?;
    read_elements(
        alloc,
        scale,
        &payloads.relations,
        &mut scratch.relation,
        out,
    )
}

/// Appends the elements of a group.
pub(crate) fn read_group<'a>(
    alloc: Global,
    scale: &Scale<'a>,
    group: &'a [u8],
    payloads: &mut GroupPayloads<'a>,
    scratch: &mut Scratch,
    out: &mut Vec<Element<'a>>,
) -> Result<(), BlockError>
    ensures phase { Gives (λ _. ⊤) (first (group_phases (context_of scale.now) group.now)) result }
    ensures read { OnOk result (AppendedOne (GroupOf (context_of scale.now)) out.old.items out.new.items group.now) }
{
    read_group_payloads(group, payloads)?;
    if is_mixed(payloads) {
        return Err(BlockError::Fault(BlockFault::MixedGroup));
    }
    read_messages(alloc, scale, payloads, scratch, out)
}

/// Appends the elements of the groups.
pub(crate) fn read_groups<'a>(
    alloc: Global,
    scale: &Scale<'a>,
    groups: &[&'a [u8]],
    payloads: &mut GroupPayloads<'a>,
    scratch: &mut Scratch,
    out: &mut Vec<Element<'a>>,
) -> Result<(), BlockError>
    ensures phase { Gives (λ _. ⊤) (first (flat_map (group_phases (context_of scale.now)) (map (λ p. p.now) groups.now))) result }
    ensures read { OnOk result (AppendedGroups (context_of scale.now) out.old.items out.new.items (map (λ p. p.now) groups.now)) }
{
    for group in groups {
        read_group(alloc, scale, group, payloads, scratch, out)?;
    }
    Ok(())
}
