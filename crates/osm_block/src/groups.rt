//! The groups of a block, dense nodes in their arrays.

ghost use Rattle.std.specs.Prelude.{◌≡◌, ◌++◌, [], false, map, List, OnOk};
ghost use Rattle.std.specs.List.{flat_map};
ghost use Rattle.osm_value.specs.declared.element.Element.{Element};
ghost use Rattle.osm_block.specs.Message.{Context};
ghost use Rattle.osm_block.specs.Block.{Block, Joins};
ghost use Rattle.osm_block.specs.Fields.{context_of};
ghost use Rattle.osm_block.specs.Groups.{GroupHolds, GroupsHold};
ghost use Rattle.osm_block.specs.GroupsRead.{GroupRead, GroupsRead};
ghost use Rattle.osm_block.specs.Phases.{Gives, first, fault, group_phases};

use crate::block::read_scale;
use crate::dense::{DenseArrays, read_arrays};
use crate::fault::{BlockError, BlockFault};
use crate::fields::BLOCK_PRIMITIVEGROUP;
use crate::group::{
    GroupPayloads, Scratch, is_mixed, read_group_payloads, read_messages, some_there,
};
use crate::payloads::each;
use crate::scale::Scale;
use osm_value::Element;
use std::alloc::{AllocError, Global};

/// What a group says: elements one by one, or dense nodes in their arrays, in the units of the block.
#[derive(Drop)]
pub enum GroupElements<'a> {
    Listed(Vec<Element<'a>>),
    Dense(DenseArrays),
}

/// The groups of a block, in their order, and what it says for all of them.
#[derive(Drop)]
pub struct BlockGroups<'a> {
    pub scale: Scale<'a>,
    pub groups: Vec<GroupElements<'a>>,
}

/// What the group says.
fn read_group_elements<'a>(
    alloc: Global,
    scale: &Scale<'a>,
    group: &'a [u8],
    payloads: &mut GroupPayloads<'a>,
    scratch: &mut Scratch,
) -> Result<GroupElements<'a>, BlockError>
    ensures { Gives (λ g. GroupRead (context_of scale.now) g group.now) (first (group_phases (context_of scale.now) group.now)) result }
{
    read_group_payloads(group, payloads)?;
    if is_mixed(payloads) {
        return Err(BlockError::Fault(BlockFault::MixedGroup));
    }
    if some_there(&payloads.dense) {
        let arrays = read_arrays(alloc, scale, &payloads.dense)?;
        return Ok(GroupElements::Dense(arrays));
    }
    let mut listed = Vec::new(alloc);
    read_messages(alloc, scale, payloads, scratch, &mut listed)?;
    Ok(GroupElements::Listed(listed))
}

/// Whether it holds an element.
fn has_elements(group: &GroupElements) -> bool
    ensures { result ≡ false → (b : Context) → (es : List Element) → GroupHolds b es group.now → es ≡ [] }
{
    match group {
        GroupElements::Listed(listed) => !listed.is_empty(),
        GroupElements::Dense(arrays) => !arrays.ids.is_empty(),
    }
}

/// Appends the group. One that holds nothing is left out: its two bytes would take a hundred times their room.
fn append_group<'a>(
    group: GroupElements<'a>,
    out: &mut Vec<GroupElements<'a>>,
) -> Result<(), AllocError>
    ensures { OnOk result ((b : Context) → (es xs : List Element) → Joins (GroupHolds b) es out.old.items → GroupHolds b xs group.entry → Joins (GroupHolds b) (es ++ xs) out.new.items) }
{
    if !has_elements(&group) {
        return Ok(());
    }
    out.push(group)?;
    Ok(())
}

/// What the groups say.
fn read_each_group<'a>(
    alloc: Global,
    scale: &Scale<'a>,
    groups: &[&'a [u8]],
) -> Result<Vec<GroupElements<'a>>, BlockError>
    ensures { Gives (λ gs. GroupsRead (context_of scale.now) gs.items (map (λ p. p.now) groups.now)) (first (flat_map (group_phases (context_of scale.now)) (map (λ p. p.now) groups.now))) result }
{
    let mut payloads = GroupPayloads::new(alloc);
    let mut scratch = Scratch::new(alloc);
    let mut out = Vec::new(alloc);
    for group in groups {
        let read = read_group_elements(alloc, scale, group, &mut payloads, &mut scratch)?;
        append_group(read, &mut out)?;
    }
    Ok(out)
}

/// The groups of a primitive block, in their order: the same elements as those of `read_block`, but dense nodes stay in
/// their arrays, whose numbers are absolute and in the units of the block. Each array is as long as that of the ids, or it is
/// one of those that say nothing and is empty; each number is in its range, and each index is one of the table.
///
/// `Fault` is the first fault of the block, as `read_block` gives it; then no group is given. `Memory` is answered only where
/// memory was refused.
#[tactic(auto, unfolding(crate::specs::Phases::fault))]
pub fn read_block_groups<'a>(alloc: Global, bytes: &'a [u8]) -> Result<BlockGroups<'a>, BlockError>
    ensures { Gives (λ g. (es : List Element) × Block es bytes.now × GroupsHold g es) (fault bytes.now) result }
{
    let scale = read_scale(alloc, bytes)?;
    let mut payloads = Vec::new(alloc);
    each(bytes, BLOCK_PRIMITIVEGROUP, &mut payloads)?;
    let groups = read_each_group(alloc, &scale, &payloads)?;
    Ok(BlockGroups { scale, groups })
}
