//! The whole block.

ghost use Rattle.std.specs.Prelude.{◌≡◌, ◌++◌, ◌≤◌, ◌∷◌, OnOk, IfOk, MatchResult, map, [], length};
ghost use Rattle.std.specs.List.{flat_map, AllByRecursion};
ghost use Rattle.osm_write.specs.Scale.{view};
ghost use Rattle.osm_write.specs.Canon.{bytes_field, group_bytes, groups_of, granularity_field, canon};
ghost use Rattle.osm_write.specs.Write.{IsFault};
ghost use Rattle.osm_write.specs.Laws.{FewTexts};
ghost use Rattle.osm_block.specs.Block.{Block};
ghost use Rattle.osm_value.specs.Elements.{IsElement};

use crate::append::{append_bytes, append_number};
use crate::collect::scale_of;
use crate::fault::WriteFault;
use crate::group::append_group;
use crate::groups::run_len;
use crate::message::Scratch;
use crate::scale::Scale;
use osm_block::fields::{
    BLOCK_DATE_GRANULARITY, BLOCK_GRANULARITY, BLOCK_PRIMITIVEGROUP, BLOCK_STRINGTABLE,
    STRINGTABLE_S,
};
use osm_value::Element;
use std::alloc::{AllocError, Global};

/// The longest block, in bytes: the longest raw payload of a blob, 32 MiB less one byte (fileformat.proto, Blob).
pub const MAX_BLOCK_LEN: usize = 33_554_431;

fn append_texts(texts: &[&str], out: &mut Vec<u8>) -> Result<(), AllocError>
    ensures { OnOk result (out.new.items ≡ out.old.items ++ flat_map (bytes_field STRINGTABLE_S) ([] ∷ map (λ s. s.now) texts.now)) }
{
    append_bytes(STRINGTABLE_S, &[], out)?;
    for text in texts {
        append_bytes(STRINGTABLE_S, text.as_bytes(), out)?;
    }
    Ok(())
}

fn append_table(alloc: Global, scale: &Scale, out: &mut Vec<u8>) -> Result<(), AllocError>
    ensures { OnOk result (out.new.items ≡ out.old.items ++ bytes_field BLOCK_STRINGTABLE (flat_map (bytes_field STRINGTABLE_S) ([] ∷ (view scale.now).texts))) }
{
    let mut table = Vec::new(alloc);
    append_texts(scale.texts.texts(), &mut table)?;
    append_bytes(BLOCK_STRINGTABLE, &table, out)
}

fn append_groups(
    alloc: Global,
    scale: &Scale,
    elements: &[Element],
    scratch: &mut Scratch,
    out: &mut Vec<u8>,
) -> Result<(), AllocError>
    ensures { OnOk result (out.new.items ≡ out.old.items ++ flat_map (λ g. bytes_field BLOCK_PRIMITIVEGROUP (group_bytes (view scale.now) g)) (groups_of elements.now)) }
{
    let mut group = Vec::new(alloc);
    let mut at = 0;
    while at < elements.len() {
        let rest = &elements[at..];
        let len = run_len(rest);
        group.clear();
        append_group(alloc, scale, &rest[..len], scratch, &mut group)?;
        append_bytes(BLOCK_PRIMITIVEGROUP, &group, out)?;
        at += len;
    }
    Ok(())
}

fn append_granularity(
    field: u32,
    default: u64,
    granularity: u64,
    out: &mut Vec<u8>,
) -> Result<(), AllocError>
    ensures { OnOk result (out.new.items ≡ out.old.items ++ granularity_field field default granularity) }
{
    if granularity == default {
        Ok(())
    } else {
        append_number(field, granularity, out)
    }
}

fn append_granularities(scale: &Scale, out: &mut Vec<u8>) -> Result<(), AllocError>
    ensures { OnOk result (out.new.items ≡ out.old.items ++ granularity_field BLOCK_GRANULARITY 100 (view scale.now).granularity ++ granularity_field BLOCK_DATE_GRANULARITY 1000 (view scale.now).date_granularity) }
{
    append_granularity(
        BLOCK_GRANULARITY,
        100,
        if scale.hundreds { 100 } else { 1 },
        out,
    )?;
    append_granularity(
        BLOCK_DATE_GRANULARITY,
        1000,
        if scale.thousands { 1000 } else { 1 },
        out,
    )
}

#[tactic(auto, unfolding(crate::specs::Canon::canon))]
fn bytes_of(alloc: Global, elements: &[Element]) -> Result<Vec<u8>, AllocError>
    ensures exact { IfOk result (λ v. v.items ≡ canon elements.now) }
    ensures in_range { OnOk result (AllByRecursion IsElement elements.now) }
{
    let scale = scale_of(alloc, elements)?;
    let mut scratch = Scratch::new(alloc);
    let mut out = Vec::new(alloc);
    append_table(alloc, &scale, &mut out)?;
    append_groups(alloc, &scale, elements, &mut scratch, &mut out)?;
    append_granularities(&scale, &mut out)?;
    Ok(out)
}

/// The canonical block of the one element, whatever its length. What is given says this element to every reader, where
/// it uses fewer than 2^31 - 1 different texts. The one error is that memory was refused.
pub fn encode_one(alloc: Global, element: &Element) -> Result<Vec<u8>, AllocError>
    ensures exact { IfOk result (λ v. v.items ≡ canon (element.now ∷ [])) }
    ensures read_back { IfOk result (λ v. FewTexts (element.now ∷ []) → Block (element.now ∷ []) v.items) }
{
    bytes_of(alloc, std::slice::from_ref(element))
}

/// The canonical block of the elements, in their order, one for every list: fields ascend, numbers are shortest, arrays
/// are packed, what is empty is left out (osmformat.proto, PrimitiveBlock). Nodes are dense; neighbours of one kind
/// share a group, and nodes only where they have the same fields of info. Texts stand in the table once, by first use,
/// behind the empty one at index 0. Coordinates are in units of 100 nanodegrees and times in seconds where all fit
/// that, else in nanodegrees and milliseconds. What is given says these elements, and no other list, to every reader.
///
/// `BlockTooLarge` exactly where the block has more than 33,554,431 bytes, the most that a raw payload may have, unless
/// memory ran out first; `Memory` only where memory was refused.
pub fn encode_block(alloc: Global, elements: &[Element]) -> Result<Vec<u8>, WriteFault>
    ensures exact { MatchResult result (λ v. (v.items ≡ canon elements.now) × (length v.items ≤ MAX_BLOCK_LEN)) (λ e. IsFault (canon elements.now) e) }
    ensures read_back { IfOk result (λ v. Block elements.now v.items) }
    ensures in_range { OnOk result (AllByRecursion IsElement elements.now) }
{
    let bytes = bytes_of(alloc, elements)?;
    if bytes.len() > MAX_BLOCK_LEN {
        return Err(WriteFault::BlockTooLarge);
    }
    Ok(bytes)
}
