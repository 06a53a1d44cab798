//! Primitive blocks.

ghost use Rattle.std.specs.Prelude.{◌≡◌, pos, IfOk, ⊤, ◌≤ℤ◌, ◌&&◌, int_le, IsTrue, option_map, unwrap_or};
ghost use Rattle.pbf_wire.specs.Readings.{fields};
ghost use Rattle.pbf_wire.specs.Readings.{last, int64};
ghost use Rattle.osm_block.specs.Message.{context};
ghost use Rattle.osm_block.specs.Block.{Block};
ghost use Rattle.osm_block.specs.Head.{HeadRead};
ghost use Rattle.osm_block.specs.Fields.{context_of};
ghost use Rattle.osm_block.specs.Phases.{Gives, first, fault, head_phases};

use crate::fault::{BlockError, BlockFault};
use crate::fields::{
    BLOCK_DATE_GRANULARITY, BLOCK_GRANULARITY, BLOCK_LAT_OFFSET, BLOCK_LON_OFFSET,
    BLOCK_PRIMITIVEGROUP, BLOCK_STRINGTABLE, STRINGTABLE_S,
};
use crate::group::{GroupPayloads, Scratch, read_groups, some_there};
use crate::info::{optional_i32, optional_i64};
use crate::payloads::{check_all, each, each_of_all, last_number, wire_of};
use crate::scale::Scale;
use crate::texts::read_texts;
use osm_value::Element;
use std::alloc::Global;

/// What the block says for all its elements.
pub(crate) fn read_scale<'a>(alloc: Global, bytes: &'a [u8]) -> Result<Scale<'a>, BlockError>
    ensures phase { Gives (λ _. ⊤) (first (head_phases bytes.now)) result }
    ensures read { IfOk result (λ s. HeadRead (context_of s) bytes.now) }
{
    if let Some(fault) = wire_of(bytes) {
        return Err(BlockError::Fault(BlockFault::BlockWire(fault)));
    }
    let mut tables = Vec::new(alloc);
    each(bytes, BLOCK_STRINGTABLE, &mut tables)?;
    if !some_there(&tables) {
        return Err(BlockError::Fault(BlockFault::NoStringTable));
    }
    check_all(&tables)?;
    let mut raw = Vec::new(alloc);
    each_of_all(&tables, STRINGTABLE_S, &mut raw)?;
    let table = read_texts(alloc, &raw)?;
    let granularity = granularity_of(bytes);
    let date_granularity = date_granularity_of(bytes);
    if !are_scales(granularity, date_granularity) {
        return Err(BlockError::Fault(BlockFault::BadGranularity));
    }
    Ok(Scale {
        table,
        granularity,
        date_granularity,
        lat_offset: offset_of(bytes, BLOCK_LAT_OFFSET),
        lon_offset: offset_of(bytes, BLOCK_LON_OFFSET),
    })
}

fn granularity_of(bytes: &[u8]) -> i32
    ensures { result ≡ (context (fields bytes.now)).granularity }
{
    match optional_i32(last_number(bytes, BLOCK_GRANULARITY, None)) {
        Some(granularity) => granularity,
        None => 100,
    }
}

fn date_granularity_of(bytes: &[u8]) -> i32
    ensures { result ≡ (context (fields bytes.now)).date_granularity }
{
    match optional_i32(last_number(bytes, BLOCK_DATE_GRANULARITY, None)) {
        Some(granularity) => granularity,
        None => 1000,
    }
}

fn offset_of(bytes: &[u8], number: u32) -> i64
    ensures { result ≡ unwrap_or (option_map int64 (last (fields bytes.now) number)) (pos 0) }
{
    match optional_i64(last_number(bytes, number, None)) {
        Some(offset) => offset,
        None => 0,
    }
}

fn are_scales(granularity: i32, date_granularity: i32) -> bool
    ensures is { result ≡ (int_le (pos 1) granularity && int_le (pos 1) date_granularity) }
    ensures granularity { IsTrue result → pos 1 ≤ℤ granularity }
    ensures date_granularity { IsTrue result → pos 1 ≤ℤ date_granularity }
{
    let coordinates = granularity >= 1;
    let times = date_granularity >= 1;
    coordinates & times
}

/// The elements of a primitive block, in the order of its groups and of their fields (osmformat.proto, PrimitiveBlock):
/// plain nodes, dense nodes, ways and relations; changesets are skipped. Coordinates are in nanodegrees, times in
/// milliseconds since 1970. Texts are slices of `bytes`.
///
/// Ids, references, nanodegrees, milliseconds and changesets are at most 2^62 - 1 away from 0, and no text holds
/// U+0000.
///
/// `Fault` is the first fault of the block, in the order of the block's parts and of the elements; then no element is
/// given. `Memory` is answered only where memory was refused.
#[tactic(auto, unfolding(crate::specs::Phases::fault))]
pub fn read_block<'a>(alloc: Global, bytes: &'a [u8]) -> Result<Vec<Element<'a>>, BlockError>
    ensures { Gives (λ es. Block es.items bytes.now) (fault bytes.now) result }
{
    let scale = read_scale(alloc, bytes)?;
    let mut groups = Vec::new(alloc);
    each(bytes, BLOCK_PRIMITIVEGROUP, &mut groups)?;
    let mut payloads = GroupPayloads::new(alloc);
    let mut scratch = Scratch::new(alloc);
    let mut out = Vec::new(alloc);
    read_groups(
        alloc,
        &scale,
        &groups,
        &mut payloads,
        &mut scratch,
        &mut out,
    )?;
    Ok(out)
}
