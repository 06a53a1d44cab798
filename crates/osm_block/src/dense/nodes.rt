//! Dense nodes, built from their arrays.

ghost use Rattle.std.specs.Prelude.{◌≡◌, ◌<◌, length, true, pos, IsTrue, OnOk, Some, option_map, option_and_then, option_copied, slice_get, slice_index_or, map};
ghost use Rattle.std.specs.List.{list_all};
ghost use Rattle.osm_value.specs.Ranges.{is_wide, is_uid, passes, AreTags};
ghost use Rattle.osm_block.specs.Phases.{is_index, coordinate_in_range};
ghost use Rattle.osm_block.specs.Block.{coordinate, time, version as version_of, text_at};
ghost use Rattle.osm_block.specs.Dense.{AreReady, HaveInfos, InfoAt, NodeAt};
ghost use Rattle.osm_block.specs.DenseRead.{AppendedNodes};
ghost use Rattle.osm_block.specs.Fields.{context_of};

use super::arrays::DenseArrays;
use super::tags::{index_of, node_tags};
use crate::ranges::coordinate_of;
use crate::scale::Scale;
use osm_value::{Element, Info, Node};
use std::alloc::{AllocError, Global};

/// Whether each node has all of an info but its visibility, as in extracts without history.
fn have_infos(arrays: &DenseArrays) -> bool
    ensures { IsTrue result → HaveInfos arrays.now }
{
    let count = arrays.ids.len();
    arrays.versions.len() == count
        && arrays.timestamps.len() == count
        && arrays.changesets.len() == count
        && arrays.uids.len() == count
        && arrays.users.len() == count
        && arrays.visible.is_empty()
}

// Where `whole` is known to be true the array has a number for each node, and none is asked for in vain. These are inlined,
// so that each loop over nodes has only what it needs.

#[inline(always)]
fn version_at(whole: bool, versions: &[i32], index: usize) -> Option<i32>
    requires { IsTrue whole → index < length versions.now }
    ensures { result ≡ option_and_then version_of (slice_get versions.now index) }
{
    let version = if whole {
        Some(versions[index])
    } else {
        versions.get(index).copied()
    };
    match version {
        Some(-1) => None,
        other => other,
    }
}

#[inline(always)]
fn number_at(whole: bool, numbers: &[i64], index: usize) -> Option<i64>
    requires { IsTrue whole → index < length numbers.now }
    ensures { result ≡ slice_get numbers.now index }
{
    if whole {
        Some(numbers[index])
    } else {
        numbers.get(index).copied()
    }
}

#[inline(always)]
fn flag_at(whole: bool, flags: &[bool], index: usize) -> Option<bool>
    requires { IsTrue whole → length flags.now ≡ 0 }
    ensures { result ≡ slice_get flags.now index }
{
    if whole {
        None
    } else {
        flags.get(index).copied()
    }
}

fn time_of(date_granularity: i32, units: Option<i64>) -> Option<i64>
    requires { passes (λ t. is_wide (time date_granularity t)) units ≡ true }
    ensures { result ≡ option_map (time date_granularity) units }
{
    match units {
        None => None,
        Some(units) => Some(units * i64::from(date_granularity)),
    }
}

fn uid_of(uid: Option<i64>) -> Option<i32>
    requires { passes is_uid uid ≡ true }
    ensures { result ≡ uid }
{
    match uid {
        None => None,
        Some(uid) => Some(uid as i32),
    }
}

fn user_of<'a>(table: &[&'a str], index: Option<i64>) -> Option<&'a str>
    requires { passes (is_index (length table.now)) index ≡ true }
    ensures { option_map Some (option_copied result) ≡ option_map (text_at (map (λ t. t.now) table.now)) index }
{
    match index {
        None => None,
        Some(index) => Some(table[index_of(index, table.len())]),
    }
}

/// The info of the node at the index.
#[inline(always)]
fn info_at<'a>(whole: bool, scale: &Scale<'a>, arrays: &DenseArrays, index: usize) -> Info<'a>
    requires whole { IsTrue whole → HaveInfos arrays.now }
    requires ready { AreReady (context_of scale.now) arrays.now }
    requires within { index < length arrays.now.ids.items }
    ensures { InfoAt (context_of scale.now) arrays.now index result }
{
    let version = version_at(whole, &arrays.versions, index);
    let time = time_of(
        scale.date_granularity,
        number_at(whole, &arrays.timestamps, index),
    );
    let changeset = number_at(whole, &arrays.changesets, index);
    let uid = uid_of(number_at(whole, &arrays.uids, index));
    let user = user_of(&scale.table, number_at(whole, &arrays.users, index));
    let visible = flag_at(whole, &arrays.visible, index);
    Info::new(version, time, changeset, uid, user, visible)
}

/// The coordinate at the index, in nanodegrees.
fn coordinate_at(offset: i64, granularity: i32, units: &[i64], index: usize) -> i64
    requires within { index < length units.now }
    requires in_range { list_all (coordinate_in_range offset granularity) units.now ≡ true }
    ensures { result ≡ coordinate offset granularity (slice_index_or units.now index (pos 0)) }
{
    coordinate_of(offset, granularity, units[index])
}

/// The node at the index, with these tags.
#[inline(always)]
fn node_at<'a>(
    whole: bool,
    scale: &Scale<'a>,
    arrays: &DenseArrays,
    index: usize,
    tags: Vec<(&'a str, &'a str)>,
) -> Node<'a>
    requires whole { IsTrue whole → HaveInfos arrays.now }
    requires ready { AreReady (context_of scale.now) arrays.now }
    requires within { index < length arrays.now.ids.items }
    requires tags { AreTags (map (λ t. (t.0.now, t.1.now)) tags.items) }
    ensures node { NodeAt (context_of scale.now) arrays.now index result }
    ensures tags { result.tags ≡ map (λ t. (t.0.now, t.1.now)) tags.entry.items }
{
    let ids: &[i64] = &arrays.ids;
    let info = info_at(whole, scale, arrays, index);
    let lat = coordinate_at(scale.lat_offset, scale.granularity, &arrays.lats, index);
    let lon = coordinate_at(scale.lon_offset, scale.granularity, &arrays.lons, index);
    Node::new(ids[index], lat, lon, tags, info)
}

/// Appends the nodes one by one.
#[inline(always)]
fn each_node<'a>(
    whole: bool,
    alloc: Global,
    scale: &Scale<'a>,
    arrays: &DenseArrays,
    out: &mut Vec<Element<'a>>,
) -> Result<(), AllocError>
    requires whole { IsTrue whole → HaveInfos arrays.now }
    requires ready { AreReady (context_of scale.now) arrays.now }
    ensures { OnOk result (AppendedNodes (context_of scale.now) arrays.now out.old.items out.new.items) }
{
    let count = arrays.ids.len();
    out.reserve(count)?;
    let mut at = 0;
    for index in 0..count {
        let (tags, next) = node_tags(alloc, &scale.table, &arrays.keys_vals, at)?;
        let node = node_at(whole, scale, arrays, index, tags);
        out.push(Element::Node(node))?;
        at = next;
    }
    Ok(())
}

/// Appends the nodes that the arrays stand for.
pub(crate) fn nodes_of<'a>(
    alloc: Global,
    scale: &Scale<'a>,
    arrays: &DenseArrays,
    out: &mut Vec<Element<'a>>,
) -> Result<(), AllocError>
    requires ready { AreReady (context_of scale.now) arrays.now }
    ensures { OnOk result (AppendedNodes (context_of scale.now) arrays.now out.old.items out.new.items) }
{
    if have_infos(arrays) {
        each_node(true, alloc, scale, arrays, out)
    } else {
        each_node(false, alloc, scale, arrays, out)
    }
}
