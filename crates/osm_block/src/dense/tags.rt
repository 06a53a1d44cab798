//! The tags of one dense node.

ghost use Rattle.std.specs.Prelude.{◌≡◌, ◌≤◌, ◌<◌, map, length, drop, IfOk, true, pos};
ghost use Rattle.std.specs.List.{list_all};
ghost use Rattle.osm_block.specs.Block.{texts_at, all_there};
ghost use Rattle.osm_block.specs.NodeTags.{front_pairs, pair_indexes};
ghost use Rattle.osm_block.specs.Phases.{is_index};

use std::alloc::{AllocError, Global};

/// How many pairs stand from the index on, in front of the next 0.
fn pair_count(keys_vals: &[i32], at: usize) -> usize
    requires { at ≤ length keys_vals.now }
{
    let mut index = at;
    while keys_vals.len() - index >= 2 {
        if keys_vals[index] == 0 {
            return (index - at) / 2;
        }
        index += 2;
    }
    (index - at) / 2
}

/// An index that the table has.
pub(crate) fn index_of(index: i64, texts: usize) -> usize
    requires { is_index texts index ≡ true }
    ensures within { result < texts }
    ensures same { pos result ≡ index }
{
    index as usize
}

/// The tags of a node that has some, as `node_tags` gives them.
fn some_tags<'a>(
    alloc: Global,
    table: &[&'a str],
    keys_vals: &[i32],
    at: usize,
) -> Result<(Vec<(&'a str, &'a str)>, usize), AllocError>
    requires within { at ≤ length keys_vals.now }
    requires in_table { list_all (is_index (length table.now)) (pair_indexes (front_pairs (drop at keys_vals.now)).0) ≡ true }
    ensures within { IfOk result (λ r. r.1 ≤ length keys_vals.now) }
    ensures texts { IfOk result (λ r. all_there (map (λ t. (t.0.now, t.1.now)) r.0.items) ≡ texts_at (map (λ t. t.now) table.now) (front_pairs (drop at keys_vals.now)).0) }
    ensures rest { IfOk result (λ r. drop r.1 keys_vals.now ≡ (front_pairs (drop at keys_vals.now)).1) }
{
    let mut tags = Vec::with_capacity(alloc, pair_count(keys_vals, at))?;
    let mut index = at;
    while keys_vals.len() - index >= 2 {
        let key = keys_vals[index];
        if key == 0 {
            return Ok((tags, index + 1));
        }
        let key = index_of(i64::from(key), table.len());
        let value = index_of(i64::from(keys_vals[index + 1]), table.len());
        tags.push((table[key], table[value]))?;
        index += 2;
    }
    Ok((tags, keys_vals.len()))
}

/// The tags of the node whose pairs begin at the index, and the index behind its 0.
#[inline(always)]
pub(crate) fn node_tags<'a>(
    alloc: Global,
    table: &[&'a str],
    keys_vals: &[i32],
    at: usize,
) -> Result<(Vec<(&'a str, &'a str)>, usize), AllocError>
    requires within { at ≤ length keys_vals.now }
    requires in_table { list_all (is_index (length table.now)) (pair_indexes (front_pairs (drop at keys_vals.now)).0) ≡ true }
    ensures within { IfOk result (λ r. r.1 ≤ length keys_vals.now) }
    ensures texts { IfOk result (λ r. all_there (map (λ t. (t.0.now, t.1.now)) r.0.items) ≡ texts_at (map (λ t. t.now) table.now) (front_pairs (drop at keys_vals.now)).0) }
    ensures rest { IfOk result (λ r. drop r.1 keys_vals.now ≡ (front_pairs (drop at keys_vals.now)).1) }
{
    // Most nodes have no tags.
    if keys_vals.len() - at >= 2 && keys_vals[at] == 0 {
        return Ok((Vec::new(alloc), at + 1));
    }
    some_tags(alloc, table, keys_vals, at)
}
