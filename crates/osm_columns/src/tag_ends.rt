//! Where the pairs of dense nodes end.

ghost use Rattle.std.specs.Prelude.{◌≡◌, ◌+◌, ◌<◌, ◌≤◌, ◌^◌, length, map, drop, sum};
ghost use Rattle.osm_block.specs.NodeTags.{front_pairs, node_pairs};
ghost use Rattle.osm_columns.specs.Lists.{sums_from};
ghost use Rattle.osm_columns.specs.Columns.{Adds};

use crate::items::put_item;

/// How many pairs stand from the index on, in front of the next 0, and the index behind that 0. A key without a value is none.
pub(crate) fn some_pairs(keys_vals: &[i32], at: usize) -> (usize, usize)
    requires { at ≤ length keys_vals.now }
    ensures within { result.1 ≤ length keys_vals.now }
    ensures count { result.0 ≡ length (front_pairs (drop at keys_vals.now)).0 }
    ensures rest { drop result.1 keys_vals.now ≡ (front_pairs (drop at keys_vals.now)).1 }
{
    let mut index = at;
    let mut count = 0;
    while keys_vals.len() - index >= 2 {
        if keys_vals[index] == 0 {
            return (count, index + 1);
        }
        index += 2;
        count += 1;
    }
    (count, keys_vals.len())
}

/// The same where the node may have no pairs.
#[inline(always)]
pub(crate) fn pairs_from(keys_vals: &[i32], at: usize) -> (usize, usize)
    requires { at ≤ length keys_vals.now }
    ensures within { result.1 ≤ length keys_vals.now }
    ensures count { result.0 ≡ length (front_pairs (drop at keys_vals.now)).0 }
    ensures rest { drop result.1 keys_vals.now ≡ (front_pairs (drop at keys_vals.now)).1 }
{
    // most nodes have no tags
    if keys_vals.len() - at >= 2 && keys_vals[at] == 0 {
        return (0, at + 1);
    }
    some_pairs(keys_vals, at)
}

/// Writes where the pairs of so many nodes end, behind so many items and such an end, and gives the last end.
pub(crate) fn put_tag_ends(
    keys_vals: &[i32],
    nodes: usize,
    at: usize,
    end: u64,
    ends: &mut [u64],
) -> u64
    requires room { at + nodes ≤ length ends.old }
    requires fits { end + sum (map (λ ps. length ps) (node_pairs nodes keys_vals.now)) < 2 ^ 64 }
    ensures end { result ≡ end + sum (map (λ ps. length ps) (node_pairs nodes keys_vals.now)) }
    ensures column { Adds at (sums_from end (map (λ ps. length ps) (node_pairs nodes keys_vals.now))) ends.old ends.new }
{
    let mut last = end;
    let mut next = 0;
    for node in 0..nodes {
        let (count, behind) = pairs_from(keys_vals, next);
        last += count as u64;
        put_item(last, at + node, ends);
        next = behind;
    }
    last
}
