//! The texts of dense nodes, by the indexes of their block's table.

ghost use Rattle.std.specs.Prelude.{◌≡◌, ◌≤◌, ◌++◌, IfOk, OnOk, length, drop, map, true};
ghost use Rattle.std.specs.List.{list_all};
ghost use Rattle.osm_block.specs.DenseTags.{indexes_of};
ghost use Rattle.osm_block.specs.NodeTags.{front_pairs, node_pairs, pair_indexes};
ghost use Rattle.osm_block.specs.Phases.{is_index};
ghost use Rattle.osm_columns.specs.Lists.{joined};
ghost use Rattle.osm_columns.specs.Indexes.{index_in};

use std::alloc::AllocError;

/// What the table of indexes has at that place.
fn index_at(table: &[i32], place: i64) -> i32
    requires { is_index (length table.now) place ≡ true }
    ensures { result ≡ index_in table.now place }
{
    table[place as usize]
}

/// Appends what the table has at those places.
pub(crate) fn push_places(
    table: &[i32],
    places: &[i64],
    indexes: &mut Vec<i32>,
) -> Result<(), AllocError>
    requires { list_all (is_index (length table.now)) places.now ≡ true }
    ensures { OnOk result (indexes.new.items ≡ indexes.old.items ++ map (index_in table.now) places.now) }
{
    indexes.reserve(places.len())?;
    for index in 0..places.len() {
        indexes.push(index_at(table, places[index]))?;
    }
    Ok(())
}

/// Appends what the table has at the keys and at the values of the pairs from the index on, in front of the next 0, and gives the
/// index behind that 0.
fn push_pairs(
    table: &[i32],
    keys_vals: &[i32],
    at: usize,
    keys: &mut Vec<i32>,
    values: &mut Vec<i32>,
) -> Result<usize, AllocError>
    requires within { at ≤ length keys_vals.now }
    requires in_table { list_all (is_index (length table.now)) (pair_indexes (front_pairs (drop at keys_vals.now)).0) ≡ true }
    ensures within { IfOk result (λ next. next ≤ length keys_vals.now) }
    ensures rest { IfOk result (λ next. drop next keys_vals.now ≡ (front_pairs (drop at keys_vals.now)).1) }
    ensures keys { OnOk result (keys.new.items ≡ keys.old.items ++ map (λ p. index_in table.now p.0) (front_pairs (drop at keys_vals.now)).0) }
    ensures values { OnOk result (values.new.items ≡ values.old.items ++ map (λ p. index_in table.now p.1) (front_pairs (drop at keys_vals.now)).0) }
{
    let mut index = at;
    while keys_vals.len() - index >= 2 {
        let key = keys_vals[index];
        if key == 0 {
            return Ok(index + 1);
        }
        keys.push(index_at(table, i64::from(key)))?;
        values.push(index_at(table, i64::from(keys_vals[index + 1])))?;
        index += 2;
    }
    Ok(keys_vals.len())
}

/// The same where the node may have no pairs.
#[inline(always)]
fn push_node(
    table: &[i32],
    keys_vals: &[i32],
    at: usize,
    keys: &mut Vec<i32>,
    values: &mut Vec<i32>,
) -> Result<usize, AllocError>
    requires within { at ≤ length keys_vals.now }
    requires in_table { list_all (is_index (length table.now)) (pair_indexes (front_pairs (drop at keys_vals.now)).0) ≡ true }
    ensures within { IfOk result (λ next. next ≤ length keys_vals.now) }
    ensures rest { IfOk result (λ next. drop next keys_vals.now ≡ (front_pairs (drop at keys_vals.now)).1) }
    ensures keys { OnOk result (keys.new.items ≡ keys.old.items ++ map (λ p. index_in table.now p.0) (front_pairs (drop at keys_vals.now)).0) }
    ensures values { OnOk result (values.new.items ≡ values.old.items ++ map (λ p. index_in table.now p.1) (front_pairs (drop at keys_vals.now)).0) }
{
    // most nodes have no tags
    if keys_vals.len() - at >= 2 && keys_vals[at] == 0 {
        return Ok(at + 1);
    }
    push_pairs(table, keys_vals, at, keys, values)
}

/// Appends what the table has at the keys and at the values of so many nodes.
pub(crate) fn push_nodes(
    table: &[i32],
    keys_vals: &[i32],
    nodes: usize,
    keys: &mut Vec<i32>,
    values: &mut Vec<i32>,
) -> Result<(), AllocError>
    requires { list_all (is_index (length table.now)) (indexes_of (node_pairs nodes keys_vals.now)) ≡ true }
    ensures keys { OnOk result (keys.new.items ≡ keys.old.items ++ map (λ p. index_in table.now p.0) (joined (node_pairs nodes keys_vals.now))) }
    ensures values { OnOk result (values.new.items ≡ values.old.items ++ map (λ p. index_in table.now p.1) (joined (node_pairs nodes keys_vals.now))) }
{
    let mut next = 0;
    for _node in 0..nodes {
        next = push_node(table, keys_vals, next, keys, values)?;
    }
    Ok(())
}
