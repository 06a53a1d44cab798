//! Blocks read into groups, dense nodes in their arrays.

use super::lines_of;
use crate::vectors::*;
use osm_block::{BlockGroups, DenseArrays, GroupElements, read_block_groups};
use osm_value::Element;
use std::test::*;

/// The arrays of the group at the index.
fn arrays_at<'b>(block: &'b BlockGroups, index: usize) -> Option<&'b DenseArrays> {
    match block.groups.get(index) {
        Some(GroupElements::Dense(arrays)) => Some(arrays),
        _ => None,
    }
}

/// The elements of the group at the index, one by one.
fn listed_at<'b, 'a>(block: &'b BlockGroups<'a>, index: usize) -> Option<&'b [Element<'a>]> {
    match block.groups.get(index) {
        Some(GroupElements::Listed(elements)) => Some(elements),
        _ => None,
    }
}

/// The nodes are 1 at 1000, -100 and 2 at 900, -100 nanodegrees; the unit is 100.
#[test]
fn places_in_arrays(rt: HostRuntime) -> Result<(), Fail> {
    let block = read_block_groups(rt.alloc(), &TWO_NODES_BLOCK)?;
    assert!(rt; block.groups.len() == 1 && block.scale.granularity == 100);
    let nodes = arrays_at(&block, 0).expect(&rt, "dense nodes");
    assert!(rt; nodes.ids.as_slice() == [1, 2].as_slice());
    assert!(rt; nodes.lats.as_slice() == [10, 9].as_slice());
    assert!(rt; nodes.lons.as_slice() == [-1, -1].as_slice());
    assert!(rt; nodes.versions.is_empty() && nodes.users.is_empty() && nodes.keys_vals.is_empty());
    Ok(())
}

/// The nodes are `n 1 0 0 [v=1,t=1000,c=5,i=7,u=u]` and `n 2 0 0 [v=2,t=2000,c=5,i=7,u=u]`; `u` is the second text.
#[test]
fn infos_in_arrays(rt: HostRuntime) -> Result<(), Fail> {
    let block = read_block_groups(rt.alloc(), &NODES_WITH_INFO_BLOCK)?;
    assert!(rt; block.scale.table.as_slice() == ["", "u"].as_slice());
    let nodes = arrays_at(&block, 0).expect(&rt, "dense nodes");
    assert!(rt; nodes.ids.as_slice() == [1, 2].as_slice());
    assert!(rt; nodes.versions.as_slice() == [1, 2].as_slice());
    assert!(rt; nodes.timestamps.as_slice() == [1, 2].as_slice());
    assert!(rt; nodes.changesets.as_slice() == [5, 5].as_slice());
    assert!(rt; nodes.uids.as_slice() == [7, 7].as_slice());
    assert!(rt; nodes.users.as_slice() == [1, 1].as_slice());
    assert!(rt; nodes.visible.is_empty());
    Ok(())
}

/// Two nodes, of which the first is tagged a=b, an empty group and a way: the empty group is left out.
#[test]
fn groups_of_two_kinds(rt: HostRuntime) -> Result<(), Fail> {
    let mut bytes = Vec::new(rt.alloc());
    bytes.extend_from_slice(&TAGGED_NODES_BLOCK)?;
    bytes.extend_from_slice(&[0x12, 0x00])?;
    bytes.extend_from_slice(&WAY_BLOCK[10..])?;
    let block = read_block_groups(rt.alloc(), &bytes)?;
    assert!(rt; block.groups.len() == 2);
    let nodes = arrays_at(&block, 0).expect(&rt, "dense nodes");
    assert!(rt; nodes.ids.as_slice() == [1, 2].as_slice());
    assert!(rt; nodes.keys_vals.as_slice() == [1, 2, 0, 0].as_slice());
    let ways = listed_at(&block, 1).expect(&rt, "a way");
    assert!(rt; lines_of(&rt, ways)?.as_slice() == b"w 7 (5,6,7,6) [] {a=b}\n".as_slice());
    Ok(())
}
