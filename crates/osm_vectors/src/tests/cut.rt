//! Blocks that are cut at each byte.

use crate::vectors::*;
use osm_block::{BlockError, BlockFault, read_block};
use pbf_wire::{WireFault, WireFaultKind};
use std::test::*;

/// What the first bytes of a block of two nodes give: how many elements, or the fault.
fn answer_to_front(rt: &HostRuntime, len: usize) -> Result<usize, BlockError> {
    let front = TWO_NODES_BLOCK.get(..len).unwrap_or(&TWO_NODES_BLOCK);
    Ok(read_block(rt.alloc(), front)?.len())
}

#[test]
fn cut_blocks(rt: HostRuntime) {
    let wire = |kind, at| {
        let fault = BlockFault::BlockWire(WireFault { kind, at });
        Err(BlockError::Fault(fault))
    };
    for len in 0..=TWO_NODES_BLOCK.len() {
        let expected = match len {
            0 => Err(BlockError::Fault(BlockFault::NoStringTable)),
            1 => wire(WireFaultKind::NumberCut, 0),
            2 | 3 => wire(WireFaultKind::FieldCut, 0),
            4 => Ok(0),
            5 => wire(WireFaultKind::NumberCut, 4),
            6..=19 => wire(WireFaultKind::FieldCut, 4),
            _ => Ok(2),
        };
        assert!(rt; answer_to_front(&rt, len) == expected, "of {len} bytes");
    }
}
