mod blobs;
mod blocks;
mod columns;
mod cut;
mod encoding;
mod failing;
mod first_faults;
mod framers;
mod frames;
mod groups;
mod header;
mod lines;
mod values;
mod wire;
mod writing;

use osm_block::{BlockError, BlockFault, read_block, read_block_groups};
use osm_value::{Element, Info, Outlet, write_line};
use std::alloc::Global;
use std::process::Abort;
use std::test::*;

/// The lines of elements.
fn lines_of(rt: &impl Alloc<A = Global>, elements: &[Element]) -> Result<Vec<u8>, Fail> {
    let mut outlet = Outlet::new(Vec::new(rt.alloc()));
    for element in elements {
        write_line(element, &mut outlet)?;
    }
    Ok(outlet.into_inner())
}

fn nothing_known<'a>() -> Info<'a> {
    Info::new(None, None, None, None, None, None)
}

/// Each block is refused with this fault, which has this number; and its groups are.
fn expect_faults(rt: &(impl Abort + Alloc<A = Global>), rows: &[(&str, &[u8], BlockFault, u8)]) {
    for (name, block, fault, number) in rows {
        let error = read_block(rt.alloc(), block).err().expect(rt, name);
        assert!(rt;
            error == BlockError::Fault(*fault) && error.number() == *number,
            "{name}"
        );
        let of_groups = read_block_groups(rt.alloc(), block).err().expect(rt, name);
        assert!(rt; of_groups == error, "{name}");
    }
}
