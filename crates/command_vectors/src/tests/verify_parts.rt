//! Tests of `verify` of several stores that hold parts of one file, over a file, an output and a store that fail.

ghost use Rattle.std.specs.Prelude.{None};

use super::parts::{Range, Ranges};
use super::stores::{Columns, NewStore, four_blobs};
use super::support::Closed;
use osm_import::SourceFailed;
use osm_value::Outlet;
use osm_verify::{Depth, FileBytes, MemoryFile};
use pbfrow_commands::verify_parts::verify_parts;
use std::alloc::Global;
use std::test::*;

/// What a verify of stores that hold these frames of the file of four blobs writes, and its exit status.
fn verdict_of<K: NewStore, F: FileBytes>(
    alloc: Global,
    stores: &[&[Range]],
    file: &mut F,
    depth: Depth,
) -> Result<(u8, Vec<u8>), Fail> {
    let held = four_blobs(alloc)?;
    let mut openings = Ranges {
        alloc,
        file: &held,
        stores,
        failures: 0,
    };
    let mut out = Outlet::new(Vec::new(alloc));
    let count = stores.len() as u64;
    let status = verify_parts::<K, _, _, _>(alloc, &mut openings, count, file, depth, &mut out);
    Ok((status, out.into_inner()))
}

/// A file in two stores.
const HALVES: &[&[Range]] = &[&[(84, 137, 84)], &[(0, 84, 0)]];

/// A file of which no byte can be read, and its size only where there is one.
#[derive(Drop)]
struct Unreadable {
    size: Option<u64>,
}

impl FileBytes for Unreadable {
    ghost bytes = { λ _. None };

    fn size(&mut self) -> Result<u64, SourceFailed> {
        self.size.ok_or(SourceFailed)
    }

    fn read_at(&mut self, _off: u64, _buffer: &mut [u8]) -> Result<bool, SourceFailed> {
        Err(SourceFailed)
    }
}

#[test]
fn a_file_that_cannot_be_read(rt: HostRuntime) -> Result<(), Fail> {
    let cases: [(Option<u64>, &[u8]); 2] = [
        (None, b"fault 68 ReadFailed at 0\n"),
        (Some(137), b"fault 68 ReadFailed at 84\n"),
    ];
    for (size, text) in cases {
        let mut file = Unreadable { size };
        let (status, written) = verdict_of::<Columns, _>(
            rt.alloc(),
            HALVES,
            &mut file,
            Depth::Extents,
        )?;
        assert_eq!(rt; status, 1);
        assert!(rt; written.as_slice() == text);
    }
    Ok(())
}

/// Where the output fails it ends with 1, and so it does where a store can't be opened.
#[test]
fn a_verdict_to_a_closed_output(rt: HostRuntime) -> Result<(), Fail> {
    let alloc = rt.alloc();
    let bytes = four_blobs(alloc)?;
    let mut openings = Ranges {
        alloc,
        file: &bytes,
        stores: HALVES,
        failures: 0,
    };
    let mut file = MemoryFile { bytes: &bytes };
    let mut out = Outlet::new(Closed);
    let depth = Depth::Extents;
    let ended = verify_parts::<Columns, _, _, _>(
        alloc,
        &mut openings,
        2,
        &mut file,
        depth,
        &mut out,
    );
    assert_eq!(rt; ended, 1);
    let mut out = Outlet::new(Vec::new(alloc));
    let ended = verify_parts::<Columns, _, _, _>(
        alloc,
        &mut openings,
        3,
        &mut file,
        depth,
        &mut out,
    );
    assert_eq!(rt; ended, 1);
    assert!(rt; out.into_inner().as_slice() == b"fault 65 Disk\n".as_slice());
    Ok(())
}
