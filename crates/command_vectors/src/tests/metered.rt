//! Tests of the readers, writers and stores that tell a watcher what they do.

use super::stores::{Columns, NewStore, import_two_nodes};
use super::support::TWO_NODES;
use osm_import::Told;
use osm_value::{Form, Outlet};
use pbfrow_commands::export::export;
use pbfrow_commands::import::{Start, import};
use pbfrow_commands::metered::{MeteredStore, MeteredTeller};
use pbfrow_reading::metered::{MeteredOutput, MeteredReader};
use pbfrow_reading::watcher::Watcher;
use std::alloc::Global;
use std::cell::Cell;
use std::io::Cursor;
use std::process::Abort;
use std::test::*;

/// A watcher that counts what it is told.
#[derive(Drop)]
struct Counting {
    blobs: Cell<u64>,
    bytes: Cell<u64>,
    size: Cell<u64>,
    output: Cell<usize>,
    has_given_way: Cell<bool>,
}

impl Counting {
    fn new() -> Counting {
        Counting {
            blobs: Cell::new(0),
            bytes: Cell::new(0),
            size: Cell::new(0),
            output: Cell::new(0),
            has_given_way: Cell::new(false),
        }
    }
}

impl Watcher for Counting {
    fn see_blob(&self) {
        self.blobs.set(self.blobs.get().saturating_add(1));
    }

    fn see_bytes(&self, count: u64) {
        self.bytes.set(self.bytes.get().saturating_add(count));
    }

    fn see_offset(&self, off: u64) {
        self.bytes.set(off);
    }

    fn see_size(&self, size: u64) {
        self.size.set(size);
    }

    fn give_way(&self) {
        self.has_given_way.set(true);
    }

    fn see_output(&self, taken: &[u8]) {
        self.output
            .set(self.output.get().saturating_add(taken.len()));
    }
}

/// All bytes of the input are told, and each blob, whether or not its line is written.
fn expect_told<R: Abort + Alloc<A = Global>>(rt: &R, answers: Told, lines: &[u8]) {
    let alloc = rt.alloc();
    let told = Counting::new();
    let input = MeteredReader {
        reader: Cursor::new(&TWO_NODES[..]),
        watcher: &told,
    };
    let mut out = Outlet::new(MeteredOutput {
        writer: Vec::new(alloc),
        watcher: &told,
    });
    let teller = MeteredTeller {
        teller: answers,
        watcher: &told,
    };
    let mut store = Columns::new_store(alloc).expect(rt, "a store");
    let start = Start { dropped: 0, at: 0 };
    let status = import(alloc, input, &mut store, start, None, &teller, &mut out);
    let text = out.into_inner().writer;
    assert_eq!(rt; status, 0);
    assert!(rt; text.as_slice() == lines);
    assert!(rt; told.bytes.get() == 84 && told.blobs.get() == 2);
    assert!(rt; told.output.get() == lines.len() && told.has_given_way.get());
}

#[test]
fn an_import_is_told(rt: HostRuntime) {
    let lines = b"0 stored 0\n47 stored 2\nblobs stored 2 held 0 bad 0 refused 0\n";
    expect_told(&rt, Told::All, lines);
    expect_told(
        &rt,
        Told::Faults,
        b"blobs stored 2 held 0 bad 0 refused 0\n",
    );
}

/// The end of the last blob is told as the size, and then the offset of each blob that is loaded.
#[test]
fn an_export_is_told(rt: HostRuntime) -> Result<(), Fail> {
    let alloc = rt.alloc();
    let told = Counting::new();
    let mut store = Columns::new_store(alloc).expect(&rt, "a store");
    import_two_nodes(&rt, &mut store);
    let mut store = MeteredStore {
        store,
        watcher: &told,
    };
    let mut out = Outlet::new(Vec::new(alloc));
    let status = export(alloc, &mut store, Some(84), false, Form::Lines, &mut out);
    assert_eq!(rt; status, 0);
    let lines = b"n 1 1000 -100 [] {}\nn 2 900 -100 [] {}\n";
    assert!(rt; out.into_inner().as_slice() == &lines[..]);
    assert!(rt; told.size.get() == 84 && told.bytes.get() == 47 && told.blobs.get() > 0);
    Ok(())
}
