//! Stores in memory for the tests of commands.

use super::support::{EXTRA, TWO_NODES};
use osm_import::Told;
use osm_old_store::BodyStore;
use osm_rows::{Audited, BlobKeeper};
use osm_sql_store::{BlobStore, SqlLayout, TableStore};
use osm_value::Outlet;
use pbfrow_commands::import::{Start, import};
use sqlite::{Connection, MemStore};
use std::alloc::{AllocError, Global};
use std::io::{Cursor, Read};
use std::process::Abort;
use std::test::*;

pub type Blocks = BodyStore<MemStore>;

pub type Columns = TableStore<MemStore>;

/// A store in memory, which holds nothing at first.
pub trait NewStore: BlobKeeper + Audited + Drop {
    fn new_store(alloc: Global) -> Option<Self>;
}

impl<L: SqlLayout> NewStore for BlobStore<MemStore, L> {
    fn new_store(alloc: Global) -> Option<BlobStore<MemStore, L>> {
        let Ok(connection) = Connection::open_in_memory(alloc) else {
            return None;
        };
        BlobStore::create(connection).ok()
    }
}

/// Imports an input and expects this exit status and exactly this text.
pub fn expect_import<K: BlobKeeper, R: Read + Drop>(
    rt: &(impl Abort + Alloc<A = Global>),
    store: &mut K,
    input: R,
    from: u8,
    status: u8,
    text: &[u8],
) {
    let mut out = Outlet::new(Vec::new(rt.alloc()));
    let start = Start {
        dropped: u64::from(from),
        at: u64::from(from),
    };
    let ended = import(rt.alloc(), input, store, start, None, &Told::All, &mut out);
    assert_eq!(rt; ended, status);
    assert!(rt; out.into_inner().as_slice() == text);
}

/// Imports the file of two nodes.
pub fn import_two_nodes<K: BlobKeeper>(rt: &(impl Abort + Alloc<A = Global>), store: &mut K) {
    expect_import(
        rt,
        store,
        Cursor::new(&TWO_NODES[..]),
        0,
        0,
        b"0 stored 0\n47 stored 2\nblobs stored 2 held 0 bad 0 refused 0\n",
    );
}

/// The file of two nodes, a blob of another type at 84, and the blob of two nodes again at 100.
pub fn four_blobs(alloc: Global) -> Result<Vec<u8>, AllocError> {
    let two_nodes = &TWO_NODES[..];
    let mut bytes = Vec::new(alloc);
    bytes.extend_from_slice(two_nodes)?;
    bytes.extend_from_slice(EXTRA)?;
    bytes.extend_from_slice(&two_nodes[47..])?;
    Ok(bytes)
}
