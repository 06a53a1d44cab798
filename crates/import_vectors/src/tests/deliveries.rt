//! The importer over stores in memory, of both layouts and below SQL.

mod every_list;
mod exports;
mod orders;
mod streams;

use std::alloc::Global;
use std::test::Fail;
use store_vectors::deliveries::answers_to;
use store_vectors::fixtures::FILE;
use store_vectors::memory::NewStore;

/// A store that holds the file of two frames.
pub(crate) fn file_store<K: NewStore>(alloc: Global) -> Result<K, Fail> {
    let (_, store) = answers_to(alloc, FILE)?;
    Ok(store)
}
