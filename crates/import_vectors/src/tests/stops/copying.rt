//! Copies that stop, of what a store of the earlier layout holds into a new one: what the next opening finds is a front of
//! it, and the same copy, begun again, goes on.

use super::{Reached, Source, below, extents_of, has_rows_of, imports};
use osm_import::{CopyCounts, CopyFault, CopyStop, copy_held};
use osm_rows::{BlobKeeper, Extent, StoreFault, Tables};
use sqlite::{Alter, Connection};
use std::alloc::Global;
use std::test::*;
use store_vectors::deliveries::answers_to;
use store_vectors::fixtures::TAGGED_FILE;
use store_vectors::memory::{BodiesInMemory, KnownLayout};
use store_vectors::steps::holds_the_tagged_file;

/// How much was copied where a copy stopped at the blob at an offset.
fn copied_below(off: u64) -> Option<Reached> {
    match off {
        0 => Some(Reached::Store),
        47 => Some(Reached::Header),
        84 => Some(Reached::HeaderAndNodes),
        _ => None,
    }
}

/// What a copy counts into a store that holds so much.
fn counts_behind(held: Reached) -> CopyCounts {
    let (copied, held) = match held {
        Reached::All => (0, 3),
        Reached::HeaderAndNodes => (1, 2),
        Reached::Header => (2, 1),
        _ => (3, 0),
    };
    CopyCounts { copied, held }
}

/// What an older store holds, copied.
impl Source for BodiesInMemory {
    fn fill<K: BlobKeeper>(&mut self, alloc: Global, store: &mut K) -> Option<Reached> {
        match copy_held(alloc, self, store) {
            Ok(counts) => (counts == counts_behind(Reached::Store)).then_some(Reached::All),
            Err(CopyStop { fault, off }) => {
                if fault == CopyFault::Store(StoreFault::Disk) {
                    copied_below(off)
                } else {
                    None
                }
            }
        }
    }

    fn extents_of(&self, extents: &[Extent]) -> Option<Reached> {
        extents_of(extents)
    }

    fn has_rows<S: Alter, L: KnownLayout>(
        &self,
        database: &mut Connection<S>,
        held: Reached,
    ) -> Option<bool> {
        has_rows_of::<S, L>(database, held)
    }

    /// The older store holds what it held.
    fn goes_on<K: BlobKeeper>(
        &mut self,
        alloc: Global,
        store: &mut K,
        held: Reached,
    ) -> Option<bool> {
        let outcome = copy_held(alloc, self, store);
        Some(
            outcome == Ok(counts_behind(held))
                && holds_the_tagged_file(alloc, store).ok()?
                && holds_the_tagged_file(alloc, self).ok()?,
        )
    }
}

#[test]
fn copies_by_sql(rt: HostRuntime) -> Result<(), Fail> {
    let (_, mut older): (_, BodiesInMemory) = answers_to(rt.alloc(), TAGGED_FILE)?;
    imports::expect_outcomes::<Tables, _, _>(&rt, &mut older);
    Ok(())
}

#[test]
fn copies_below_sql(rt: HostRuntime) -> Result<(), Fail> {
    let (_, mut older): (_, BodiesInMemory) = answers_to(rt.alloc(), TAGGED_FILE)?;
    below::expect_outcomes(&rt, &mut older)
}
