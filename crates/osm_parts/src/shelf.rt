//! Stores that are there already, and are given out one at a time.

ghost use Rattle.std.specs.Prelude.{◌≡◌, ◌↔◌, ◌++◌, ◌∷◌, [], false, Some, None, List, IfOk, IfSome, IsNone, IsTrue, set, slice_get};
ghost use Rattle.osm_rows.specs.Held.{HeldMap};
ghost use Rattle.osm_parts.specs.Shelves.{HoldsEach, LendsOne, AllAreIn};

use crate::openings::Openings;
use osm_rows::{BlobReader, StoreFault};
use std::alloc::{AllocError, Global};

/// Stores by their places, counted from 0, of which one at a time is given out. One of which a call has failed isn't given
/// out any more.
#[derive(Drop)]
pub struct Shelf<K> {
    slots: Vec<Option<K>>,
    /// The slot of the store that is given out.
    taken: Option<usize>,
    /// Whether a store was closed that wasn't given out.
    is_misused: bool,
    failures: u64,
}

impl<K: BlobReader + Drop> Shelf<K> {
    /// A shelf without stores.
    pub fn new(alloc: Global) -> Shelf<K>
        ensures empty { HoldsEach K.holds result.slots.items [] }
        ensures unused { (result.taken ≡ None) × (result.is_misused ≡ false) × (result.failures ≡ 0) }
    {
        Shelf {
            slots: Vec::new(alloc),
            taken: None,
            is_misused: false,
            failures: 0,
        }
    }

    /// Puts a store behind the others. The one error is refused memory, at which the store is let go.
    pub fn push(&mut self, store: K) -> Result<(), AllocError>
        ensures held { (maps : List HeldMap) (held : HeldMap) → HoldsEach K.holds self.old.slots.items maps → K.holds store held
            → IfOk result (λ _. HoldsEach K.holds self.new.slots.items (maps ++ held ∷ [])) }
        ensures kept { (self.new.taken ≡ self.old.taken) × (self.new.is_misused ≡ self.old.is_misused) × (self.new.failures ≡ self.old.failures) }
    {
        self.slots.push(Some(store))?;
        Ok(())
    }

    /// The store of a slot, if it is there, no call of it has failed, and no other is given out.
    fn take(&mut self, index: usize) -> Option<K>
        ensures store { IfSome result (λ store. (slice_get self.old.slots.items index ≡ Some (Some store)) × (K.failures store ≡ 0)) }
        ensures taken { IfSome result (λ store. self.new ≡ record { slots = self.new.slots; taken = Some index; is_misused = self.old.is_misused; failures = self.old.failures }) }
        ensures slots { IfSome result (λ store. self.new.slots.items ≡ set self.old.slots.items index None) }
        ensures none { IsNone result → self.new ≡ self.old }
    {
        let is_ready = match self.slots.get(index) {
            Some(Some(store)) => store.failures() == 0,
            _ => false,
        };
        if !is_ready || self.taken.is_some() {
            return None;
        }
        self.taken = Some(index);
        self.slots[index].take()
    }

    /// Whether there is a slot with this number and no store in it.
    fn is_free(&self, index: usize) -> bool
        ensures { IsTrue result ↔ (slice_get self.now.slots.items index ≡ Some None) }
    {
        matches!(self.slots.get(index), Some(None))
    }
}

impl<K: BlobReader + Drop> Openings<K> for Shelf<K> {
    ghost holds = { λ shelf maps. HoldsEach K.holds shelf.slots.items maps };

    ghost lends = { λ shelf maps lent. LendsOne K.holds shelf.slots.items shelf.taken maps lent };

    // what is closed may be any store
    ghost lies = { λ shelf place store. Unit {0} };

    ghost is_honest = { λ shelf. (shelf.is_misused ≡ false) × AllAreIn K.is_honest shelf.slots.items };

    ghost is_open = { λ shelf. (shelf.is_misused ≡ false) × AllAreIn K.is_open shelf.slots.items };

    ghost failures = { λ shelf. shelf.failures };

    fn open(&mut self, place: u64) -> Result<K, StoreFault> {
        match self.take(place as usize) {
            Some(store) => Ok(store),
            None => {
                self.failures = self.failures.saturating_add(1);
                Err(StoreFault::Disk)
            }
        }
    }

    fn close(&mut self, store: K) {
        self.failures = self.failures.saturating_add(store.failures());
        match self.taken.take() {
            Some(index) if self.is_free(index) => self.slots[index] = Some(store),
            _ => self.is_misused = true,
        }
    }
}
