//! Databases by their places in a list of names, which are opened one after the other.

ghost use Rattle.std.specs.Prelude.{◌≡◌, ◌||◌, false, ℕ, List, [], Some, IfOk, length, slice_get};
ghost use Rattle.std.specs.List.{AllByRecursion};
ghost use Rattle.osm_rows.specs.Held.{HeldMap};
ghost use Rattle.osm_rows.specs.Keeping.{failures_after};
ghost use Rattle.osm_parts.specs.Turns.{HoldInTurn, is_refused};

use crate::openings::Openings;
use crate::past::Past;
use osm_rows::{BlobReader, StoreFault};

/// What opens the store of a database by its name.
pub trait OpensNamed<K: BlobReader> {
    /// This store lies at the name: it may be what an opening by it gives.
    ghost lies: { Self → List ℕ → K → Type 0 };

    /// The store of the database of this name, no call of which has failed. An error is that of an opening that has failed.
    fn open_named(&self, name: &str) -> Result<K, StoreFault>
        ensures given { IfOk result (λ store. lies self.now name.now store) }
        ensures fresh { IfOk result (λ store. K.failures store ≡ 0) };
}

/// What opens stores, and knows how many there are.
pub trait Several<K: BlobReader>: Openings<K> {
    /// How many stores there are.
    ghost many: { Self → ℕ };

    /// How many stores there are: so many maps they hold.
    fn count(&self) -> u64
        ensures exact { result ≡ many self.now }
        ensures maps { (maps : List HeldMap) → Self.holds self.now maps → length maps ≡ many self.now };
}

/// Databases by their places in a list of names, counted from 0. They hold maps where each store that lies at one of the names
/// holds the map of its place.
#[derive(Drop)]
pub struct InTurn<'a, K, O> {
    opener: O,
    names: &'a [&'a str],
    /// The stores that were closed, of which only proofs read.
    closed: Past<K>,
    /// Whether what lies at a name was found to be no store of pbfrow's.
    was_refused: bool,
    failures: u64,
}

impl<'a, K, O> InTurn<'a, K, O> {
    /// The databases of these names, none of which is open.
    pub fn new(opener: O, names: &'a [&'a str]) -> InTurn<'a, K, O>
        ensures opener { result.opener ≡ opener }
        ensures names { result.names ≡ names.entry }
        ensures unused { (result.closed.stores ≡ []) × (result.was_refused ≡ false) × (result.failures ≡ 0) }
    {
        InTurn {
            opener,
            names,
            closed: Past::new(),
            was_refused: false,
            failures: 0,
        }
    }
}

/// Whether what lies at a name was found to be no store of pbfrow's.
fn is_refused<K>(answer: &Result<K, StoreFault>) -> bool
    ensures { result ≡ is_refused answer.now }
{
    matches!(answer, Err(StoreFault::NotThisStore(_)))
}

impl<K: BlobReader, O: OpensNamed<K>> InTurn<'_, K, O> {
    /// The store that lies at the name of a place.
    fn open_at(&self, place: u64) -> Result<K, StoreFault>
        ensures given { IfOk result (λ store. (name : _) × (slice_get self.now.names.now place ≡ Some name) × O.lies self.now.opener name.now store) }
        ensures fresh { IfOk result (λ store. K.failures store ≡ 0) }
    {
        match self.names.get(place as usize) {
            Some(name) => self.opener.open_named(name),
            None => Err(StoreFault::Disk),
        }
    }

    /// Counts an opening that has failed, and notes whether it was refused.
    fn note(&mut self, answer: &Result<K, StoreFault>)
        ensures kept { (self.new.opener ≡ self.old.opener) × (self.new.names ≡ self.old.names) × (self.new.closed ≡ self.old.closed) }
        ensures refused { self.new.was_refused ≡ (self.old.was_refused || is_refused answer.now) }
        ensures counted { self.new.failures ≡ failures_after answer.now self.old.failures }
    {
        if answer.is_err() {
            self.failures = self.failures.saturating_add(1);
        }
        self.was_refused = self.was_refused || is_refused(answer);
    }
}

/// Lets a store go, and answers how many of its calls have failed.
fn let_go<K: BlobReader + Drop>(store: K) -> u64
    ensures { result ≡ K.failures store }
{
    store.failures()
}

impl<K: BlobReader + Drop, O: OpensNamed<K>> Openings<K> for InTurn<'_, K, O> {
    ghost holds = { λ databases maps. HoldInTurn (λ name. O.lies databases.opener name.now) K.is_honest K.holds databases.names.now maps };

    ghost lends = { λ databases maps held. HoldInTurn (λ name. O.lies databases.opener name.now) K.is_honest K.holds databases.names.now maps
        × ((place : ℕ) × (slice_get maps place ≡ Some held)) };

    ghost lies = { λ databases place store. (name : _) × (slice_get databases.names.now place ≡ Some name) × O.lies databases.opener name.now store };

    // the disks of the stores that were closed, and nothing was found at a name that is no store
    ghost is_honest = { λ databases. (databases.was_refused ≡ false) × AllByRecursion K.is_honest databases.closed.stores };

    ghost is_open = { λ databases. AllByRecursion K.is_open databases.closed.stores };

    ghost failures = { λ databases. databases.failures };

    fn open(&mut self, place: u64) -> Result<K, StoreFault> {
        let answer = self.open_at(place);
        self.note(&answer);
        answer
    }

    fn close(&mut self, store: K) {
        self.closed = self.closed.and(&store);
        self.failures = self.failures.saturating_add(let_go(store));
    }
}

impl<K: BlobReader + Drop, O: OpensNamed<K>> Several<K> for InTurn<'_, K, O> {
    ghost many = { λ databases. length databases.names.now };

    fn count(&self) -> u64 {
        self.names.len() as u64
    }
}
