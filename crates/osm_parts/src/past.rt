//! The stores that were closed, of which only proofs read. They take no memory, and nothing is done with them at run time.

ghost use Rattle.std.specs.Prelude.{◌≡◌, List, [], ◌∷◌};
ghost use Rattle.std.specs.Borrow.{ftrue};

use std::marker::{Model, PhantomData};

/// The stores that were closed, the last one first, as they were then.
#[derive(Drop)]
pub struct Past<K> {
    of: PhantomData<K>,
    pub ghost stores: { List K },
}

impl<K> Model for Past<K> {
    ghost also_owns = { λ _. ftrue };
}

impl<K> Past<K> {
    /// No store yet.
    pub fn new() -> Past<K>
        ensures { result.stores ≡ [] }
    {
        Past { of: PhantomData }
    }

    /// The same stores, and one more.
    pub fn and(&self, _store: &K) -> Past<K>
        ensures { result.stores ≡ _store.now ∷ self.now.stores }
    {
        Past { of: PhantomData }
    }
}
