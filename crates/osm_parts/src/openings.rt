//! What opens stores, one after the other.

ghost use Rattle.std.specs.Prelude.{◌≡◌, ℕ, List, IfOk, IfErr, OnErr};
ghost use Rattle.osm_rows.specs.Held.{HeldMap};
ghost use Rattle.osm_rows.specs.Keeping.{IsForeign, failures_after};
ghost use Rattle.osm_parts.specs.Opening.{IsLent, KeepsMaps, AddsUp};

use osm_rows::{BlobReader, StoreFault};

/// What opens stores by their places in a list, counted from 0, and closes them. A store that is given out is closed
/// before the next is opened.
pub trait Openings<K: BlobReader> {
    /// These are the maps of the stores, in order, and none is given out.
    ghost holds: { Self → List HeldMap → Type 0 };

    /// These are the maps of the stores, in order, and one is given out, which holds this one of them.
    ghost lends: { Self → List HeldMap → HeldMap → Type 0 };

    /// This store lies at a place: it may be what an opening of that place gives.
    ghost lies: { Self → ℕ → K → Type 0 };

    /// So far the disks have returned what was written.
    ghost is_honest: { Self → Type 0 };

    /// The stores that aren't given out can go on.
    ghost is_open: { Self → Type 0 };

    /// How many openings and calls of closed stores have answered a fault, up to 2 ^ 64 - 1.
    ghost failures: { Self → ℕ };

    /// The store at a place. An error is that of an opening that has failed, or of a place that has no store.
    fn open(&mut self, place: u64) -> Result<K, StoreFault>
        ensures given { IfOk result (λ store. lies self.old place store × (K.failures store ≡ 0)) }
        ensures still { (at : ℕ) (store : K) → lies self.new at store → lies self.old at store }
        ensures lent { (maps : List HeldMap) → holds self.old maps → is_honest self.new
            → IfOk result (λ store. K.is_honest store → IsLent (lends self.new) (K.holds store) maps place) }
        ensures honest { IfOk result (λ store. is_honest self.new → K.is_honest store → is_honest self.old) }
        ensures open_if { IfOk result (λ store. is_open self.new → K.is_open store → is_open self.old) }
        ensures refused { OnErr result (KeepsMaps holds is_honest is_open self.old self.new) }
        ensures own { (maps : List HeldMap) → holds self.old maps → is_honest self.new → IfErr result (λ fault. ¬ (IsForeign fault)) }
        ensures counted { failures self.new ≡ failures_after result (failures self.old) };

    /// Closes a store that was only read.
    fn close(&mut self, store: K)
        ensures still { (at : ℕ) (other : K) → lies self.new at other → lies self.old at other }
        ensures back { (maps : List HeldMap) (held : HeldMap) → lends self.old maps held → K.holds store held → is_honest self.new → holds self.new maps }
        ensures honest { is_honest self.new → is_honest self.old × K.is_honest store }
        ensures open_if { is_open self.new → is_open self.old × K.is_open store }
        ensures counted { AddsUp (failures self.old) (K.failures store) (failures self.new) };
}
