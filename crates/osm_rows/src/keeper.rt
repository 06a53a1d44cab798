//! What is asked of a store.
ghost use Rattle.std.specs.Prelude.{◌≡◌, ◌⊎◌, ℕ, ◌<◌, ◌≤◌, List, Some, IfOk, All, filter};
ghost use Rattle.std.specs.FinMap as map;
ghost use Rattle.sqlite.specs.Order.{Row};
ghost use Rattle.osm_rows.specs.Flags.{has_flags};
ghost use Rattle.osm_rows.specs.Held.{Blob, HeldMap, IsApart, HaveFewTexts};
ghost use Rattle.osm_rows.specs.Load.Loading.{HasRowsOf, IsInPlace};
ghost use Rattle.osm_rows.specs.Load.Finding.{AreMatches};
ghost use Rattle.osm_rows.specs.Keeping.{extents_of, touches, IsRange, AscendApart, OnlyReads, Adds};
ghost use Rattle.osm_rows.specs.Rows.{is_of, placed_in};

use crate::StoreFault;
use crate::load::{Found, Loaded};
use osm_value::{Element, MemberKind};
use pbf_frame::{Kind, MAX_OFFSET};
use std::alloc::Global;

/// Where a held blob stands.
#[derive(Clone, Copy, Debug, PartialEq, Eq)]
pub struct Extent {
    /// The offset of the blob's frame in its file.
    pub off: u64,
    /// The offset after the frame, `MAX_OFFSET` at most.
    pub fin: u64,
    /// The frame's SHA-256 (FIPS 180-4).
    pub digest: [u8; 32],
    /// What its type says it is.
    pub kind: Kind,
    /// The number of its elements.
    pub n: u64,
}

/// What is read of a store of blobs, which stands for a finite map from offsets. A read answers `NotThisStore(None)` for
/// rows that are those of no map, as far as it can tell by the rows that it was asked for.
pub trait BlobReader {
    /// The store can go on, and its tables' rows are those of this map.
    ghost holds: { Self → HeldMap → Type 0 };

    /// A crash now may leave this map for the next opening.
    ghost leaves: { Self → HeldMap → Type 0 };

    /// Whatever a crash now leaves, the tables' rows are those of a map.
    ghost leaves_a_map: { Self → Type 0 };

    /// The list of the database's objects has these rows, and so it has in whatever a crash now leaves.
    ghost lists: { Self → List Row → Type 0 };

    /// The last commits of both have the same tables with the same rows, whether or not these are those of a map.
    ghost same_tables: { Self → Self → Type 0 };

    /// So far the disk has returned what was written.
    ghost is_honest: { Self → Type 0 };

    /// The store is still usable, and needn't be opened anew.
    ghost is_open: { Self → Type 0 };

    /// How many calls have answered a fault, up to 2 ^ 64 - 1.
    ghost failures: { Self → ℕ };

    /// All held extents, ascending by offset. What is held stays, also after a fault, which is that of a read that has
    /// failed, or `Memory`.
    fn extents(&mut self, alloc: Global) -> Result<Vec<Extent>, StoreFault>
        ensures all { (held : HeldMap) → holds self.old held → is_honest self.new
            → IfOk result (λ extents. extents.items ≡ extents_of held) }
        ensures ranges { IfOk result (λ extents. All IsRange extents.items) }
        ensures apart { IfOk result (λ extents. AscendApart extents.items) }
        ensures reads { OnlyReads holds leaves leaves_a_map lists same_tables is_honest is_open failures self.old result self.new };

    /// The held extents that share a byte with `from..to`, ascending by offset; both are offsets in bytes, `to` at
    /// most `MAX_OFFSET`. What is held stays, also after a fault.
    fn extents_touching(
        &mut self,
        alloc: Global,
        from: u64,
        to: u64,
    ) -> Result<Vec<Extent>, StoreFault>
        requires order { from < to }
        requires limit { to ≤ MAX_OFFSET }
        ensures touching { (held : HeldMap) → holds self.old held → is_honest self.new
            → IfOk result (λ extents. extents.items ≡ filter (touches from to) (extents_of held)) }
        ensures apart { IfOk result (λ extents. AscendApart extents.items) }
        ensures reads { OnlyReads holds leaves leaves_a_map lists same_tables is_honest is_open failures self.old result self.new };

    /// The rows of the blob that is held at an offset. Where none is held there, nothing is said of the answer but that
    /// its rows, as those of any blob, are at the positions 0, 1, 2, .. What is held stays, also after a fault.
    fn load(&mut self, alloc: Global, off: u64) -> Result<Loaded, StoreFault>
        ensures rows { (held : HeldMap) (blob : Blob) → holds self.old held → is_honest self.new
            → map.get held off ≡ Some blob → IfOk result (λ loaded. HasRowsOf loaded blob.elements) }
        ensures positions { IfOk result IsInPlace }
        ensures reads { OnlyReads holds leaves leaves_a_map lists same_tables is_honest is_open failures self.old result self.new };

    /// All held elements of this kind and id, each after the offset of its blob and its position there, ascending by both.
    /// What is held stays, also after a fault.
    fn find(&mut self, alloc: Global, kind: MemberKind, id: i64) -> Result<Found, StoreFault>
        ensures found { (held : HeldMap) → holds self.old held → is_honest self.new
            → IfOk result (λ found. AreMatches found (filter (is_of kind id) (placed_in held))) }
        ensures reads { OnlyReads holds leaves leaves_a_map lists same_tables is_honest is_open failures self.old result self.new };

    /// Whether any held element has a flag of visibility, as those of a file with history have. What is held stays, also
    /// after a fault.
    fn history(&mut self, alloc: Global) -> Result<bool, StoreFault>
        ensures flags { (held : HeldMap) → holds self.old held → is_honest self.new → IfOk result (λ found. found ≡ has_flags held) }
        ensures reads { OnlyReads holds leaves leaves_a_map lists same_tables is_honest is_open failures self.old result self.new };

    /// How many calls have answered a fault, up to 2 ^ 64 - 1.
    fn failures(&self) -> u64
        ensures { result ≡ failures self.now };

    /// While the store can go on, a crash leaves what it holds and nothing else.
    ghost settled: { (store : Self) (held left : HeldMap) → holds store held → leaves store left → left ≡ held };

    /// Over an honest disk a store is still usable or has to be opened anew.
    ghost open_or_shut: { (store : Self) → is_honest store → is_open store ⊎ ¬ (is_open store) };

    ghost same_tables_self: { (store : Self) → same_tables store store };

    ghost same_tables_then: { (first next last : Self) → same_tables first next → same_tables next last → same_tables first last };

    /// Where a map is held, whatever a crash leaves is a map.
    ghost leaves_held: { (store : Self) (held : HeldMap) → holds store held → leaves_a_map store };

    /// A map that is held is one of extents that don't meet.
    ghost is_apart: { (store : Self) (held : HeldMap) → holds store held → IsApart held };

    /// A map that is held is one of elements that use few texts.
    ghost has_few_texts: { (store : Self) (held : HeldMap) → holds store held → (off : ℕ) (blob : Blob) → map.get held off ≡ Some blob → HaveFewTexts blob.elements };
}

/// A store of blobs that takes more of them.
pub trait BlobKeeper: BlobReader {
    /// Adds a blob where no held extent is touched: its bytes are those from `off` to `fin`, at most `MAX_OFFSET`, and
    /// `digest` is the SHA-256 of its frame (FIPS 180-4). It is added whole, or a fault is answered and, where the store
    /// needn't be opened again, what is held stays. A crash during the call leaves what was held, or that with the whole
    /// blob. A store that has to be opened again answers a fault, and a crash leaves what it could leave before.
    fn put(
        &mut self,
        alloc: Global,
        off: u64,
        fin: u64,
        digest: &[u8; 32],
        kind: Kind,
        elements: &[Element],
    ) -> Result<(), StoreFault>
        requires order { off < fin }
        requires limit { fin ≤ MAX_OFFSET }
        ensures adds { Adds Self.holds Self.leaves Self.leaves_a_map Self.lists Self.same_tables Self.is_honest Self.is_open Self.failures off
            (record { fin = fin; digest = digest.now; kind = kind; elements = elements.now }) self.old result self.new };
}
