//! Whether the rows of a store's tables are those of certain blobs, whatever rows the tables have.

mod counts;

ghost use Rattle.std.specs.Prelude.{◌≡◌, ◌↔◌, ◌<◌, ◌≤◌, ℕ, Some, IsTrue, IfOk};
ghost use Rattle.std.specs.FinMap as map;
ghost use Rattle.std.specs.List.{AllByRecursion};
ghost use Rattle.sqlite.specs.Tree.{Trees};
ghost use Rattle.osm_rows.specs.declared.schema.layout.Layout.{Layout as HowKept};
ghost use Rattle.osm_rows.specs.Audit.{ShowsBlob, ShowsCounts, AreCountable, IsPlain, counts_of, elements_held};
ghost use Rattle.osm_rows.specs.Held.{Blob, HeldMap};
ghost use Rattle.osm_rows.specs.Keeping.{OnlyReads};

use crate::StoreFault;
use crate::keeper::BlobReader;
pub use counts::Counts;
use osm_value::Element;
use pbf_frame::{Kind, MAX_OFFSET};
use std::alloc::Global;

/// A store whose tables may have any rows, as those of a database that other programs have written to. What is said here
/// needs the tables of a store, and of their rows nothing.
pub trait Audited: BlobReader {
    /// How the store keeps elements.
    ghost layout: { HowKept };

    /// The tables are those of a store, and what rows are found by can be relied on.
    ghost has_tables: { Self → Type 0 };

    /// The rows of the last commit.
    ghost trees: { Self → Trees };

    /// The rows that tables have at an offset, in all of them, are those that `put` writes for this blob, and no others.
    ghost has_rows: { Trees → ℕ → Blob → Type 0 };

    /// Whether the rows at an offset, in all tables, are those that `put` writes for this blob, and no others: its bytes
    /// are those from `off` to `fin`, at most `MAX_OFFSET`, and `digest` is the SHA-256 of its frame (FIPS 180-4). What is
    /// held stays, also after a fault, which is that of a read that has failed, or `Memory`.
    fn has_blob(
        &mut self,
        alloc: Global,
        off: u64,
        fin: u64,
        digest: &[u8; 32],
        kind: Kind,
        elements: &[Element],
    ) -> Result<bool, StoreFault>
        requires order { off < fin }
        requires limit { fin ≤ MAX_OFFSET }
        ensures told { Self.is_honest self.new → has_tables self.old
            → IfOk result (λ told. IsTrue told ↔ has_rows (trees self.old) off (record { fin = fin; digest = digest.now; kind = kind; elements = elements.now })) }
        // over a held map, where the elements are such as a put takes, it is whether the map has this blob there
        ensures held { (held : HeldMap) → Self.holds self.old held → Self.is_honest self.new → AllByRecursion IsPlain elements.now
            → IfOk result (λ told. IsTrue told ↔ (map.get held off ≡ Some (record { fin = fin; digest = digest.now; kind = kind; elements = elements.now }))) }
        ensures opened { Self.is_honest self.new → IfOk result (λ _. Self.is_open self.new) }
        ensures reads { OnlyReads Self.holds Self.leaves Self.leaves_a_map Self.lists Self.same_tables Self.is_honest Self.is_open Self.failures self.old result self.new };

    /// Whether each table has exactly so many rows. What is held stays, also after a fault, which is that of a read that
    /// has failed, or `Memory`.
    fn has_counts(&mut self, alloc: Global, counts: &Counts) -> Result<bool, StoreFault>
        ensures told { Self.is_honest self.new → has_tables self.old
            → IfOk result (λ told. IsTrue told ↔ ShowsCounts layout (trees self.old) counts.now) }
        // the tables of a held map have as many rows as the map
        ensures held { (held : HeldMap) → Self.holds self.old held → Self.is_honest self.new → counts.now ≡ counts_of (elements_held held) → AreCountable counts.now → IfOk result IsTrue }
        ensures opened { Self.is_honest self.new → IfOk result (λ _. Self.is_open self.new) }
        ensures reads { OnlyReads Self.holds Self.leaves Self.leaves_a_map Self.lists Self.same_tables Self.is_honest Self.is_open Self.failures self.old result self.new };

    /// Of the rows of a blob, as `put` writes them, queries see this blob, and no other.
    ghost shown: { (db : Trees) (off : ℕ) (blob : Blob) → has_rows db off blob → ShowsBlob layout db off blob };

    /// A store with the same tables has the same rows.
    ghost same_trees: { (one other : Self) → Self.same_tables one other → trees other ≡ trees one };

    /// And its tables are those of a store too.
    ghost same_has_tables: { (one other : Self) → Self.same_tables one other → has_tables one → has_tables other };
}
