//! That a store in which `verify` found the rows of a file holds what an import of the file makes.

ghost use Rattle.std.specs.Prelude.{ℕ, List};
ghost use Rattle.osm_rows.specs.Held.{HeldMap};
ghost use Rattle.osm_import.specs.Merges.{IsImported, placed_from};
ghost use Rattle.osm_restarts.specs.Verified.{IsLookedAt, KeepsFile};

use osm_rows::{Audited, BlobReader};
use osm_trees::{CheckedStore, TreeStore};
use sqlite_trees::store::Store;

/// A store over trees whose database was checked as it was opened, each page, tree and index of it, whatever it lists behind
/// the store's trees: where it keeps the rows of an import of these frames and no others, which is what `verify` tells at status 0
/// by elements, it holds the map of that import, and so do its trees alone. So whatever is asked of it next, or put into these,
/// begins with what it needs.
pub fn a_verified_store_holds_the_import<S: Store>(store: &CheckedStore<S>)
    ensures imported { (frames : List (List ℕ)) → IsLookedAt S.Store store.now
        → KeepsFile ⟦<CheckedStore<S> as Audited>⟧.has_rows (⟦<CheckedStore<S> as Audited>⟧.trees store.now) frames
        → (held : HeldMap) × IsImported (placed_from 0 frames) held × ⟦<CheckedStore<S> as BlobReader>⟧.holds store.now held }
    ensures trees { (held : HeldMap) → ⟦<CheckedStore<S> as BlobReader>⟧.holds store.now held → ⟦<TreeStore<S> as BlobReader>⟧.holds store.now.trees held }
{
    let _store = store;
}
