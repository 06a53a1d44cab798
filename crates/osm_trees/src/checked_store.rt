//! A store in the layout of tables, over trees, each index of which was checked.

ghost use Rattle.std.specs.Prelude.{◌≡◌};

use crate::TreeStore;
use osm_rows::{Audited, BlobReader, Counts, Extent, Found, Loaded, StoreFault};
use osm_tree_audits::Look;
use osm_value::{Element, MemberKind};
use pbf_frame::Kind;
use sqlite_trees::store::Store;
use std::alloc::Global;
use std::marker::Model;

/// A store over the trees of its database, each index of which was checked. What was seen of its tables then stays so, since
/// nothing is ever put into it.
pub struct CheckedStore<S: Store> {
    trees: TreeStore<S>,
    look: Look,
}

impl<S: Store> Model for CheckedStore<S> {
    ghost use Rattle.osm_trees.specs.Checking.{Checking, checking_code};

    ghost Value = { Checking S };

    ghost coded = { checking_code S.code };

    ghost view = { λ c. record { trees = c.trees; look = c.look } };
}

impl<S: Store + Drop> Drop for CheckedStore<S> {
    fn drop(self) {
        let CheckedStore { trees: _, look: _ } = self;
    }
}

impl<S: Store> CheckedStore<S> {
    /// The store of these trees, of which this was seen.
    pub fn new(trees: TreeStore<S>, look: Look) -> CheckedStore<S>
        ensures { result ≡ record { trees = trees; look = look } }
    {
        CheckedStore { trees, look }
    }

    /// The trees, as the calls left them.
    pub fn into_store(self) -> S
        ensures { result ≡ self.trees.store }
    {
        let CheckedStore { trees, look: _ } = self;
        trees.into_store()
    }
}

impl<S: Store> BlobReader for CheckedStore<S> {
    ghost use Rattle.sqlite_trees.specs.View.{IsClean};
    ghost use Rattle.osm_rows.specs.declared.schema.layout.Layout.TheVariants.{Tables};
    ghost use Rattle.osm_rows.specs.StoreLaws.{few_texts_of, open_or_shut};
    ghost use Rattle.osm_trees.specs.Below.{IsUsable, MayLeave, LeavesAMap, ListsAlways};
    ghost use Rattle.osm_trees.specs.Reading.{leaves_held_alone, leaves_held};
    ghost use Rattle.osm_trees.specs.Checking.{HoldsChecked, SameChecked, same_seen_next, same_seen_self};

    ghost holds = { HoldsChecked S.Store };

    ghost leaves = { λ c left. MayLeave (S.Store.recovers c.trees.store) left };

    ghost leaves_a_map = { λ c. LeavesAMap (S.Store.recovers c.trees.store) };

    ghost lists = { λ c rows. ListsAlways (S.Store.view c.trees.store) (S.Store.recovers c.trees.store) rows };

    ghost same_tables = { SameChecked S.Store };

    ghost is_honest = { λ c. IsClean (S.Store.view c.trees.store) };

    ghost is_open = { λ c. IsUsable (S.Store.view c.trees.store) };

    ghost failures = { λ c. c.trees.failures };

    fn extents(&mut self, alloc: Global) -> Result<Vec<Extent>, StoreFault> {
        self.trees.extents(alloc)
    }

    fn extents_touching(
        &mut self,
        alloc: Global,
        from: u64,
        to: u64,
    ) -> Result<Vec<Extent>, StoreFault> {
        self.trees.extents_touching(alloc, from, to)
    }

    fn load(&mut self, alloc: Global, off: u64) -> Result<Loaded, StoreFault> {
        self.trees.load(alloc, off)
    }

    fn find(&mut self, alloc: Global, kind: MemberKind, id: i64) -> Result<Found, StoreFault> {
        self.trees.find(alloc, kind, id)
    }

    fn history(&mut self, alloc: Global) -> Result<bool, StoreFault> {
        self.trees.history(alloc)
    }

    fn failures(&self) -> u64 {
        self.trees.failures()
    }

    ghost settled = { λ c held left holds may. leaves_held_alone _ _ held holds.0 (λ db up there. S.settled c.trees.store db up there) (S.broken_if_shut c.trees.store) left may.kept may.trees may.left may.tables };

    ghost open_or_shut = { λ c clean. open_or_shut _ clean };

    ghost same_tables_self = { λ c. same_seen_self _ _ };

    ghost same_tables_then = { λ first next last one two. same_seen_next _ _ _ _ _ _ one two };

    ghost leaves_held = { λ c held holds. leaves_held _ _ held holds.0 (λ db up there. S.settled c.trees.store db up there) (S.broken_if_shut c.trees.store) };

    ghost is_apart = { λ c held holds. holds.0.kept.apart };

    ghost has_few_texts = { λ c held holds. few_texts_of Tables held holds.0.kept };
}

/// Rows are found by the indexes, which are whole, or by their order alone where they were seen to stand in that of a key.
impl<S: Store> Audited for CheckedStore<S> {
    ghost use Rattle.osm_rows.specs.declared.schema.layout.Layout.TheVariants.{Tables};
    ghost use Rattle.osm_rows.specs.Keeping.{extent_of};
    ghost use Rattle.osm_tree_audits.specs.Auditing.{KeepsBlob};
    ghost use Rattle.osm_tree_audits.proofs.Shown.{blob_shown};
    ghost use Rattle.osm_trees.specs.Checking.{HasWholeIndexes, whole_after};

    ghost layout = { Tables };

    ghost has_tables = { HasWholeIndexes S.Store };

    ghost trees = { λ c. (S.Store.view c.trees.store).committed };

    ghost has_rows = { λ db off blob. KeepsBlob db (extent_of (off, blob)) blob.elements };

    fn has_blob(
        &mut self,
        alloc: Global,
        off: u64,
        fin: u64,
        digest: &[u8; 32],
        kind: Kind,
        elements: &[Element],
    ) -> Result<bool, StoreFault> {
        let wanted = Extent {
            off,
            fin,
            digest: *digest,
            kind,
            n: elements.len() as u64,
        };
        self.trees.has_rows_of(alloc, &self.look, &wanted, elements)
    }

    fn has_counts(&mut self, alloc: Global, counts: &Counts) -> Result<bool, StoreFault> {
        self.trees.has_row_counts(alloc, &self.look, counts)
    }

    ghost shown = { blob_shown };

    ghost same_trees = { λ one other same. same.0.committed };

    ghost same_has_tables = { λ one other same has. whole_after _ _ _ _ same has };
}
