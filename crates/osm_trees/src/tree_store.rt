//! A store of blobs in the layout of tables, over trees.

ghost use Rattle.std.specs.Prelude.{◌≡◌};
ghost use Rattle.osm_rows.specs.Keeping.{failures_after};

use crate::extents::{all_extents, touched_extents};
use crate::history::any_flag;
use crate::load::{find_elements, load_blob};
use osm_rows::{BlobKeeper, BlobReader, Counts, Extent, Found, Loaded, StoreFault};
use osm_tree_audits::{Look, has_row_counts, has_rows_of};
use osm_tree_writes::put_blob;
use osm_value::{Element, MemberKind};
use pbf_frame::Kind;
use sqlite_trees::store::{Alter, Store};
use std::alloc::Global;
use std::marker::Model;

/// A store of blobs over the trees of its database, numbered as this program makes them: it begins at once, reads no more
/// rows than a call needs, and writes the rows of a blob with no word of SQL. What a call that failed leaves broken is rolled
/// back, so that it is usable until its files have to be opened anew.
pub struct TreeStore<S: Store> {
    store: S,
    failures: u64,
}

impl<S: Store> Model for TreeStore<S> {
    ghost use Rattle.osm_trees.specs.Reading.{Reading, reading_code};

    ghost Value = { Reading S };

    ghost coded = { reading_code S.code };

    ghost view = { λ r. record { store = r.store; failures = r.failures } };
}

impl<S: Store + Drop> Drop for TreeStore<S> {
    fn drop(self) {
        let TreeStore {
            store: _,
            failures: _,
        } = self;
    }
}

impl<S: Store> TreeStore<S> {
    ghost use Rattle.std.specs.Prelude.{false, OnOk, OnErr};
    ghost use Rattle.sqlite_trees.specs.View.{IsClean};
    ghost use Rattle.osm_trees.specs.Below.{Mends};
    ghost use Rattle.osm_trees.specs.Reading.{JustReads};

    /// The store of these trees.
    pub fn new(store: S) -> TreeStore<S>
        ensures { result ≡ record { store = store; failures = 0 } }
    {
        TreeStore { store, failures: 0 }
    }

    /// The trees, as the calls left them.
    pub fn into_store(self) -> S
        ensures { result ≡ self.store }
    {
        let TreeStore { store, failures: _ } = self;
        store
    }

    /// Begins a read, which is refused where the trees are broken, as they are where they have to be opened anew: no call of
    /// a store promises that it stays shut.
    fn begin_read(&mut self) -> Result<(), StoreFault>
        ensures up { OnOk result (IsClean (S.Store.view self.old.store) → (S.Store.view self.old.store).is_broken ≡ false) }
        ensures same { OnOk result (self.new ≡ self.old) }
        ensures reads { OnErr result (JustReads S.Store self.old result self.new) }
    {
        if !self.store.is_broken() {
            return Ok(());
        }
        let refusal = Err(StoreFault::Disk);
        self.end_read(&refusal);
        refusal
    }

    /// Ends a read: what it has left broken is rolled back, and a failure is counted.
    fn end_read<T>(&mut self, answer: &Result<T, StoreFault>)
        ensures mends { Mends S.Store self.old.store self.new.store }
        ensures counted { self.new.failures ≡ failures_after answer.now self.old.failures }
    {
        self.failures = failures_after(answer, self.failures);
        if self.store.is_broken() {
            self.store.rollback();
        }
    }
}

/// The count of failures after a call with this answer; it stays at the greatest number.
fn failures_after<T>(answer: &Result<T, StoreFault>, failures: u64) -> u64
    ensures { result ≡ failures_after answer.now failures }
{
    if answer.is_err() {
        failures.saturating_add(1)
    } else {
        failures
    }
}

impl<S: Store> BlobReader for TreeStore<S> {
    ghost use Rattle.sqlite_trees.specs.View.{IsClean};
    ghost use Rattle.osm_rows.specs.declared.schema.layout.Layout.TheVariants.{Tables};
    ghost use Rattle.osm_rows.specs.StoreLaws.{few_texts_of, open_or_shut};
    ghost use Rattle.osm_trees.specs.Below.{HoldsBelow, IsUsable, MayLeave, LeavesAMap, SameTrees, ListsAlways};
    ghost use Rattle.osm_trees.specs.Reading.{leaves_held_alone, leaves_held, same_self, same_next};

    ghost holds = { λ r held. HoldsBelow Tables (S.Store.view r.store) held };

    ghost leaves = { λ r left. MayLeave (S.Store.recovers r.store) left };

    ghost leaves_a_map = { λ r. LeavesAMap (S.Store.recovers r.store) };

    ghost lists = { λ r rows. ListsAlways (S.Store.view r.store) (S.Store.recovers r.store) rows };

    ghost same_tables = { λ r s. SameTrees (S.Store.view r.store) (S.Store.view s.store) };

    ghost is_honest = { λ r. IsClean (S.Store.view r.store) };

    ghost is_open = { λ r. IsUsable (S.Store.view r.store) };

    ghost failures = { λ r. r.failures };

    fn extents(&mut self, alloc: Global) -> Result<Vec<Extent>, StoreFault> {
        self.begin_read()?;
        let answer = all_extents(alloc, &mut self.store);
        self.end_read(&answer);
        answer
    }

    fn extents_touching(
        &mut self,
        alloc: Global,
        from: u64,
        to: u64,
    ) -> Result<Vec<Extent>, StoreFault> {
        self.begin_read()?;
        let answer = touched_extents(alloc, &mut self.store, from, to);
        self.end_read(&answer);
        answer
    }

    fn load(&mut self, alloc: Global, off: u64) -> Result<Loaded, StoreFault> {
        self.begin_read()?;
        let answer = load_blob(alloc, &mut self.store, off);
        self.end_read(&answer);
        answer
    }

    fn find(&mut self, alloc: Global, kind: MemberKind, id: i64) -> Result<Found, StoreFault> {
        self.begin_read()?;
        let answer = find_elements(alloc, &mut self.store, kind, id);
        self.end_read(&answer);
        answer
    }

    fn history(&mut self, alloc: Global) -> Result<bool, StoreFault> {
        self.begin_read()?;
        let answer = any_flag(alloc, &mut self.store);
        self.end_read(&answer);
        answer
    }

    fn failures(&self) -> u64 {
        self.failures
    }

    ghost settled = { λ r held left holds may. leaves_held_alone _ _ held holds (λ db up there. S.settled r.store db up there) (S.broken_if_shut r.store) left may.kept may.trees may.left may.tables };

    ghost open_or_shut = { λ r clean. open_or_shut _ clean };

    ghost same_tables_self = { λ r. same_self _ };

    ghost same_tables_then = { λ first next last one two. same_next _ _ _ one two };

    ghost leaves_held = { λ r held holds. leaves_held _ _ held holds (λ db up there. S.settled r.store db up there) (S.broken_if_shut r.store) };

    ghost is_apart = { λ r held holds. holds.kept.apart };

    ghost has_few_texts = { λ r held holds. few_texts_of Tables held holds.kept };
}

impl<S: Alter> BlobKeeper for TreeStore<S> {
    ghost use Rattle.std.specs.Prelude.{◌<◌, ◌≤◌};
    ghost use Rattle.pbf_frame.specs.declared.part.TheConstants.{MAX_OFFSET};
    ghost use Rattle.osm_trees.specs.Putting.{AddsBelow, KeepsAddedIndexes};

    /// Each index added to the tables of elements, of tags and of links gets an entry for each row, too.
    fn put(
        &mut self,
        alloc: Global,
        off: u64,
        fin: u64,
        digest: &[u8; 32],
        kind: Kind,
        elements: &[Element],
    ) -> Result<(), StoreFault>
        requires order { off < fin }
        requires limit { fin ≤ MAX_OFFSET }
        ensures adds { AddsBelow S.Store off (record { fin = fin; digest = digest.now; kind = kind; elements = elements.now }) self.old result self.new }
        ensures added_indexes { KeepsAddedIndexes S.Store self.old.store self.new.store result }
    {
        let extent = Extent {
            off,
            fin,
            digest: *digest,
            kind,
            n: elements.len() as u64,
        };
        let answer = put_blob(alloc, &mut self.store, &extent, elements);
        self.failures = failures_after(&answer, self.failures);
        answer
    }
}

impl<S: Store> TreeStore<S> {
    ghost use Rattle.std.specs.Prelude.{◌≤◌, ◌<◌, ◌^◌, ◌↔◌, IsTrue, IfOk};
    ghost use Rattle.pbf_frame.specs.declared.part.TheConstants.{MAX_OFFSET};
    ghost use Rattle.sqlite_trees.specs.View.{IsClean};
    ghost use Rattle.osm_rows.specs.declared.schema.layout.Layout.TheVariants.{Tables};
    ghost use Rattle.osm_rows.specs.Audit.{ShowsCounts};
    ghost use Rattle.osm_tree_audits.specs.Auditing.{KeepsBlob};
    ghost use Rattle.osm_tree_audits.specs.Looks.{IsLook};
    ghost use Rattle.osm_trees.specs.Below.{IsIndexed, IsUsable};
    ghost use Rattle.osm_trees.specs.Reading.{JustReads};

    /// Whether the rows at a blob's offset, in all tables, are those that a put of it writes, and no others. Rows are found by
    /// the indexes, so these have to be whole, and by what was seen of the tables as they were checked
    /// (`osm_tree_audits::look_at_indexes`). The offsets are at most `MAX_OFFSET`, in bytes. What is held stays, also after a
    /// fault, which is that of a read that has failed, or `Memory`.
    pub fn has_rows_of(
        &mut self,
        alloc: Global,
        look: &Look,
        extent: &Extent,
        elements: &[Element],
    ) -> Result<bool, StoreFault>
        requires bounds { (extent.now.off ≤ MAX_OFFSET) × (extent.now.fin ≤ MAX_OFFSET) × (extent.now.n < 2 ^ 63) }
        ensures told { IsClean (S.Store.view self.new.store) → IsIndexed (S.Store.view self.old.store) → IsLook (S.Store.view self.old.store).committed look.now
            → IfOk result (λ told. IsTrue told ↔ KeepsBlob (S.Store.view self.old.store).committed extent.now elements.now) }
        ensures opened { IsClean (S.Store.view self.new.store) → IfOk result (λ _. IsUsable (S.Store.view self.new.store)) }
        ensures reads { JustReads S.Store self.old result self.new }
    {
        self.begin_read()?;
        let answer = has_rows_of(alloc, &mut self.store, look, extent, elements);
        self.end_read(&answer);
        answer
    }

    /// Whether each table has exactly so many rows, by what was seen of the tables as the indexes were checked. What is held
    /// stays, also after a fault, which is that of a read that has failed, or `Memory`.
    pub fn has_row_counts(
        &mut self,
        alloc: Global,
        look: &Look,
        counts: &Counts,
    ) -> Result<bool, StoreFault>
        ensures told { IsClean (S.Store.view self.new.store) → IsIndexed (S.Store.view self.old.store) → IsLook (S.Store.view self.old.store).committed look.now
            → IfOk result (λ told. IsTrue told ↔ ShowsCounts Tables (S.Store.view self.old.store).committed counts.now) }
        ensures opened { IsClean (S.Store.view self.new.store) → IfOk result (λ _. IsUsable (S.Store.view self.new.store)) }
        ensures reads { JustReads S.Store self.old result self.new }
    {
        self.begin_read()?;
        let answer = has_row_counts(alloc, &mut self.store, look, counts);
        self.end_read(&answer);
        answer
    }
}
