//! A store of blobs over a connection, in any layout.

ghost use Rattle.std.specs.Prelude.{◌≡◌, ◌≢◌, ◌⊎◌, ℤ, pos, Some, None, false, IsTrue, IfOk, IfErr, MatchResult};
ghost use Rattle.std.specs.FinMap.{empty};
ghost use Rattle.sqlite.specs.State.{HasCleanDisk};
ghost use Rattle.sqlite.specs.Held.{state};
ghost use Rattle.osm_sql_store.specs.Load.Asking.{JustAsks, NamesVersion};
ghost use Rattle.osm_rows.specs.Faults.{NamesNoVersion};
ghost use Rattle.osm_rows.specs.Held.{HeldMap};
ghost use Rattle.osm_rows.specs.LayoutHolding.{Holds, TablesHold};
ghost use Rattle.osm_rows.specs.Keeping.{IsForeign};
ghost use Rattle.osm_rows.specs.Schema.Layouts.{version_of};
ghost use Rattle.osm_sql_store.specs.Schema.Stages.{no_schema};
ghost use Rattle.osm_sql_store.specs.Schema.Named.{HasTables};

use crate::audit::{has_counts_of, has_rows_of};
use crate::failures::failures_after;
use crate::layout::SqlLayout;
use crate::load::{all_extents, touched_extents};
use crate::put::put_rows;
use crate::schema::{adopt_store, create_store};
use osm_rows::{
    Audited, BlobKeeper, BlobReader, Counts, Extent, Found, Loaded, StoreFault, Tables,
};
use osm_value::{Element, MemberKind};
use pbf_frame::Kind;
use sqlite::{Alter, Connection};
use std::alloc::Global;
use std::marker::{Model, PhantomData};

/// A store of blobs in the tables of a connection.
pub struct BlobStore<S: Alter, L: SqlLayout> {
    connection: Connection<S>,
    failures: u64,
    layout: PhantomData<L>,
}

/// A store that users can query: a row for each element, and one for each of its tags and links.
pub type TableStore<S> = BlobStore<S, Tables>;

impl<S: Alter, L: SqlLayout> Model for BlobStore<S, L> {
    ghost use Rattle.std.specs.Prelude.{◌≡◌, false};
    ghost use Rattle.osm_sql_store.specs.Store.{Store, store_code};

    ghost Value = { Store S };

    ghost coded = { store_code S.code };

    ghost view = { λ s. record { connection = s.connection; failures = s.failures } };

    ghost invariant = { λ s. s.connection.in_transaction ≡ false };
}

impl<S: Alter + Drop, L: SqlLayout> Drop for BlobStore<S, L> {
    fn drop(self) {
        let BlobStore {
            connection: _,
            failures: _,
            layout: _,
        } = self;
    }
}

impl<S: Alter, L: SqlLayout> BlobStore<S, L> {
    /// Makes the tables of a store in a database that has none, in one transaction.
    ///
    /// A fault hands the connection back. It is `NotThisStore(None)` where the database has tables, or for a
    /// cause other than memory or room, no step limit and no failure of the disk.
    pub fn create(connection: Connection<S>) -> Result<BlobStore<S, L>, (StoreFault, Connection<S>)>
        requires { (state S.Store connection).in_transaction ≡ false }
        ensures empty { IfOk result (λ store. HasCleanDisk (state S.Store store.connection) → Holds L.LAYOUT (state S.Store store.connection) empty) }
        ensures failures { IfOk result (λ store. store.failures ≡ 0) }
        ensures unharmed { IfErr result (λ e. HasCleanDisk (state S.Store e.1) → IsTrue (state S.Store e.1).is_open → (state S.Store e.1).now ≡ (state S.Store connection).now) }
        ensures autocommit { IfErr result (λ e. (state S.Store e.1).in_transaction ≡ false) }
        ensures unnamed { IfErr result (λ e. NamesNoVersion e.0) }
        // a database that has a table, an index or a view, whosever it is, is left as it is
        ensures occupied { (state S.Store connection).now.schema ≢ no_schema → MatchResult result (λ _. ⊥) (λ e. (e.0 ≡ StoreFault.NotThisStore None) × (e.1 ≡ connection)) }
        // a crash leaves what it could leave before, or the store that holds nothing
        ensures crash { IfErr result (λ e. HasCleanDisk (state S.Store e.1) → (db : _) → (state S.Store e.1).may_leave db → (state S.Store connection).may_leave db ⊎ TablesHold L.LAYOUT empty db) }
    {
        match create_store::<L, S>(connection) {
            Ok(connection) => Ok(BlobStore {
                connection,
                failures: 0,
                layout: PhantomData,
            }),
            Err(refusal) => Err(refusal),
        }
    }

    /// The store that the database holds. No row is read but its version.
    ///
    /// A fault hands the connection back. It is `NotThisStore` with the version where that is another one,
    /// and `NotThisStore(None)` where the database isn't a store, or lacks one of its tables or of their columns.
    pub fn adopt(connection: Connection<S>) -> Result<BlobStore<S, L>, (StoreFault, Connection<S>)>
        requires { (state S.Store connection).in_transaction ≡ false }
        ensures held { (held : HeldMap) → Holds L.LAYOUT (state S.Store connection) held
            → MatchResult result (λ store. HasCleanDisk (state S.Store store.connection) → Holds L.LAYOUT (state S.Store store.connection) held) (λ e. HasCleanDisk (state S.Store e.1) → ¬ (IsForeign e.0)) }
        ensures asks { MatchResult result (λ store. JustAsks (state S.Store connection) (state S.Store store.connection)) (λ e. JustAsks (state S.Store connection) (state S.Store e.1)) }
        ensures failures { IfOk result (λ store. store.failures ≡ 0) }
        ensures tables { IfOk result (λ store. HasTables L.LAYOUT (state S.Store store.connection).now.schema) }
        ensures ours { IfOk result (λ store. HasCleanDisk (state S.Store store.connection) → NamesVersion (state S.Store connection) (state S.Store store.connection) (pos (version_of L.LAYOUT))) }
        ensures other { IfErr result (λ e. (found : ℤ) → e.0 ≡ StoreFault.NotThisStore (Some found) → (found ≢ pos (version_of L.LAYOUT)) × (HasCleanDisk (state S.Store e.1) → NamesVersion (state S.Store connection) (state S.Store e.1) found)) }
        ensures autocommit { IfErr result (λ e. (state S.Store e.1).in_transaction ≡ false) }
    {
        match adopt_store::<L, S>(connection) {
            Ok(connection) => Ok(BlobStore {
                connection,
                failures: 0,
                layout: PhantomData,
            }),
            Err(refusal) => Err(refusal),
        }
    }

    /// The connection, as the store left it.
    pub fn into_connection(self) -> Connection<S>
        ensures { result ≡ self.connection }
    {
        let BlobStore {
            connection,
            failures: _,
            layout: _,
        } = self;
        connection
    }

    /// How many steps each later statement may take; None is no limit.
    pub fn set_step_limit(&mut self, limit: Option<u64>)
        ensures { self.new ≡ record self.old { connection = record self.old.connection { step_limit = limit } } }
    {
        self.connection.set_step_limit(limit);
    }
}

impl<S: Alter, L: SqlLayout> BlobReader for BlobStore<S, L> {
    ghost use Rattle.sqlite.specs.State.{HasCleanDisk};
    ghost use Rattle.sqlite.specs.Held.{state};
    ghost use Rattle.std.specs.Prelude.{IsTrue, refl};
    ghost use Rattle.osm_rows.specs.LayoutHolding.{Holds, MayLeave, LeavesAMap, ListsAlways, SameTables};
    ghost use Rattle.osm_rows.specs.StoreLaws.{leaves_held_alone, leaves_held, few_texts_of, open_or_shut};
    ghost use Rattle.osm_sql_store.specs.CommitLaws.{same_then};

    ghost holds = { λ s held. Holds L.LAYOUT (state S.Store s.connection) held };

    ghost leaves = { λ s left. MayLeave L.LAYOUT (state S.Store s.connection) left };

    ghost leaves_a_map = { λ s. LeavesAMap L.LAYOUT (state S.Store s.connection) };

    ghost lists = { λ s rows. ListsAlways L.LAYOUT (state S.Store s.connection) rows };

    ghost same_tables = { λ s t. SameTables (state S.Store s.connection) (state S.Store t.connection) };

    ghost is_honest = { λ s. HasCleanDisk (state S.Store s.connection) };

    ghost is_open = { λ s. HasCleanDisk (state S.Store s.connection) × IsTrue (state S.Store s.connection).is_open };

    ghost failures = { λ s. s.failures };

    fn extents(&mut self, alloc: Global) -> Result<Vec<Extent>, StoreFault> {
        let answer = all_extents(alloc, &mut self.connection);
        self.failures = failures_after(&answer, self.failures);
        answer
    }

    fn extents_touching(
        &mut self,
        alloc: Global,
        from: u64,
        to: u64,
    ) -> Result<Vec<Extent>, StoreFault> {
        let answer = touched_extents(alloc, &mut self.connection, from, to);
        self.failures = failures_after(&answer, self.failures);
        answer
    }

    fn load(&mut self, alloc: Global, off: u64) -> Result<Loaded, StoreFault> {
        let answer = L::load_held(alloc, &mut self.connection, off);
        self.failures = failures_after(&answer, self.failures);
        answer
    }

    fn find(&mut self, alloc: Global, kind: MemberKind, id: i64) -> Result<Found, StoreFault> {
        let answer = L::find_held(alloc, &mut self.connection, kind, id);
        self.failures = failures_after(&answer, self.failures);
        answer
    }

    fn history(&mut self, alloc: Global) -> Result<bool, StoreFault> {
        let answer = L::any_flag_held(alloc, &mut self.connection);
        self.failures = failures_after(&answer, self.failures);
        answer
    }

    fn failures(&self) -> u64 {
        self.failures
    }

    ghost settled = { λ store held left holds may. leaves_held_alone L.LAYOUT _ held holds (λ db there. S.settled store.connection.store db there) left may };

    ghost open_or_shut = { λ store clean. open_or_shut _ clean };

    ghost same_tables_self = { λ store. refl };

    ghost same_tables_then = { λ first next last one two. same_then _ _ _ one two };

    ghost leaves_held = { λ store held holds. leaves_held L.LAYOUT _ held holds (λ db there. S.settled store.connection.store db there) };

    ghost is_apart = { λ store held holds. holds.kept.apart };

    ghost has_few_texts = { λ store held holds. few_texts_of L.LAYOUT held holds.kept };
}

impl<S: Alter, L: SqlLayout> BlobKeeper for BlobStore<S, L> {
    fn put(
        &mut self,
        alloc: Global,
        off: u64,
        fin: u64,
        digest: &[u8; 32],
        kind: Kind,
        elements: &[Element],
    ) -> Result<(), StoreFault> {
        let extent = Extent {
            off,
            fin,
            digest: *digest,
            kind,
            n: elements.len() as u64,
        };
        let answer = put_rows::<L, S>(alloc, &mut self.connection, &extent, elements);
        self.failures = failures_after(&answer, self.failures);
        answer
    }
}

impl<S: Alter, L: SqlLayout> Audited for BlobStore<S, L> {
    ghost use Rattle.std.specs.Prelude.{◌≡◌};
    ghost use Rattle.sqlite.specs.Held.{state};
    ghost use Rattle.osm_rows.specs.Audit.{ShowsBlob};
    ghost use Rattle.osm_rows.specs.Schema.Layouts.{schema_of};
    ghost use Rattle.osm_sql_store.specs.CommitLaws.{trees_after, schema_after};

    ghost layout = { L.LAYOUT };

    ghost has_tables = { λ s. (state S.Store s.connection).committed.schema ≡ schema_of L.LAYOUT };

    ghost trees = { λ s. (state S.Store s.connection).committed.trees };

    ghost has_rows = { λ db off blob. ShowsBlob L.LAYOUT db off blob };

    fn has_blob(
        &mut self,
        alloc: Global,
        off: u64,
        fin: u64,
        digest: &[u8; 32],
        kind: Kind,
        elements: &[Element],
    ) -> Result<bool, StoreFault> {
        let wanted = Extent {
            off,
            fin,
            digest: *digest,
            kind,
            n: elements.len() as u64,
        };
        let answer = has_rows_of::<L, S>(alloc, &mut self.connection, &wanted, elements);
        self.failures = failures_after(&answer, self.failures);
        answer
    }

    fn has_counts(&mut self, _alloc: Global, counts: &Counts) -> Result<bool, StoreFault> {
        let answer = has_counts_of::<L, S>(&mut self.connection, counts);
        self.failures = failures_after(&answer, self.failures);
        answer
    }

    ghost shown = { λ db off blob has. has };

    ghost same_trees = { λ one other same. trees_after _ _ same };

    ghost same_has_tables = { λ one other same has. schema_after _ _ same has };
}
