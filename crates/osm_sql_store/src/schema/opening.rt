//! What a store is made of: tables in a database that had none, or tables that are there.

ghost use Rattle.std.specs.Prelude.{◌≡◌, ◌≢◌, ◌⊎◌, ℤ, pos, Some, None, false, IsTrue, IfOk, IfErr, MatchResult};
ghost use Rattle.std.specs.FinMap.{empty};
ghost use Rattle.sqlite.specs.State.{HasCleanDisk};
ghost use Rattle.sqlite.specs.Held.{state};
ghost use Rattle.osm_sql_store.specs.Load.Asking.{JustAsks, NamesVersion};
ghost use Rattle.osm_rows.specs.Faults.{NamesNoVersion};
ghost use Rattle.osm_rows.specs.Held.{HeldMap};
ghost use Rattle.osm_rows.specs.LayoutHolding.{Holds, TablesHold};
ghost use Rattle.osm_rows.specs.Keeping.{IsForeign};
ghost use Rattle.osm_rows.specs.Schema.Layouts.{version_of};
ghost use Rattle.osm_sql_store.specs.Schema.Stages.{no_schema};
ghost use Rattle.osm_sql_store.specs.Schema.Named.{HasTables};

use crate::layout::SqlLayout;
use crate::schema::create::create_tables;
use crate::schema::sql::BODY_VERSION;
use crate::schema::version::version;
use osm_rows::{Layout, StoreFault, TABLE_VERSION, fault_over_unknown};
use sqlite::{Alter, Connection};
use sqlite_schema::schema::Schema;

/// Whether a database has no tables, indexes and views.
fn is_bare(schema: &Schema) -> bool
    ensures { IsTrue result → schema.now ≡ no_schema }
{
    schema.tables.is_empty() && schema.indexes.is_empty() && schema.views.is_empty()
}

/// The version that the table `meta` names.
fn version_of(layout: Layout) -> i64
    ensures { result ≡ pos (version_of layout) }
{
    match layout {
        Layout::Bodies => BODY_VERSION,
        Layout::Tables => TABLE_VERSION,
    }
}

/// Makes the tables of a layout in a database that has none.
pub(crate) fn create_store<L: SqlLayout, S: Alter>(
    mut connection: Connection<S>,
) -> Result<Connection<S>, (StoreFault, Connection<S>)>
    requires { (state S.Store connection).in_transaction ≡ false }
    ensures empty { IfOk result (λ made. HasCleanDisk (state S.Store made) → Holds L.LAYOUT (state S.Store made) empty) }
    ensures settled { IfOk result (λ made. (state S.Store made).in_transaction ≡ false) }
    ensures unharmed { IfErr result (λ e. HasCleanDisk (state S.Store e.1) → IsTrue (state S.Store e.1).is_open → (state S.Store e.1).now ≡ (state S.Store connection).now) }
    ensures autocommit { IfErr result (λ e. (state S.Store e.1).in_transaction ≡ false) }
    ensures unnamed { IfErr result (λ e. NamesNoVersion e.0) }
    ensures occupied { (state S.Store connection).now.schema ≢ no_schema → MatchResult result (λ _. ⊥) (λ e. (e.0 ≡ StoreFault.NotThisStore None) × (e.1 ≡ connection)) }
    // a crash leaves what it could leave before, or the store that holds nothing
    ensures crash { IfErr result (λ e. HasCleanDisk (state S.Store e.1) → (db : _) → (state S.Store e.1).may_leave db → (state S.Store connection).may_leave db ⊎ TablesHold L.LAYOUT empty db) }
{
    if !is_bare(connection.schema()) {
        return Err((StoreFault::NotThisStore(None), connection));
    }
    match create_tables::<L, S>(&mut connection) {
        Ok(()) => Ok(connection),
        Err(error) => Err((fault_over_unknown(error), connection)),
    }
}

/// The connection, if its tables name the version of the layout, and it has each of the layout's tables with each of their
/// columns. No other row is read.
pub(crate) fn adopt_store<L: SqlLayout, S: Alter>(
    mut connection: Connection<S>,
) -> Result<Connection<S>, (StoreFault, Connection<S>)>
    requires { (state S.Store connection).in_transaction ≡ false }
    ensures held { (held : HeldMap) → Holds L.LAYOUT (state S.Store connection) held
        → MatchResult result (λ found. HasCleanDisk (state S.Store found) → Holds L.LAYOUT (state S.Store found) held) (λ e. HasCleanDisk (state S.Store e.1) → ¬ (IsForeign e.0)) }
    ensures asks { MatchResult result (λ found. JustAsks (state S.Store connection) (state S.Store found)) (λ e. JustAsks (state S.Store connection) (state S.Store e.1)) }
    ensures settled { IfOk result (λ found. (state S.Store found).in_transaction ≡ false) }
    ensures tables { IfOk result (λ found. HasTables L.LAYOUT (state S.Store found).now.schema) }
    ensures ours { IfOk result (λ found. HasCleanDisk (state S.Store found) → NamesVersion (state S.Store connection) (state S.Store found) (pos (version_of L.LAYOUT))) }
    ensures other { IfErr result (λ e. (found : ℤ) → e.0 ≡ StoreFault.NotThisStore (Some found) → (found ≢ pos (version_of L.LAYOUT)) × (HasCleanDisk (state S.Store e.1) → NamesVersion (state S.Store connection) (state S.Store e.1) found)) }
    ensures autocommit { IfErr result (λ e. (state S.Store e.1).in_transaction ≡ false) }
{
    match version(&mut connection) {
        Ok(found) => {
            if found != version_of(L::LAYOUT) {
                Err((StoreFault::NotThisStore(Some(found)), connection))
            } else if L::has_tables(connection.schema()) {
                Ok(connection)
            } else {
                Err((StoreFault::NotThisStore(None), connection))
            }
        }
        Err(fault) => Err((fault, connection)),
    }
}
