//! How many rows the tables have, asked by SQL.

ghost use Rattle.std.specs.Prelude.{◌≡◌, ◌↔◌, ◌∷◌, [], ◌<◌, ◌-◌, ◌^◌, ℕ, min, false, pos, Some, IsTrue, IfOk, IfErr};
ghost use Rattle.sqlite.specs.declared.types.Value.TheVariants.{Int};
ghost use Rattle.sqlite.specs.State.{HasCleanDisk};
ghost use Rattle.sqlite.specs.Held.{state};
ghost use Rattle.osm_rows.specs.Audit.{HasCount, ShowsCounts};
ghost use Rattle.osm_sql_store.specs.AuditedTables.{HasTable, tree_of};
ghost use Rattle.osm_sql_store.specs.ElementCounts.{ShowsElementCounts};
ghost use Rattle.osm_rows.specs.Keeping.{IsForeign};
ghost use Rattle.osm_sql_store.specs.Load.Asking.{JustAsks};
ghost use Rattle.osm_sql_store.specs.Load.Telling.{TellsWhether};
ghost use Rattle.osm_rows.specs.Schema.Tables.{table_schema};
ghost use Rattle.osm_rows.specs.Schema.Layouts.{schema_of};

use crate::audit::table::AuditedTable;
use crate::layout::SqlLayout;
use crate::load::answer;
use osm_rows::{Counts, Layout, StoreFault, number_at};
use sqlite::{Alter, Connection, Row};

/// The most rows that SQL counts.
const MOST_ROWS: u64 = 9_223_372_036_854_775_807;

/// The number that one row shows.
fn number_in(rows: &[Row]) -> Option<u64>
    ensures { (n : ℕ) → rows.now ≡ (Int (pos n) ∷ []) ∷ [] → result ≡ Some n }
{
    match rows.first() {
        Some(row) => number_at(row, 0),
        None => None,
    }
}

/// Whether rows are the one that shows this count, which is less than SQL counts at most.
pub fn is_count(rows: &[Row], expected: u64) -> bool
    ensures { (n : ℕ) → rows.now ≡ (Int (pos (min n 9223372036854775807)) ∷ []) ∷ [] → IsTrue result ↔ ((n ≡ expected) × (expected < 2 ^ 63 - 1)) }
{
    match number_in(rows) {
        Some(count) => count == expected && expected < MOST_ROWS,
        None => false,
    }
}

/// Whether a table has so many rows, which are fewer than SQL counts at most.
fn has_count<S: Alter>(
    connection: &mut Connection<S>,
    table: AuditedTable,
    expected: u64,
) -> Result<bool, StoreFault>
    ensures told { HasCleanDisk (state S.Store connection.new) → HasTable table (state S.Store connection.old).now.schema
        → IfOk result (λ told. IsTrue told ↔ HasCount ((state S.Store connection.old).now.trees (tree_of table)) expected) }
    ensures opened { HasCleanDisk (state S.Store connection.new) → IfOk result (λ _. IsTrue (state S.Store connection.new).is_open) }
    ensures ours { IfErr result (λ fault. ¬ (IsForeign fault)) }
    ensures asks { JustAsks (state S.Store connection.old) (state S.Store connection.new) }
{
    let rows = answer(connection, table.count_statement(), &[])?;
    Ok(is_count(&rows, expected))
}

/// Whether the tables of elements have so many rows, in the layout of tables.
pub(crate) fn has_table_counts<S: Alter>(
    connection: &mut Connection<S>,
    counts: &Counts,
) -> Result<bool, StoreFault>
    ensures told { TellsWhether table_schema (state S.Store connection.old) result (state S.Store connection.new) (λ trees. ShowsElementCounts Layout.Tables trees counts.now) }
    ensures opened { HasCleanDisk (state S.Store connection.new) → IfOk result (λ _. IsTrue (state S.Store connection.new).is_open) }
    ensures ours { IfErr result (λ fault. ¬ (IsForeign fault)) }
    ensures asks { JustAsks (state S.Store connection.old) (state S.Store connection.new) }
{
    if !has_count(connection, AuditedTable::Elements, counts.elements)? {
        return Ok(false);
    }
    if !has_count(connection, AuditedTable::Tags, counts.tags)? {
        return Ok(false);
    }
    has_count(connection, AuditedTable::Links, counts.links)
}

/// Whether the tables have so many rows.
pub(crate) fn has_counts_of<L: SqlLayout, S: Alter>(
    connection: &mut Connection<S>,
    counts: &Counts,
) -> Result<bool, StoreFault>
    requires { (state S.Store connection.old).in_transaction ≡ false }
    ensures told { HasCleanDisk (state S.Store connection.new) → (state S.Store connection.old).committed.schema ≡ schema_of L.LAYOUT
        → IfOk result (λ told. IsTrue told ↔ ShowsCounts L.LAYOUT (state S.Store connection.old).committed.trees counts.now) }
    ensures opened { HasCleanDisk (state S.Store connection.new) → IfOk result (λ _. IsTrue (state S.Store connection.new).is_open) }
    ensures ours { IfErr result (λ fault. ¬ (IsForeign fault)) }
    ensures asks { JustAsks (state S.Store connection.old) (state S.Store connection.new) }
{
    let _settled = connection.is_autocommit();
    if !has_count(connection, AuditedTable::Blobs, counts.blobs)? {
        return Ok(false);
    }
    L::has_element_counts(connection, counts)
}
