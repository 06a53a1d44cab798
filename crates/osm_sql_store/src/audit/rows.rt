//! Whether the rows at an offset are those of one blob.

ghost use Rattle.std.specs.Prelude.{◌≡◌, ◌↔◌, ◌<◌, ◌≤◌, ◌^◌, false, IsTrue, IfOk, IfErr};
ghost use Rattle.sqlite.specs.State.{HasCleanDisk};
ghost use Rattle.sqlite.specs.Held.{state};
ghost use Rattle.osm_rows.specs.Audit.{HasAt, ShowElementsAt};
ghost use Rattle.osm_sql_store.specs.AuditedTables.{HasTable, ShowsRows, rows_in, seen_in};
ghost use Rattle.osm_rows.specs.Keeping.{IsForeign};
ghost use Rattle.osm_sql_store.specs.Load.Asking.{JustAsks};
ghost use Rattle.osm_sql_store.specs.Load.Telling.{TellsWhether};
ghost use Rattle.osm_rows.specs.Rows.{placed};
ghost use Rattle.osm_rows.specs.Schema.Layouts.{schema_of};
ghost use Rattle.osm_rows.specs.Schema.Tables.{table_schema};

use crate::audit::extent::are_extent;
use crate::audit::same::have_columns;
use crate::audit::table::AuditedTable;
use crate::layout::SqlLayout;
use crate::load::{answer, number};
use osm_rows::{Extent, Layout, StoreFault, element_rows, link_rows, tag_rows};
use osm_value::Element;
use pbf_frame::MAX_OFFSET;
use sqlite::{Alter, Connection, Row};
use std::alloc::Global;

/// Whether rows are those that a table has of this blob, in their order.
fn are_rows_of(
    alloc: Global,
    rows: &[Row],
    table: AuditedTable,
    extent: &Extent,
    elements: &[Element],
) -> Result<bool, StoreFault>
    requires bounds { (extent.now.off ≤ MAX_OFFSET) × (extent.now.fin ≤ MAX_OFFSET) × (extent.now.n < 2 ^ 63) }
    ensures told { IfOk result (λ told. IsTrue told ↔ (rows.now ≡ rows_in table extent.now elements.now)) }
    ensures ours { IfErr result (λ fault. ¬ (IsForeign fault)) }
{
    match table {
        AuditedTable::Blobs => Ok(are_extent(rows, extent)),
        AuditedTable::Elements => {
            let expected = element_rows(alloc, extent.off, 0, elements)?;
            have_columns(alloc, rows, &expected)
        }
        AuditedTable::Tags => {
            let expected = tag_rows(alloc, extent.off, 0, elements)?;
            have_columns(alloc, rows, &expected)
        }
        AuditedTable::Links => {
            let expected = link_rows(alloc, extent.off, 0, elements)?;
            have_columns(alloc, rows, &expected)
        }
    }
}

/// Whether a table has the rows of this blob at its offset, and no others.
fn shows_rows<S: Alter>(
    alloc: Global,
    connection: &mut Connection<S>,
    table: AuditedTable,
    extent: &Extent,
    elements: &[Element],
) -> Result<bool, StoreFault>
    requires bounds { (extent.now.off ≤ MAX_OFFSET) × (extent.now.fin ≤ MAX_OFFSET) × (extent.now.n < 2 ^ 63) }
    ensures told { HasCleanDisk (state S.Store connection.new) → HasTable table (state S.Store connection.old).now.schema
        → IfOk result (λ told. IsTrue told ↔ HasAt extent.now.off (rows_in table extent.now elements.now) (seen_in table (state S.Store connection.old).now.trees)) }
    ensures opened { HasCleanDisk (state S.Store connection.new) → IfOk result (λ _. IsTrue (state S.Store connection.new).is_open) }
    ensures ours { IfErr result (λ fault. ¬ (IsForeign fault)) }
    ensures asks { JustAsks (state S.Store connection.old) (state S.Store connection.new) }
{
    let rows = answer(connection, table.select_statement(), &[number(extent.off)])?;
    are_rows_of(alloc, &rows, table, extent, elements)
}

/// Whether the rows of a blob's elements are at its offset, and no others, in the layout of tables.
pub(crate) fn shows_tables<S: Alter>(
    alloc: Global,
    connection: &mut Connection<S>,
    extent: &Extent,
    elements: &[Element],
) -> Result<bool, StoreFault>
    requires bounds { (extent.now.off ≤ MAX_OFFSET) × (extent.now.fin ≤ MAX_OFFSET) × (extent.now.n < 2 ^ 63) }
    ensures told { TellsWhether table_schema (state S.Store connection.old) result (state S.Store connection.new) (ShowElementsAt Layout.Tables extent.now.off (placed extent.now.off 0 elements.now)) }
    ensures opened { HasCleanDisk (state S.Store connection.new) → IfOk result (λ _. IsTrue (state S.Store connection.new).is_open) }
    ensures ours { IfErr result (λ fault. ¬ (IsForeign fault)) }
    ensures asks { JustAsks (state S.Store connection.old) (state S.Store connection.new) }
{
    if !shows_rows(alloc, connection, AuditedTable::Elements, extent, elements)? {
        return Ok(false);
    }
    if !shows_rows(alloc, connection, AuditedTable::Tags, extent, elements)? {
        return Ok(false);
    }
    shows_rows(alloc, connection, AuditedTable::Links, extent, elements)
}

/// Whether the rows of a blob are at its offset, and no others.
pub(crate) fn has_rows_of<L: SqlLayout, S: Alter>(
    alloc: Global,
    connection: &mut Connection<S>,
    extent: &Extent,
    elements: &[Element],
) -> Result<bool, StoreFault>
    requires autocommit { (state S.Store connection.old).in_transaction ≡ false }
    requires bounds { (extent.now.off ≤ MAX_OFFSET) × (extent.now.fin ≤ MAX_OFFSET) × (extent.now.n < 2 ^ 63) }
    ensures told { HasCleanDisk (state S.Store connection.new) → (state S.Store connection.old).committed.schema ≡ schema_of L.LAYOUT
        → IfOk result (λ told. IsTrue told ↔ ShowsRows L.LAYOUT extent.now elements.now (state S.Store connection.old).committed.trees) }
    ensures opened { HasCleanDisk (state S.Store connection.new) → IfOk result (λ _. IsTrue (state S.Store connection.new).is_open) }
    ensures ours { IfErr result (λ fault. ¬ (IsForeign fault)) }
    ensures asks { JustAsks (state S.Store connection.old) (state S.Store connection.new) }
{
    let _settled = connection.is_autocommit();
    if !shows_rows(alloc, connection, AuditedTable::Blobs, extent, elements)? {
        return Ok(false);
    }
    L::shows_elements(alloc, connection, extent, elements)
}
