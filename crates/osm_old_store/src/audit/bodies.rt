//! Whether rows are those of certain elements, and whether the table of bodies has these at an offset.

ghost use Rattle.std.specs.Prelude.{◌≡◌, ◌↔◌, ◌<◌, ◌≤◌, ◌^◌, map, IsTrue, IfOk, IfErr};
ghost use Rattle.sqlite.specs.State.{HasCleanDisk};
ghost use Rattle.sqlite.specs.Held.{state};
ghost use Rattle.osm_rows.specs.Audit.{ShowElementsAt};
ghost use Rattle.osm_rows.specs.Keeping.{IsForeign};
ghost use Rattle.osm_rows.specs.Rows.{placed, body_columns, body_row};
ghost use Rattle.osm_rows.specs.Schema.Bodies.{body_schema};
ghost use Rattle.osm_sql_store.specs.Load.Asking.{JustAsks};

use crate::schema::sql::SELECT_BODIES;
use osm_rows::{Layout, StoreFault, element_code};
use osm_sql_store::{answer, has_values, number};
use osm_value::{Element, MemberKind};
use osm_write::encode_one;
use pbf_frame::MAX_OFFSET;
use sqlite::{Alter, Connection, Row, params};
use std::alloc::Global;

/// Whether a row is that of a body.
fn has_body(row: &Row, off: u64, position: u64, kind: MemberKind, id: i64, block: &[u8]) -> bool
    requires bounds { (off ≤ MAX_OFFSET) × (position < 2 ^ 63) }
    ensures { IsTrue result ↔ (row.now ≡ body_columns off position kind id block.now) }
{
    let code = element_code(kind);
    has_values(row, params![off as i64, position as i64, code, id, block])
}

/// Whether a row is that of an element.
fn is_body(
    alloc: Global,
    row: &Row,
    off: u64,
    position: u64,
    element: &Element,
) -> Result<bool, StoreFault>
    requires bounds { (off ≤ MAX_OFFSET) × (position < 2 ^ 63) }
    ensures told { IfOk result (λ told. IsTrue told ↔ (row.now ≡ body_row (off, position, element.now))) }
    ensures ours { IfErr result (λ fault. ¬ (IsForeign fault)) }
{
    let block = encode_one(alloc, element)?;
    let kind = element.kind();
    let id = element.id();
    Ok(has_body(row, off, position, kind, id, &block))
}

/// Whether rows are those of elements, in their order.
fn are_bodies(
    alloc: Global,
    rows: &[Row],
    off: u64,
    elements: &[Element],
) -> Result<bool, StoreFault>
    requires bounds { off ≤ MAX_OFFSET }
    ensures told { IfOk result (λ told. IsTrue told ↔ (rows.now ≡ map body_row (placed off 0 elements.now))) }
    ensures ours { IfErr result (λ fault. ¬ (IsForeign fault)) }
{
    if rows.len() != elements.len() {
        return Ok(false);
    }
    for at in 0..rows.len() {
        if !is_body(alloc, &rows[at], off, at as u64, &elements[at])? {
            return Ok(false);
        }
    }
    Ok(true)
}

/// Whether the rows of elements are at an offset, and no others.
pub(crate) fn shows_bodies<S: Alter>(
    alloc: Global,
    connection: &mut Connection<S>,
    off: u64,
    elements: &[Element],
) -> Result<bool, StoreFault>
    requires bounds { off ≤ MAX_OFFSET }
    ensures told { HasCleanDisk (state S.Store connection.new) → (state S.Store connection.old).now.schema ≡ body_schema
        → IfOk result (λ told. IsTrue told ↔ ShowElementsAt Layout.Bodies off (placed off 0 elements.now) (state S.Store connection.old).now.trees) }
    ensures opened { HasCleanDisk (state S.Store connection.new) → IfOk result (λ _. IsTrue (state S.Store connection.new).is_open) }
    ensures ours { IfErr result (λ fault. ¬ (IsForeign fault)) }
    ensures asks { JustAsks (state S.Store connection.old) (state S.Store connection.new) }
{
    let rows = answer(connection, SELECT_BODIES, &[number(off)])?;
    are_bodies(alloc, &rows, off, elements)
}
