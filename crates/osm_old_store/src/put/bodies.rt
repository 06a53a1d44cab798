//! A blob's elements: each as a row with the canonical block of it alone.

ghost use Rattle.std.specs.Prelude.{◌<◌, ◌≤◌, ◌^◌, OnOk, map};
ghost use Rattle.std.specs.List.{AllByRecursion};
ghost use Rattle.sqlite.specs.State.{HasCleanDisk};
ghost use Rattle.sqlite.specs.Held.{state};
ghost use Rattle.osm_sql_store.specs.Inside.{WorksInside};
ghost use Rattle.osm_sql_store.specs.Schema.Over.{IsWriting};
ghost use Rattle.osm_sql_store.specs.Put.Steps.{AddsRow, AddsRows};
ghost use Rattle.osm_rows.specs.Rows.{placed, body_columns, body_row, HasBlock};

use crate::schema::sql::INSERT_BODY;
use osm_rows::{Layout, StoreFault, element_code};
use osm_sql_store::execute;
use osm_value::{Element, MemberKind};
use osm_write::encode_one;
use pbf_frame::MAX_OFFSET;
use sqlite::{Alter, Transaction, params};
use std::alloc::Global;

/// Adds a row of the table `body`.
fn add_body<S: Alter>(
    transaction: &mut Transaction<'_, S>,
    off: u64,
    position: u64,
    kind: MemberKind,
    id: i64,
    block: &[u8],
) -> Result<(), StoreFault>
    requires bounds { (off ≤ MAX_OFFSET) × (position < 2 ^ 63) }
    ensures step { WorksInside S.Store transaction.old.conn result transaction.new.conn }
    ensures added { HasCleanDisk (state S.Store transaction.new.conn.now) → IsWriting Layout.Bodies (state S.Store transaction.old.conn.now)
        → OnOk result (AddsRow Layout.Bodies 2 (state S.Store transaction.old.conn.now) (state S.Store transaction.new.conn.now) (body_columns off position kind id block.now)) }
{
    let code = element_code(kind);
    execute(
        transaction,
        INSERT_BODY,
        params![off as i64, position as i64, code, id, block],
    )
}

/// Adds an element as its body, which is made first.
fn add_element<S: Alter>(
    alloc: Global,
    transaction: &mut Transaction<'_, S>,
    off: u64,
    position: u64,
    element: &Element,
) -> Result<(), StoreFault>
    requires bounds { (off ≤ MAX_OFFSET) × (position < 2 ^ 63) }
    ensures step { WorksInside S.Store transaction.old.conn result transaction.new.conn }
    ensures added { HasCleanDisk (state S.Store transaction.new.conn.now) → IsWriting Layout.Bodies (state S.Store transaction.old.conn.now)
        → OnOk result (AddsRow Layout.Bodies 2 (state S.Store transaction.old.conn.now) (state S.Store transaction.new.conn.now) (body_row (off, position, element.now))) }
    ensures has_block { OnOk result (HasBlock element.now) }
{
    let block = encode_one(alloc, element)?;
    add_body(
        transaction,
        off,
        position,
        element.kind(),
        element.id(),
        &block,
    )
}

/// The elements of a blob, each at its position.
pub(crate) fn add_bodies<S: Alter>(
    alloc: Global,
    transaction: &mut Transaction<'_, S>,
    off: u64,
    elements: &[Element],
) -> Result<(), StoreFault>
    requires bounds { off ≤ MAX_OFFSET }
    ensures step { WorksInside S.Store transaction.old.conn result transaction.new.conn }
    ensures added { HasCleanDisk (state S.Store transaction.new.conn.now) → IsWriting Layout.Bodies (state S.Store transaction.old.conn.now)
        → OnOk result (AddsRows Layout.Bodies 2 (state S.Store transaction.old.conn.now) (state S.Store transaction.new.conn.now) (map body_row (placed off 0 elements.now))) }
    ensures have_blocks { OnOk result (AllByRecursion HasBlock elements.now) }
{
    for (position, element) in elements.iter().enumerate() {
        add_element(alloc, transaction, off, position as u64, element)?;
    }
    Ok(())
}
