//! A blob's elements in the layout of tables: all their rows are made, and then written.

ghost use Rattle.std.specs.Prelude.{◌≤◌, OnOk};
ghost use Rattle.std.specs.List.{AllByRecursion};
ghost use Rattle.sqlite.specs.State.{HasCleanDisk};
ghost use Rattle.sqlite.specs.Held.{state};
ghost use Rattle.osm_sql_store.specs.Inside.{WorksInside};
ghost use Rattle.osm_rows.specs.Rows.{placed, CanStore};
ghost use Rattle.osm_sql_store.specs.Schema.Over.{IsWriting};
ghost use Rattle.osm_sql_store.specs.Put.Steps.{AddsElements, AddsElementsOf};

use crate::put::batch::add_rows;
use osm_rows::{
    ElementRow, Layout, LinkRow, StoreFault, TagRow, element_rows, link_rows, tag_rows,
};
use osm_value::Element;
use osm_value::laws::elements_in_range;
use pbf_frame::MAX_OFFSET;
use sqlite::{Alter, Transaction};
use std::alloc::Global;

/// Writes the rows of elements, each table in turn.
fn write_table_rows<S: Alter>(
    alloc: Global,
    transaction: &mut Transaction<'_, S>,
    elements: &[ElementRow<'_>],
    tags: &[TagRow<'_>],
    links: &[LinkRow<'_>],
) -> Result<(), StoreFault>
    ensures step { WorksInside S.Store transaction.old.conn result transaction.new.conn }
    ensures added { HasCleanDisk (state S.Store transaction.new.conn.now) → IsWriting Layout.Tables (state S.Store transaction.old.conn.now)
        → OnOk result (AddsElementsOf elements.now tags.now links.now (state S.Store transaction.old.conn.now) (state S.Store transaction.new.conn.now)) }
{
    add_rows(alloc, transaction, elements)?;
    add_rows(alloc, transaction, tags)?;
    add_rows(alloc, transaction, links)
}

/// The elements of a blob, each with its tags and its links: first all rows are made, then they are written.
pub(crate) fn add_table_rows<S: Alter>(
    alloc: Global,
    transaction: &mut Transaction<'_, S>,
    off: u64,
    elements: &[Element],
) -> Result<(), StoreFault>
    requires bounds { off ≤ MAX_OFFSET }
    ensures step { WorksInside S.Store transaction.old.conn result transaction.new.conn }
    ensures added { HasCleanDisk (state S.Store transaction.new.conn.now) → IsWriting Layout.Tables (state S.Store transaction.old.conn.now)
        → OnOk result (AddsElements Layout.Tables (state S.Store transaction.old.conn.now) (state S.Store transaction.new.conn.now) (placed off 0 elements.now)) }
    ensures can_store { OnOk result (AllByRecursion (CanStore Layout.Tables) elements.now) }
{
    elements_in_range(elements);
    let element_rows = element_rows(alloc, off, 0, elements)?;
    let tag_rows = tag_rows(alloc, off, 0, elements)?;
    let link_rows = link_rows(alloc, off, 0, elements)?;
    write_table_rows(alloc, transaction, &element_rows, &tag_rows, &link_rows)
}
