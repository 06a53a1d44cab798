//! The rows of a blob, written in one transaction.

ghost use Rattle.std.specs.Prelude.{◌≡◌, ◌<◌, ◌≤◌, ◌^◌, false, IsTrue, OnOk, OnErr, IfErr};
ghost use Rattle.std.specs.List.{AllByRecursion};
ghost use Rattle.sqlite.specs.State.{HasCleanDisk, Survives};
ghost use Rattle.sqlite.specs.Held.{state};
ghost use Rattle.osm_sql_store.specs.Inside.{WorksInside};
ghost use Rattle.osm_rows.specs.Keeping.{IsForeign};
ghost use Rattle.osm_rows.specs.Rows.{placed, extent_row, CanStore};
ghost use Rattle.osm_sql_store.specs.Schema.Over.{IsWriting};
ghost use Rattle.osm_sql_store.specs.Put.Steps.{AddsExtent, WritesInTransaction, CommitsBlob, KeepsAll, MayPut};

use crate::layout::SqlLayout;
use crate::put::statement::execute;
use crate::schema::sql::INSERT_BLOB;
use osm_rows::{Extent, Layout, StoreFault, blob_code};
use osm_value::Element;
use pbf_frame::MAX_OFFSET;
use sqlite::{Alter, Connection, Transaction, params};
use std::alloc::Global;

fn add_extent<S: Alter>(
    transaction: &mut Transaction<'_, S>,
    extent: &Extent,
) -> Result<(), StoreFault>
    requires inside { IsTrue (state S.Store transaction.old.conn.now).in_transaction }
    requires bounds { (extent.now.off ≤ MAX_OFFSET) × (extent.now.fin ≤ MAX_OFFSET) × (extent.now.n < 2 ^ 63) }
    ensures step { WorksInside S.Store transaction.old.conn result transaction.new.conn }
    ensures added { HasCleanDisk (state S.Store transaction.new.conn.now) → (layout : Layout) → IsWriting layout (state S.Store transaction.old.conn.now)
        → OnOk result (AddsExtent layout (state S.Store transaction.old.conn.now) (state S.Store transaction.new.conn.now) (extent_row extent.now)) }
    ensures opened { HasCleanDisk (state S.Store transaction.new.conn.now) → OnOk result (IsTrue (state S.Store transaction.old.conn.now).is_open) }
{
    let kind = blob_code(extent.kind);
    execute(
        transaction,
        INSERT_BLOB,
        params![
            extent.off as i64,
            extent.fin as i64,
            extent.digest.as_slice(),
            kind,
            extent.n as i64,
        ],
    )
}

fn write_rows<L: SqlLayout, S: Alter>(
    alloc: Global,
    transaction: &mut Transaction<'_, S>,
    extent: &Extent,
    elements: &[Element],
) -> Result<(), StoreFault>
    requires inside { IsTrue (state S.Store transaction.old.conn.now).in_transaction }
    requires bounds { (extent.now.off ≤ MAX_OFFSET) × (extent.now.fin ≤ MAX_OFFSET) × (extent.now.n < 2 ^ 63) }
    ensures step { WorksInside S.Store transaction.old.conn result transaction.new.conn }
    ensures written { HasCleanDisk (state S.Store transaction.new.conn.now)
        → OnOk result (WritesInTransaction L.LAYOUT (state S.Store transaction.old.conn.now) (state S.Store transaction.new.conn.now) extent.now (placed extent.now.off 0 elements.now)) }
    ensures can_store { OnOk result (AllByRecursion (CanStore L.LAYOUT) elements.now) }
{
    add_extent(transaction, extent)?;
    L::write_elements(alloc, transaction, extent.off, elements)
}

/// One transaction adds the blob and its elements, or nothing.
pub(crate) fn put_rows<L: SqlLayout, S: Alter>(
    alloc: Global,
    connection: &mut Connection<S>,
    extent: &Extent,
    elements: &[Element],
) -> Result<(), StoreFault>
    requires autocommit { (state S.Store connection.old).in_transaction ≡ false }
    requires bounds { (extent.now.off ≤ MAX_OFFSET) × (extent.now.fin ≤ MAX_OFFSET) × (extent.now.n < 2 ^ 63) }
    ensures committed { HasCleanDisk (state S.Store connection.new)
        → OnOk result (CommitsBlob L.LAYOUT (state S.Store connection.old) (state S.Store connection.new) extent.now (placed extent.now.off 0 elements.now)) }
    ensures can_store { OnOk result (AllByRecursion (CanStore L.LAYOUT) elements.now) }
    ensures autocommit { (state S.Store connection.new).in_transaction ≡ false }
    ensures unchanged { HasCleanDisk (state S.Store connection.new) → IsTrue (state S.Store connection.new).is_open → OnErr result (KeepsAll (state S.Store connection.old) (state S.Store connection.new)) }
    ensures ours { IfErr result (λ fault. ¬ (IsForeign fault)) }
    ensures crash { Survives (state S.Store connection.old) (state S.Store connection.new) (MayPut L.LAYOUT (state S.Store connection.old) extent.now elements.now) }
{
    let _settled = connection.is_autocommit();
    let mut transaction = connection.transaction();
    write_rows::<L, S>(alloc, &mut transaction, extent, elements)?;
    transaction.commit()?;
    Ok(())
}
