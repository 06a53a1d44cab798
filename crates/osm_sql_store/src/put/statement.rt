//! One statement of a put.

ghost use Rattle.std.specs.Prelude.{ℕ, Ok, IsTrue, OnOk};
ghost use Rattle.sqlite.specs.Values.{bound};
ghost use Rattle.sqlite.specs.State.{HasCleanDisk, ExecutesInside};
ghost use Rattle.sqlite.specs.Held.{state};
ghost use Rattle.osm_sql_store.specs.Inside.{WorksInside};

use osm_rows::StoreFault;
use sqlite::types::ValueRef;
use sqlite::{Alter, Transaction};

/// Runs a statement, given these values.
pub fn execute<S: Alter>(
    transaction: &mut Transaction<'_, S>,
    statement: &str,
    values: &[ValueRef<'_>],
) -> Result<(), StoreFault>
    ensures step { WorksInside S.Store transaction.old.conn result transaction.new.conn }
    ensures ran { HasCleanDisk (state S.Store transaction.new.conn.now) → IsTrue (state S.Store transaction.old.conn.now).in_transaction
        → OnOk result ((changed : ℕ) × ExecutesInside 0 statement.now (bound values.now) (state S.Store transaction.old.conn.now) (state S.Store transaction.new.conn.now) (Ok changed)) }
{
    transaction.execute(statement, values)?;
    Ok(())
}
