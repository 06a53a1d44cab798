//! How many rows the table of bodies has, asked by SQL.

ghost use Rattle.std.specs.Prelude.{◌≡◌, ◌↔◌, IsTrue, IfOk, IfErr};
ghost use Rattle.sqlite.specs.State.{HasCleanDisk};
ghost use Rattle.sqlite.specs.Held.{state};
ghost use Rattle.osm_rows.specs.Audit.{HasCount};
ghost use Rattle.osm_rows.specs.Keeping.{IsForeign};
ghost use Rattle.osm_rows.specs.Schema.Bodies.{body_schema};
ghost use Rattle.osm_sql_store.specs.Load.Asking.{JustAsks};
ghost use Rattle.osm_rows.specs.declared.trees.TheConstants.{ELEMENTS};

use crate::schema::sql::COUNT_BODIES;
use osm_rows::StoreFault;
use osm_sql_store::{answer, is_count};
use sqlite::{Alter, Connection};

/// Whether the table of bodies has so many rows, which are fewer than SQL counts at most.
pub(crate) fn has_body_count<S: Alter>(
    connection: &mut Connection<S>,
    expected: u64,
) -> Result<bool, StoreFault>
    ensures told { HasCleanDisk (state S.Store connection.new) → (state S.Store connection.old).now.schema ≡ body_schema
        → IfOk result (λ told. IsTrue told ↔ HasCount ((state S.Store connection.old).now.trees ELEMENTS) expected) }
    ensures opened { HasCleanDisk (state S.Store connection.new) → IfOk result (λ _. IsTrue (state S.Store connection.new).is_open) }
    ensures ours { IfErr result (λ fault. ¬ (IsForeign fault)) }
    ensures asks { JustAsks (state S.Store connection.old) (state S.Store connection.new) }
{
    let rows = answer(connection, COUNT_BODIES, &[])?;
    Ok(is_count(&rows, expected))
}
