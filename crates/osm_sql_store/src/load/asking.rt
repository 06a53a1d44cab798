//! One query on the tables of a store.

ghost use Rattle.std.specs.Prelude.{◌≡◌, ◌<◌, ◌^◌, true, pos, IfOk, IfErr};
ghost use Rattle.sqlite.specs.declared.types.Value.TheVariants.{Int};
ghost use Rattle.sqlite.specs.Value.{owned};
ghost use Rattle.sqlite.specs.Values.{bound};
ghost use Rattle.sqlite.specs.State.{HasCleanDisk, FailsToQuery};
ghost use Rattle.sqlite.specs.Held.{state};
ghost use Rattle.osm_sql_store.specs.Load.Asking.{JustAsks, IsAnswered};
ghost use Rattle.osm_rows.specs.Keeping.{IsForeign};
ghost use Rattle.osm_sql_store.specs.Load.Selects.{selects};

use osm_rows::StoreFault;
use sqlite::types::ValueRef;
use sqlite::{Alter, Connection, Error, Row};

/// The whole answer of a query, or why `sqlite` gave none.
pub(crate) fn ask<S: Alter>(
    connection: &mut Connection<S>,
    sql: &str,
    params: &[ValueRef<'_>],
) -> Result<Vec<Row>, Error>
    requires { selects sql.now ≡ true }
    ensures rows { HasCleanDisk (state S.Store connection.new) → IfOk result (λ rows. IsAnswered sql.now (bound params.now) (state S.Store connection.old) (state S.Store connection.new) rows.items) }
    ensures cause { HasCleanDisk (state S.Store connection.new) → IfErr result (FailsToQuery sql.now (bound params.now) (state S.Store connection.old) (state S.Store connection.new)) }
    ensures asks { JustAsks (state S.Store connection.old) (state S.Store connection.new) }
{
    match connection.query_all(sql, params) {
        Ok(rows) => Ok(rows),
        Err(error) => Err(error),
    }
}

/// The whole answer of a query on a store's own tables.
pub fn answer<S: Alter>(
    connection: &mut Connection<S>,
    sql: &str,
    params: &[ValueRef<'_>],
) -> Result<Vec<Row>, StoreFault>
    requires { selects sql.now ≡ true }
    ensures rows { HasCleanDisk (state S.Store connection.new) → IfOk result (λ rows. IsAnswered sql.now (bound params.now) (state S.Store connection.old) (state S.Store connection.new) rows.items) }
    ensures ours { IfErr result (λ fault. ¬ (IsForeign fault)) }
    ensures asks { JustAsks (state S.Store connection.old) (state S.Store connection.new) }
{
    match ask(connection, sql, params) {
        Ok(rows) => Ok(rows),
        Err(error) => Err(StoreFault::from(error)),
    }
}

/// A number as a parameter.
pub fn number(n: u64) -> ValueRef<'static>
    requires { n < 2 ^ 63 }
    ensures { owned result ≡ Int (pos n) }
{
    ValueRef::Int(n as i64)
}

/// A signed number as a parameter.
pub fn integer(n: i64) -> ValueRef<'static>
    ensures { owned result ≡ Int n }
{
    ValueRef::Int(n)
}
