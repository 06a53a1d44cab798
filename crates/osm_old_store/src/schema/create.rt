//! The table of bodies and its index, made in a store that holds nothing.

ghost use Rattle.std.specs.Prelude.{◌∷◌, [], OnOk};
ghost use Rattle.sqlite.specs.State.{HasCleanDisk};
ghost use Rattle.sqlite.specs.Held.{state};
ghost use Rattle.osm_rows.specs.Schema.Bodies.{body, body_schema};
ghost use Rattle.osm_sql_store.specs.Inside.{GoesOn};
ghost use Rattle.osm_sql_store.specs.Schema.Making.{MakesElements, MakesOver};
ghost use Rattle.osm_sql_store.specs.Schema.Over.{IsOver};
ghost use Rattle.osm_sql_store.specs.Schema.Stages.{two_tables};
ghost use Rattle.osm_old_store.specs.Stages.{three_tables};

use crate::schema::sql::{CREATE_BODY, CREATE_BODY_INDEX};
use osm_rows::Layout;
use sqlite::{Alter, Error, Transaction};

fn make_body<S: Alter>(transaction: &mut Transaction<'_, S>) -> Result<(), Error>
    requires { HasCleanDisk (state S.Store transaction.old.conn.now) → IsOver two_tables (state S.Store transaction.old.conn.now) }
    ensures goes_on { GoesOn S.Store transaction.old.conn transaction.new.conn }
    ensures made { HasCleanDisk (state S.Store transaction.new.conn.now)
        → OnOk result (MakesOver two_tables three_tables (body ∷ []) (state S.Store transaction.old.conn.now) (state S.Store transaction.new.conn.now)) }
{
    transaction.execute(CREATE_BODY, &[])?;
    Ok(())
}

fn make_index<S: Alter>(transaction: &mut Transaction<'_, S>) -> Result<(), Error>
    requires { HasCleanDisk (state S.Store transaction.old.conn.now) → IsOver three_tables (state S.Store transaction.old.conn.now) }
    ensures goes_on { GoesOn S.Store transaction.old.conn transaction.new.conn }
    ensures made { HasCleanDisk (state S.Store transaction.new.conn.now)
        → OnOk result (MakesOver three_tables body_schema [] (state S.Store transaction.old.conn.now) (state S.Store transaction.new.conn.now)) }
{
    transaction.execute(CREATE_BODY_INDEX, &[])?;
    Ok(())
}

/// Makes the table of bodies and its index, over the tables that all layouts have.
pub(crate) fn make_body_layout<S: Alter>(transaction: &mut Transaction<'_, S>) -> Result<(), Error>
    requires { HasCleanDisk (state S.Store transaction.old.conn.now) → IsOver two_tables (state S.Store transaction.old.conn.now) }
    ensures goes_on { GoesOn S.Store transaction.old.conn transaction.new.conn }
    ensures made { HasCleanDisk (state S.Store transaction.new.conn.now) → OnOk result (MakesElements Layout.Bodies (state S.Store transaction.old.conn.now) (state S.Store transaction.new.conn.now)) }
{
    make_body(transaction)?;
    make_index(transaction)
}
