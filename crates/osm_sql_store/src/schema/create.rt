//! The tables of a store that holds nothing.

ghost use Rattle.std.specs.Prelude.{◌≡◌, false, IsTrue, OnOk, OnErr};
ghost use Rattle.sqlite.specs.State.{HasCleanDisk, Survives};
ghost use Rattle.sqlite.specs.Held.{state};
ghost use Rattle.osm_sql_store.specs.Inside.{GoesOn};
ghost use Rattle.osm_sql_store.specs.Schema.Stages.{no_schema, two_tables};
ghost use Rattle.osm_sql_store.specs.Schema.Versions.{version_text_of};
ghost use Rattle.osm_sql_store.specs.Schema.Making.{text_of, before, Makes, MakesElements, WritesVersion, IsEmptyStore, IsNewStore};
ghost use Rattle.osm_sql_store.specs.Schema.Over.{IsOver, IsWriting};

use crate::layout::SqlLayout;
use crate::schema::sql::{INSERT_BODY_VERSION, INSERT_TABLE_VERSION};
use osm_rows::{
    CREATE_BLOB, CREATE_ELEMENT, CREATE_ELEMENT_INDEX, CREATE_LINK, CREATE_META, CREATE_TAG, Layout,
};
use sqlite::{Alter, Connection, Error, Transaction};

/// A statement that makes a table or an index of a store.
#[derive(Clone, Copy)]
pub(crate) enum Making {
    Meta,
    Blob,
    Element,
    Tag,
    Link,
    ElementIndex,
}

impl Making {
    fn text(self) -> &'static str
        ensures { result.now ≡ text_of self }
    {
        match self {
            Making::Meta => CREATE_META,
            Making::Blob => CREATE_BLOB,
            Making::Element => CREATE_ELEMENT,
            Making::Tag => CREATE_TAG,
            Making::Link => CREATE_LINK,
            Making::ElementIndex => CREATE_ELEMENT_INDEX,
        }
    }
}

/// Runs one statement, over the tables that the ones before it made.
fn make<S: Alter>(transaction: &mut Transaction<'_, S>, what: Making) -> Result<(), Error>
    requires { HasCleanDisk (state S.Store transaction.old.conn.now) → IsOver (before what) (state S.Store transaction.old.conn.now) }
    ensures goes_on { GoesOn S.Store transaction.old.conn transaction.new.conn }
    ensures made { HasCleanDisk (state S.Store transaction.new.conn.now) → OnOk result (Makes what (state S.Store transaction.old.conn.now) (state S.Store transaction.new.conn.now)) }
{
    transaction.execute(what.text(), &[])?;
    Ok(())
}

/// Makes the tables of elements of the layout of tables, and their index.
pub(crate) fn make_table_layout<S: Alter>(transaction: &mut Transaction<'_, S>) -> Result<(), Error>
    requires { HasCleanDisk (state S.Store transaction.old.conn.now) → IsOver two_tables (state S.Store transaction.old.conn.now) }
    ensures goes_on { GoesOn S.Store transaction.old.conn transaction.new.conn }
    ensures made { HasCleanDisk (state S.Store transaction.new.conn.now) → OnOk result (MakesElements Layout.Tables (state S.Store transaction.old.conn.now) (state S.Store transaction.new.conn.now)) }
{
    make(transaction, Making::Element)?;
    make(transaction, Making::Tag)?;
    make(transaction, Making::Link)?;
    make(transaction, Making::ElementIndex)
}

/// The statement that writes the version of a layout.
fn version_text(layout: Layout) -> &'static str
    ensures { result.now ≡ version_text_of layout }
{
    match layout {
        Layout::Bodies => INSERT_BODY_VERSION,
        Layout::Tables => INSERT_TABLE_VERSION,
    }
}

fn write_version<L: SqlLayout, S: Alter>(transaction: &mut Transaction<'_, S>) -> Result<(), Error>
    requires { HasCleanDisk (state S.Store transaction.old.conn.now) → IsWriting L.LAYOUT (state S.Store transaction.old.conn.now) }
    ensures goes_on { GoesOn S.Store transaction.old.conn transaction.new.conn }
    ensures made { HasCleanDisk (state S.Store transaction.new.conn.now) → OnOk result (WritesVersion L.LAYOUT (state S.Store transaction.old.conn.now) (state S.Store transaction.new.conn.now)) }
{
    transaction.execute(version_text(L::LAYOUT), &[])?;
    Ok(())
}

fn make_tables<L: SqlLayout, S: Alter>(transaction: &mut Transaction<'_, S>) -> Result<(), Error>
    requires { HasCleanDisk (state S.Store transaction.old.conn.now) → IsOver no_schema (state S.Store transaction.old.conn.now) }
    ensures goes_on { GoesOn S.Store transaction.old.conn transaction.new.conn }
    ensures over { HasCleanDisk (state S.Store transaction.new.conn.now) → OnOk result (IsWriting L.LAYOUT (state S.Store transaction.new.conn.now)) }
    ensures made { HasCleanDisk (state S.Store transaction.new.conn.now) → OnOk result (IsEmptyStore L.LAYOUT (state S.Store transaction.new.conn.now).now.trees) }
{
    make(transaction, Making::Meta)?;
    make(transaction, Making::Blob)?;
    L::make_layout(transaction)?;
    write_version::<L, S>(transaction)
}

/// Makes the tables of a store that holds nothing, all in one transaction.
pub(crate) fn create_tables<L: SqlLayout, S: Alter>(
    connection: &mut Connection<S>,
) -> Result<(), Error>
    requires bare { HasCleanDisk (state S.Store connection.old) → (state S.Store connection.old).now.schema ≡ no_schema }
    requires autocommit { (state S.Store connection.old).in_transaction ≡ false }
    ensures made { HasCleanDisk (state S.Store connection.new) → OnOk result (IsNewStore L.LAYOUT (state S.Store connection.new)) }
    ensures autocommit { (state S.Store connection.new).in_transaction ≡ false }
    ensures unchanged { HasCleanDisk (state S.Store connection.new) → IsTrue (state S.Store connection.new).is_open
        → OnErr result (((state S.Store connection.new).now ≡ (state S.Store connection.old).now) × ((state S.Store connection.new).committed ≡ (state S.Store connection.old).committed)) }
    ensures crash { Survives (state S.Store connection.old) (state S.Store connection.new) (IsEmptyStore L.LAYOUT) }
{
    let _settled = connection.is_autocommit();
    let mut transaction = connection.transaction();
    make_tables::<L, S>(&mut transaction)?;
    transaction.commit()?;
    Ok(())
}
