//! The trees of a store that keeps elements in tables.

ghost use Rattle.std.specs.Prelude.{◌≡◌, ℕ, IsTrue, IfOk, IfSome};
ghost use Rattle.sqlite_trees.specs.Objects.{catalog_tree, object_row, text_or_null};
ghost use Rattle.sqlite_trees.specs.View.{IsClean, IsQuiet};
ghost use Rattle.sqlite_store.specs.FileStore.{view, is_shielded};
ghost use Rattle.sqlite_wal.specs.Files.{seen_image};
ghost use Rattle.osm_rows.specs.declared.schema.layout.Layout.{Layout};
ghost use Rattle.osm_rows.specs.Rows.{version_row};
ghost use Rattle.osm_openings.specs.Asked.{ListsAsAsked};
ghost use Rattle.osm_openings.specs.Catalog.{listings};
ghost use Rattle.osm_openings.specs.Opened.{IsOfThisVersion, IsOpened};
ghost use Rattle.osm_openings.specs.Presumed.{ArePresumedTables};
ghost use Rattle.osm_tree_writes.specs.Tables.{table_listing, index_listing, table_listings};

use crate::opening::{open_checked, open_listed};
use crate::version::has_only;
use osm_rows::trees::META;
use osm_rows::{
    CREATE_BLOB, CREATE_ELEMENT, CREATE_ELEMENT_INDEX, CREATE_LINK, CREATE_META, CREATE_TAG,
    TABLE_VERSION,
};
use sqlite_disk::{Disk, Files};
use sqlite_pager::Options;
use sqlite_store::FileStore;
use sqlite_trees::schema::Object;
use sqlite_trees::store::{Shape, Store};
use sqlite_value::keys::Order;
use sqlite_value::row::Row;
use sqlite_value::value::ValueRef;
use std::alloc::{AllocError, Global};

/// A table, as a statement makes it.
fn table(name: &'static str, sql: &'static str) -> Object<'static>
    ensures { (tree : ℕ) → object_row tree result ≡ table_listing tree name.now sql.now }
{
    Object {
        shape: Shape::Table,
        kind: "table",
        name,
        table: name,
        reals: 0,
        sql: Some(sql),
    }
}

/// An index, as a statement makes it, or a primary key.
fn index(name: &'static str, table: &'static str, sql: Option<&'static str>) -> Object<'static>
    ensures { (tree : ℕ) → object_row tree result ≡ index_listing tree name.now table.now (text_or_null sql.entry) }
{
    Object {
        shape: Shape::Index(Order::PLAIN),
        kind: "index",
        name,
        table,
        reals: 0,
        sql,
    }
}

/// The trees of a store, in the order of their numbers.
fn trees() -> [Object<'static>; 9]
    ensures { listings 0 result ≡ table_listings }
{
    [
        table("meta", CREATE_META),
        table("blob", CREATE_BLOB),
        table("element", CREATE_ELEMENT),
        index("sqlite_autoindex_element_1", "element", None),
        table("tag", CREATE_TAG),
        index("sqlite_autoindex_tag_1", "tag", None),
        table("link", CREATE_LINK),
        index("sqlite_autoindex_link_1", "link", None),
        index("element_by_id", "element", Some(CREATE_ELEMENT_INDEX)),
    ]
}

/// The row of the table that names the version.
fn version_row(alloc: Global) -> Result<Row, AllocError>
    ensures { IfOk result (λ row. row ≡ version_row Layout.Tables) }
{
    let mut row = Row::new(alloc);
    row.push(ValueRef::Int(TABLE_VERSION))?;
    row.push(ValueRef::Null)?;
    Ok(row)
}

/// The store, if the table that names the version names this one alone; it is dropped if not.
fn of_version<S: Store + Drop>(alloc: Global, mut store: S) -> Result<Option<S>, AllocError>
    ensures { IfOk result (λ found. IfSome found (λ kept. IsQuiet S.Store.view S.Store.faults S.Store.recovers S.Store.is_shielded store kept
        × (IsClean (S.Store.view kept) → IsOfThisVersion (S.Store.view store) (S.Store.view kept)))) }
{
    let row = version_row(alloc)?;
    if has_only(alloc, &mut store, META, &row)? {
        Ok(Some(store))
    } else {
        Ok(None)
    }
}

/// The trees of the files, if they are a database of a store that keeps elements in tables, of this version. No tree is
/// read but the list of all and the version's one row, whatever the size of the database. If the files are anything else, or
/// can't be read, they are closed.
///
/// That the other pages are sound is presumed. Where they aren't, the read that comes to such a page answers a fault, or
/// takes the page for what it seems; `open_checked_tables` looks at all of them.
///
/// Whatever else the database has, and wherever `sqlite_schema` lists it, stands behind the store's own trees, but for virtual
/// tables, which have no tree.
pub fn open_tables<D: Disk + Drop>(
    alloc: Global,
    files: Files<D>,
    options: Options,
) -> Result<Option<FileStore<D>>, AllocError>
    requires log { IsTrue (D.Disk.is_usable files.log) }
    requires db { IsTrue (D.Disk.is_usable files.db) }
    requires presumed { ArePresumedTables (seen_image D.Disk files.log files.db) }
    ensures opened { IfOk result (λ found. IfSome found (λ store. IsClean (view store) → IsOpened (seen_image D.Disk files.log files.db) (view store))) }
    // whatever else the database has is listed as its row in `sqlite_schema` asks
    ensures asked { IfOk result (λ found. IfSome found (λ store. IsTrue (view store).is_clean → ListsAsAsked ((view store).trees catalog_tree))) }
{
    let Some(store) = open_listed(alloc, files, options, &trees())? else {
        return Ok(None);
    };
    of_version(alloc, store)
}

/// The same, with a look at each page and each tree, so that nothing is presumed: files that aren't a sound database are
/// closed. It takes as long as reading the whole database.
pub fn open_checked_tables<D: Disk + Drop>(
    alloc: Global,
    files: Files<D>,
    options: Options,
) -> Result<Option<FileStore<D>>, AllocError>
    requires log { IsTrue (D.Disk.is_usable files.log) }
    requires db { IsTrue (D.Disk.is_usable files.db) }
    ensures opened { IfOk result (λ found. IfSome found (λ store. IsClean (view store) → IsOpened (seen_image D.Disk files.log files.db) (view store))) }
    ensures shielded { IfOk result (λ found. IfSome found (λ store. IsTrue (view store).is_clean → is_shielded store)) }
    // whatever else the database has is listed as its row in `sqlite_schema` asks
    ensures asked { IfOk result (λ found. IfSome found (λ store. IsTrue (view store).is_clean → ListsAsAsked ((view store).trees catalog_tree))) }
{
    let Some(store) = open_checked(alloc, files, options, &trees())? else {
        return Ok(None);
    };
    of_version(alloc, store)
}
