//! Whether a database still has the tables of a store, each with its columns.

ghost use Rattle.std.specs.Prelude.{◌≡◌, ◌&&◌, is_some, IsTrue};
ghost use Rattle.std.specs.List.{list_all, list_any};
ghost use Rattle.sqlite_schema.specs.Names.{same_name, column_named};
ghost use Rattle.osm_rows.specs.Schema.Bodies.{meta, blob};
ghost use Rattle.osm_rows.specs.Schema.Tables.{element, tag, link};
ghost use Rattle.osm_rows.specs.Schema.Layouts.{schema_of};
ghost use Rattle.osm_sql_store.specs.Schema.Named.{HasTables, has_table, names_of};

use osm_rows::Layout;
use sqlite_schema::schema::{Schema, Table};

/// Whether a table has each of these columns.
fn has_columns(table: &Table, columns: &[&str]) -> bool
    ensures { result ≡ list_all (λ c. is_some (column_named table.now c.now)) columns.now }
{
    columns
        .iter()
        .all(|column| table.column_named(column.as_bytes()).is_some())
}

/// Whether a database has a table of this name with each of these columns.
pub fn has_table(schema: &Schema, name: &str, columns: &[&str]) -> bool
    ensures { result ≡ list_any (λ t. same_name t.name name.now && list_all (λ c. is_some (column_named t c.now)) columns.now) schema.now.tables }
{
    schema.tables.as_slice().iter().any(|table| table.is_named(name.as_bytes())
        && has_columns(table, columns))
}

/// Whether a database has the tables that both layouts have.
pub fn has_shared_tables(schema: &Schema) -> bool
    ensures { result ≡ (has_table schema.now meta.name (names_of meta) && has_table schema.now blob.name (names_of blob)) }
{
    has_table(schema, "meta", &["version"])
        && has_table(schema, "blob", &["off", "fin", "digest", "kind", "n"])
}

/// Whether a database has the tables of elements of the layout of tables.
fn has_element_tables(schema: &Schema) -> bool
    ensures { result ≡ (has_table schema.now element.name (names_of element) && has_table schema.now tag.name (names_of tag) && has_table schema.now link.name (names_of link)) }
{
    let columns = [
        "off",
        "pos",
        "kind",
        "id",
        "lat",
        "lon",
        "version",
        "time",
        "changeset",
        "uid",
        "user",
        "visible",
    ];
    has_table(schema, "element", &columns)
        && has_table(schema, "tag", &["off", "pos", "k", "key", "val"])
        && has_table(schema, "link", &["off", "pos", "k", "kind", "ref", "role"])
}

/// Whether a database has each table of the layout of tables, with each of its columns, under these names in any case, as
/// SQLite finds them.
pub(crate) fn has_tables(schema: &Schema) -> bool
    ensures has { IsTrue result → HasTables Layout.Tables schema.now }
    ensures own { schema.now ≡ schema_of Layout.Tables → IsTrue result }
{
    has_shared_tables(schema) && has_element_tables(schema)
}
