//! Whether a database still has the tables of a store, each with its columns.

ghost use Rattle.std.specs.Prelude.{◌≡◌, IsTrue};
ghost use Rattle.osm_rows.specs.Schema.Layouts.{schema_of};
ghost use Rattle.osm_sql_store.specs.Schema.Named.{HasTables};

use osm_rows::Layout;
use osm_sql_store::{has_shared_tables, has_table};
use sqlite_schema::schema::Schema;

/// Whether a database has each table of the layout of bodies, with each of its columns, under these names in any case, as
/// SQLite finds them.
pub(crate) fn has_body_tables(schema: &Schema) -> bool
    ensures has { IsTrue result → HasTables Layout.Bodies schema.now }
    ensures own { schema.now ≡ schema_of Layout.Bodies → IsTrue result }
{
    has_shared_tables(schema) && has_table(schema, "body", &["off", "pos", "kind", "id", "data"])
}
