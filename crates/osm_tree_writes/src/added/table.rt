//! The tables of a store to which rows are put, as their own statements define them.

ghost use Rattle.std.specs.Prelude.{◌≡◌, Ok, IfOk};
ghost use Rattle.sqlite_schema.specs.declared.schema.Table.{Table as Defined};
ghost use Rattle.sqlite_resolve.specs.Compile.{table_defined_by};
ghost use Rattle.osm_tree_writes.specs.Added.{table_named};

use osm_rows::{CREATE_ELEMENT, CREATE_LINK, CREATE_TAG};
use sqlite_resolve::define_table;
use sqlite_schema::schema::Table;
use sqlite_trees::sound::same_name;
use std::alloc::{AllocError, Global};

/// The table of this tree that a statement of the store makes.
fn defined(alloc: Global, text: &str, tree: u32) -> Result<Table, AllocError>
    ensures { IfOk result (λ table. (made : Defined) → table_defined_by text.now ≡ Ok made → table ≡ record made { tree = tree }) }
{
    // The store's own statements define tables, so only memory can be wanting.
    match define_table(alloc, text.as_bytes()) {
        Ok(mut table) => {
            table.tree = tree;
            Ok(table)
        }
        Err(_) => Err(AllocError),
    }
}

/// The table of elements, of tags or of links that has this name.
pub(crate) fn table_named(alloc: Global, name: &[u8]) -> Result<Option<Table>, AllocError>
    ensures { IfOk result (λ found. found ≡ table_named name.now) }
{
    if same_name(name, b"element") {
        Ok(Some(defined(alloc, CREATE_ELEMENT, 2)?))
    } else if same_name(name, b"tag") {
        Ok(Some(defined(alloc, CREATE_TAG, 4)?))
    } else if same_name(name, b"link") {
        Ok(Some(defined(alloc, CREATE_LINK, 6)?))
    } else {
        Ok(None)
    }
}
