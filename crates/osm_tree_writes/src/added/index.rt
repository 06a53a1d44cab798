//! The indexes that a put keeps: those whose text defines them by columns of a table of elements, of tags or of links.

ghost use Rattle.std.specs.Prelude.{◌≡◌, true, false, IfOk, MatchOption};
ghost use Rattle.std.specs.List.{list_any};
ghost use Rattle.sqlite_resolve.specs.Compile.{index_defined_by};
ghost use Rattle.osm_tree_writes.specs.Added as spec;

use crate::added::row::{is_added_index, is_on_a_store, tree_of};
use crate::added::table::table_named;
use sqlite_resolve::{CompileError, define_index};
use sqlite_schema::schema::{Index, Table};
use sqlite_trees::sound::bytes_of;
use sqlite_value::row::Row;
use sqlite_value::value::ValueRef;
use std::alloc::{AllocError, Global};

/// The index of this tree that a text makes of a table, unless it is UNIQUE. A text that names an expression or a condition
/// makes none that is known.
fn defined(
    alloc: Global,
    tree: u32,
    table: &Table,
    text: &[u8],
) -> Result<Option<Index>, AllocError>
    ensures { IfOk result (λ found. found ≡ spec.if_plain tree (index_defined_by table.now text.now)) }
{
    match define_index(alloc, table, text) {
        Ok(mut index) => {
            if index.is_unique {
                return Ok(None);
            }
            index.tree = tree;
            Ok(Some(index))
        }
        Err(CompileError::OutOfMemory) => Err(AllocError),
        Err(_) => Ok(None),
    }
}

/// The index of which a row tells, whatever else it is.
fn told_index(alloc: Global, row: &Row) -> Result<Option<Index>, AllocError>
    ensures { IfOk result (λ found. found ≡ spec.told_index row.now) }
{
    let Some(tree) = tree_of(row) else {
        return Ok(None);
    };
    let ValueRef::Text(text) = row.get(4) else {
        return Ok(None);
    };
    let Some(table) = table_named(alloc, bytes_of(row.get(3)))? else {
        return Ok(None);
    };
    defined(alloc, tree, &table, text)
}

/// The index added to a table of elements, of tags or of links, if a row of the list of objects tells of one
/// that a put can keep: one of columns, in any order and by any collation, and neither `UNIQUE`, nor over an expression, nor
/// of some rows alone. The row begins with its rowid, type, name, table and SQL text.
pub fn plain_index(alloc: Global, row: &Row) -> Result<Option<Index>, AllocError>
    ensures { IfOk result (λ found. found ≡ spec.plain_index row.now) }
{
    if is_added_index(row) {
        told_index(alloc, row)
    } else {
        Ok(None)
    }
}

/// The indexes added to the tables of a store, in the order of these rows of the list of objects; none
/// where one of them can't be kept by a put, or where a trigger is on one of the tables.
pub fn plain_indexes(alloc: Global, rows: &[Row]) -> Result<Option<Vec<Index>>, AllocError>
    ensures { IfOk result (λ found. MatchOption found (list_any spec.is_refused rows.now ≡ true) (λ indexes. (list_any spec.is_refused rows.now ≡ false) × (indexes.items ≡ spec.plain_indexes rows.now))) }
{
    let mut indexes = Vec::new(alloc);
    for row in rows {
        match plain_index(alloc, row)? {
            Some(index) => indexes.push(index)?,
            None => {
                if is_on_a_store(row) {
                    return Ok(None);
                }
            }
        }
    }
    Ok(Some(indexes))
}
