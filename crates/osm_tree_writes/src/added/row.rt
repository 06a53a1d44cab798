//! Which rows of the list of objects tell of an added index.

ghost use Rattle.std.specs.Prelude.{◌≡◌};
ghost use Rattle.sqlite_value.specs.Order.{column};
ghost use Rattle.osm_tree_writes.specs.Added as spec;

use sqlite_trees::sound::{bytes_of, is_word, same_name};
use sqlite_value::order::compare;
use sqlite_value::row::Row;
use sqlite_value::value::ValueRef;

/// The rowid in `sqlite_schema` of the first tree behind those of a store, each of which has its number and one.
const FIRST_BEHIND: i64 = 10;

/// The greatest rowid of a tree: no tree has a number of more than 16 bits.
const LAST: i64 = 65_536;

/// Whether this is the name of a table of a store.
pub fn is_of_a_store(name: &[u8]) -> bool
    ensures { result ≡ spec.is_of_a_store name.now }
{
    same_name(name, b"meta")
        || same_name(name, b"blob")
        || same_name(name, b"element")
        || same_name(name, b"tag")
        || same_name(name, b"link")
}

/// Whether a row of the list of objects tells of an index added to a table of a store. The row begins with
/// its rowid, type, name, table and SQL text.
pub fn is_added_index(row: &Row) -> bool
    ensures { result ≡ spec.is_added_index row.now }
{
    is_word(b"index", row.get(1))
        && is_of_a_store(bytes_of(row.get(3)))
        && !compare(row.get(0), ValueRef::Int(FIRST_BEHIND)).is_lt()
}

/// Whether a row of the list of objects tells of a trigger on a table of a store: whoever writes to the table would have to run
/// it. The row begins with its rowid, type, name and table.
pub fn binds_a_store(row: &Row) -> bool
    ensures { result ≡ spec.binds_a_store row.now }
{
    is_word(b"trigger", row.get(1)) && is_of_a_store(bytes_of(row.get(3)))
}

/// Whether it tells of anything of the user's own on a table of a store.
pub(crate) fn is_on_a_store(row: &Row) -> bool
    ensures { result ≡ spec.is_on_a_store row.now }
{
    is_added_index(row) || binds_a_store(row)
}

/// The number of the tree that the row tells of.
pub(crate) fn tree_of(row: &Row) -> Option<u32>
    ensures { result ≡ spec.tree_of (column row.now 0) }
{
    match row.get(0) {
        ValueRef::Int(id) if 1 <= id && id <= LAST => Some((id - 1) as u32),
        _ => None,
    }
}
