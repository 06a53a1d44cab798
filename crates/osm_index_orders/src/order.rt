//! The order that the rows of `sqlite_schema` tell.

ghost use Rattle.std.specs.Prelude.{◌≡◌, ◌+◌, ◌<◌, ◌^◌, ◌++◌, ◌==◌, Some, codes, length, find, IfOk};
ghost use Rattle.std.specs.Option.{option_copied};
ghost use Rattle.std.specs.Fmt.{decimal};
ghost use Rattle.sqlite_value.specs.Value.{owned};
ghost use Rattle.sqlite_value.specs.Order.{class, column};
ghost use Rattle.sqlite_resolve.specs.Compile.{table_defined_by, index_defined_by};
ghost use Rattle.osm_index_orders.specs.Orders as spec;

use crate::keys::{primary_order, whole};
use crate::text::{ends_in, to_closing, without_options};
use sqlite_items::Items;
use sqlite_resolve::{CompileError, define_index, define_table};
use sqlite_schema::schema::{Index, Table};
use sqlite_trees::sound::{bytes_of, is_word, same_name};
use sqlite_value::keys::Order;
use sqlite_value::row::Row;
use sqlite_value::value::ValueRef;
use std::alloc::{AllocError, Global};

/// The table that a text makes, whatever its options.
fn defined_table(alloc: Global, text: &[u8]) -> Result<Option<Table>, AllocError>
    ensures { IfOk result (λ found. found ≡ spec.if_defined (table_defined_by (spec.without_options text.now))) }
{
    match define_table(alloc, without_options(text)) {
        Ok(table) => Ok(Some(table)),
        Err(CompileError::OutOfMemory) => Err(AllocError),
        Err(_) => Ok(None),
    }
}

/// The index of a table that a text makes, of whichever rows.
fn defined_index(alloc: Global, table: &Table, text: &[u8]) -> Result<Option<Index>, AllocError>
    ensures { IfOk result (λ found. found ≡ spec.if_defined (index_defined_by table.now (spec.to_closing text.now))) }
{
    match define_index(alloc, table, to_closing(text)) {
        Ok(index) => Ok(Some(index)),
        Err(CompileError::OutOfMemory) => Err(AllocError),
        Err(_) => Ok(None),
    }
}

/// Whether a name ends in this number.
fn is_numbered(alloc: Global, name: &[u8], number: usize) -> Result<bool, AllocError>
    ensures { IfOk result (λ ends. ends ≡ spec.ends_in (codes "_" ++ decimal number) name.now) }
{
    let ending = format!(in alloc; "_{number}")?;
    Ok(ends_in(ending.as_bytes(), name))
}

/// The columns and the order of the automatic index with this name, where these are the columns and the orders of those of its
/// table from this number on.
fn automatic_from(
    alloc: Global,
    number: usize,
    name: &[u8],
    keys: &[Items<usize>],
    orders: &[Order],
) -> Result<Option<(Items<usize>, Order)>, AllocError>
    requires { number + length keys.now < 2 ^ 63 }
    ensures { IfOk result (λ found. found ≡ spec.automatic_from number name.now keys.now orders.now) }
{
    let [key, other_keys @ ..] = keys else {
        return Ok(None);
    };
    let [order, other_orders @ ..] = orders else {
        return Ok(None);
    };
    if is_numbered(alloc, name, number)? {
        Ok(Some((Items::from_slice(alloc, key.as_slice())?, *order)))
    } else {
        automatic_from(alloc, number + 1, name, other_keys, other_orders)
    }
}

/// The columns and the order of the automatic index with this name.
fn automatic(
    alloc: Global,
    table: &Table,
    name: &[u8],
) -> Result<Option<(Items<usize>, Order)>, AllocError>
    ensures { IfOk result (λ found. found ≡ spec.automatic_from 1 name.now table.now.uniques table.now.orders) }
{
    automatic_from(
        alloc,
        1,
        name,
        table.uniques.as_slice(),
        table.orders.as_slice(),
    )
}

/// The columns and the order of the index that has this name and text.
fn told_keys(
    alloc: Global,
    table: &Table,
    name: ValueRef<'_>,
    sql: ValueRef<'_>,
) -> Result<Option<(Items<usize>, Order)>, AllocError>
    ensures { IfOk result (λ found. found ≡ spec.told_keys table.now (owned name.entry) (owned sql.entry)) }
{
    match sql {
        ValueRef::Null => automatic(alloc, table, bytes_of(name)),
        ValueRef::Text(text) => match defined_index(alloc, table, text)? {
            Some(index) => Ok(Some((index.columns, index.order))),
            None => Ok(None),
        },
        _ => Ok(None),
    }
}

/// Whether a row tells of the table with this name.
fn is_table_named(name: &[u8], row: &Row) -> bool
    ensures { result ≡ spec.is_table_named name.now row.now }
{
    is_word(b"table", row.get(1)) & same_name(bytes_of(row.get(2)), name)
}

/// The row of the table with this name.
fn row_of_table<'a>(rows: &'a [Row], name: &[u8]) -> Option<&'a Row>
    ensures { option_copied result ≡ find (spec.is_table_named name.now) rows.now }
{
    for row in rows {
        if is_table_named(name, row) {
            return Some(row);
        }
    }
    None
}

/// Whether a row has no text: it tells of an index that a primary key or a `UNIQUE` makes.
fn is_automatic(row: &Row) -> bool
    ensures { result ≡ (class (column row.now 5) == 0) }
{
    matches!(row.get(5), ValueRef::Null)
}

/// The order of the tree of a row, in this table, which has this text.
fn order_by(
    alloc: Global,
    text: &[u8],
    table: &Table,
    row: &Row,
) -> Result<Option<Order>, AllocError>
    ensures { IfOk result (λ order. order ≡ spec.order_by text.now table.now row.now) }
{
    if is_word(b"table", row.get(1)) {
        return Ok(primary_order(text, table));
    }
    let is_automatic = is_automatic(row);
    match told_keys(alloc, table, row.get(2), row.get(5))? {
        Some((columns, order)) => Ok(whole(is_automatic, text, table, columns.as_slice(), order)),
        None => Ok(None),
    }
}

/// The order of the tree of a row, where its table has this text.
fn order_in(alloc: Global, sql: ValueRef<'_>, row: &Row) -> Result<Option<Order>, AllocError>
    ensures { IfOk result (λ order. order ≡ spec.order_in (Some (owned sql.entry)) row.now) }
{
    let ValueRef::Text(text) = sql else {
        return Ok(None);
    };
    match defined_table(alloc, text)? {
        Some(table) => order_by(alloc, text, &table, row),
        None => Ok(None),
    }
}

/// The order of the index, or of the table `WITHOUT ROWID`, of which a row tells, as these rows of `sqlite_schema` say. It
/// isn't known where the library doesn't read the text of the table or of the index: where a column is an expression or is
/// computed, and where a collation is none of those that SQLite has built in.
///
/// Fails if memory is refused.
pub fn told_order(alloc: Global, rows: &[Row], row: &Row) -> Result<Option<Order>, AllocError>
    ensures { IfOk result (λ order. order ≡ spec.told_order rows.now row.now) }
{
    match row_of_table(rows, bytes_of(row.get(3))) {
        Some(found) => order_in(alloc, found.get(5), row),
        None => Ok(None),
    }
}

/// The same, or the order of plain bytes where none is known.
///
/// Fails if memory is refused.
pub fn index_order(alloc: Global, rows: &[Row], row: &Row) -> Result<Order, AllocError>
    ensures { IfOk result (λ order. order ≡ spec.index_order rows.now row.now) }
{
    match told_order(alloc, rows, row)? {
        Some(order) => Ok(order),
        None => Ok(Order::PLAIN),
    }
}

/// Of these rows the first whose root page begins an index and whose order isn't known. Of each of them it is said whether its
/// root page does. The texts of tables are looked for among the entries.
///
/// Fails if memory is refused.
pub fn first_untold<'a>(
    alloc: Global,
    entries: &[Row],
    rows: &'a [Row],
    roots: &[bool],
) -> Result<Option<&'a Row>, AllocError>
    ensures { IfOk result (λ found. option_copied found ≡ spec.first_untold entries.now rows.now roots.now) }
{
    let [row, other_rows @ ..] = rows else {
        return Ok(None);
    };
    let [has_index_root, other_roots @ ..] = roots else {
        return Ok(None);
    };
    let told = told_order(alloc, entries, row)?;
    if *has_index_root & told.is_none() {
        Ok(Some(row))
    } else {
        first_untold(alloc, entries, other_rows, other_roots)
    }
}
