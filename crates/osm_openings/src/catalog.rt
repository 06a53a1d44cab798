//! The list of a database's trees, as its `sqlite_schema` tells of them: first those of a store, wherever their rows stand,
//! and then all others.

ghost use Rattle.std.specs.Prelude.{◌≡◌, ◌||◌, if◌then◌else◌, not, map, length, None, Some, IsTrue, IfOk, IfSome};
ghost use Rattle.std.specs.List.{list_any, list_all};
ghost use Rattle.sqlite_value.specs.declared.value.Value.TheVariants.{Text};
ghost use Rattle.sqlite_value.specs.Value.{owned};
ghost use Rattle.sqlite_trees.specs.Sound.{same_name as spec_same_name};
ghost use Rattle.sqlite_value.specs.Order.{column, bytes};
ghost use Rattle.sqlite_store.specs.Catalog.{is_present, describes, text_or_null, wanted_of};
ghost use Rattle.osm_tree_writes.specs.Added.{plain_index};
ghost use Rattle.osm_index_orders.specs.Orders.{index_order};
ghost use Rattle.osm_openings.specs.Catalog.{is_own, is_left_out, is_free, others, numbered, AreListed, StandApart, AreInOrder};
ghost use Rattle.osm_openings.specs.Presumed.{foreign_shape, foreign_tree, told_roots, tree_shape, trees_of};

use osm_index_orders::index_order;
use osm_tree_writes::plain_index;
use sqlite_trees::schema::Object;
use sqlite_trees::sound::{are_in_order, bytes_of, is_text_only, is_virtual, is_word, same_name};
use sqlite_trees::store::Shape;
use sqlite_value::keys::Order;
use sqlite_value::order::compare;
use sqlite_value::row::Row;
use sqlite_value::value::ValueRef;
use std::alloc::{AllocError, Global};
use std::str::from_utf8;

/// How many trees a list can have beside those of a store.
const MAX_TREES: usize = 65_536;

/// The rowid in the list of the first tree behind those of a store.
const FIRST_FOREIGN: i64 = 10;

/// Whether a tree is there.
fn is_present(shape: Shape) -> bool
    ensures { result ≡ is_present shape }
{
    !matches!(shape, Shape::Absent)
}

/// The text of an object, or none where a primary key makes it.
fn text_of<'a>(object: &Object<'a>) -> ValueRef<'a>
    ensures { owned result ≡ text_or_null object.now.sql }
{
    match object.sql {
        Some(text) => ValueRef::Text(text.as_bytes()),
        None => ValueRef::Null,
    }
}

/// Whether a row of `sqlite_schema` is that of an object: it has its type, name, table and text.
fn is_of(object: &Object<'_>, row: &Row) -> bool
    ensures { result ≡ describes (wanted_of object.now) row.now }
{
    let is_there = is_present(object.shape);
    let has_kind = is_word(object.kind.as_bytes(), row.get(1));
    let has_name = is_word(object.name.as_bytes(), row.get(2));
    let has_table = is_word(object.table.as_bytes(), row.get(3));
    let has_text = compare(row.get(5), text_of(object)).is_eq();
    is_there & has_kind & has_name & has_table & has_text
}

/// Whether it is that of one of these objects.
fn is_own(objects: &[Object<'_>], row: &Row) -> bool
    ensures { result ≡ is_own objects.now row.now }
{
    objects.iter().any(|object| is_of(object, row))
}

/// Whether an object has a row among these.
fn is_listed(object: &Object<'_>, rows: &[Row]) -> bool
    ensures { result ≡ list_any (λ row. describes (wanted_of object.now) row) rows.now }
{
    rows.iter().any(|row| is_of(object, row))
}

/// Whether each of these objects has one.
fn are_listed(objects: &[Object<'_>], rows: &[Row]) -> bool
    ensures { result ≡ list_all (λ o. list_any (λ row. describes (wanted_of o) row) rows.now) objects.now }
{
    objects.iter().all(|object| is_listed(object, rows))
}

/// Whether a row is that of a virtual table, which is a program and has no pages. No list of trees can have it.
pub(crate) fn is_left_out(row: &Row) -> bool
    ensures { result ≡ is_left_out row.now }
{
    is_virtual(row.get(1), row.get(5)) & !is_text_only(row.get(1))
}

/// The rows that are neither those of these objects nor of virtual tables.
pub(crate) fn others(
    alloc: Global,
    objects: &[Object<'_>],
    rows: &[Row],
) -> Result<Vec<Row>, AllocError>
    ensures { IfOk result (λ all. all.items ≡ others objects.now rows.now) }
{
    let mut all = Vec::new(alloc);
    for row in rows {
        if !(is_own(objects, row) | is_left_out(row)) {
            all.push(row.copy(alloc)?)?;
        }
    }
    Ok(all)
}

/// Whether one of these objects is about a table.
fn is_about(objects: &[Object<'_>], table: &[u8]) -> bool
    ensures { result ≡ list_any (λ o. spec_same_name table.now o.table.now) objects.now }
{
    objects
        .iter()
        .any(|object| same_name(table, object.table.as_bytes()))
}

/// Whether one of these rows is.
fn are_about(rows: &[Row], table: &[u8]) -> bool
    ensures { result ≡ list_any (λ other. spec_same_name table.now (bytes (column other 3))) rows.now }
{
    rows.iter()
        .any(|other| same_name(table, bytes_of(other.get(3))))
}

/// Whether none of these objects and rows is about a table.
#[tactic(auto, unfolding(crate::specs::Catalog::is_free))]
fn is_free(objects: &[Object<'_>], rows: &[Row], table: &[u8]) -> bool
    ensures { result ≡ is_free objects.now rows.now table.now }
{
    !(is_about(objects, table) | are_about(rows, table))
}

/// Whether that is so of the table of each row that is left out.
fn stand_apart(objects: &[Object<'_>], others: &[Row], rows: &[Row]) -> bool
    ensures { result ≡ list_all (λ row. not (is_left_out row) || is_free objects.now others.now (bytes (column row 3))) rows.now }
{
    rows.iter().all(|row| !is_left_out(row) | is_free(objects, others, bytes_of(row.get(3))))
}

/// Whether a list of trees can be made of these rows: each object has its row, no two names are the same, and what is left
/// out stands apart.
pub(crate) fn can_be_listed(objects: &[Object<'_>], others: &[Row], rows: &[Row]) -> bool
    ensures { IsTrue result → AreListed objects.now rows.now × StandApart objects.now others.now rows.now × AreInOrder rows.now }
{
    are_listed(objects, rows) && stand_apart(objects, others, rows) && are_in_order(rows, 1)
}

/// A row without its root page, as that of the first tree behind those of a store.
fn numbered(alloc: Global, row: &Row) -> Result<Row, AllocError>
    ensures { IfOk result (λ all. all ≡ numbered row.now) }
{
    let mut all = Row::new(alloc);
    all.push(ValueRef::Int(FIRST_FOREIGN))?;
    all.push(row.get(1))?;
    all.push(row.get(2))?;
    all.push(row.get(3))?;
    all.push(row.get(5))?;
    Ok(all)
}

/// The shape of a tree with this row, where an index has this order: an index is written if a put keeps it, and any other tree
/// is read as it is.
fn tree_shape(alloc: Global, row: &Row, root: Option<Order>) -> Result<Shape, AllocError>
    ensures { IfOk result (λ shape. shape ≡ tree_shape (plain_index row.now) root) }
{
    let Some(told) = root else {
        return Ok(Shape::FrozenTable);
    };
    match plain_index(alloc, row)? {
        Some(index) => Ok(Shape::Index(index.order)),
        None => Ok(Shape::FrozenIndex(told)),
    }
}

/// The shape of a tree that is none of a store's own: one of another program is read as it is and never written.
fn foreign_shape(alloc: Global, row: &Row, root: Option<Order>) -> Result<Shape, AllocError>
    ensures { IfOk result (λ shape. shape ≡ foreign_shape (numbered row.now) root) }
{
    if is_text_only(row.get(1)) {
        Ok(Shape::Pageless)
    } else {
        tree_shape(alloc, &numbered(alloc, row)?, root)
    }
}

/// The order of the tree of a row, if its root page begins an index, as these entries of `sqlite_schema` tell it.
fn root_order(
    alloc: Global,
    entries: &[Row],
    row: &Row,
    has_index_root: bool,
) -> Result<Option<Order>, AllocError>
    ensures { IfOk result (λ order. order ≡ (if has_index_root then Some (index_order entries.now row.now) else None)) }
{
    if has_index_root {
        Ok(Some(index_order(alloc, entries, row)?))
    } else {
        Ok(None)
    }
}

/// The orders of the trees of these rows. Of each of them it is said whether its root page begins an index.
pub(crate) fn root_orders(
    alloc: Global,
    entries: &[Row],
    rows: &[Row],
    roots: &[bool],
) -> Result<Vec<Option<Order>>, AllocError>
    requires { length roots.now ≡ length rows.now }
    ensures value { IfOk result (λ all. all.items ≡ told_roots entries.now rows.now roots.now) }
    ensures len { IfOk result (λ all. length all.items ≡ length rows.now) }
{
    let mut all = Vec::new(alloc);
    for at in 0..rows.len() {
        all.push(root_order(alloc, entries, &rows[at], roots[at])?)?;
    }
    Ok(all)
}

/// A text, if it is in UTF-8.
fn text_in(value: ValueRef<'_>) -> Option<&str>
    ensures { IfSome result (λ text. owned value.entry ≡ Text text.now) }
{
    match value {
        ValueRef::Text(bytes) => from_utf8(bytes).ok(),
        _ => None,
    }
}

/// The same, or that there is none.
fn text_or_none_in(value: ValueRef<'_>) -> Option<Option<&str>>
    ensures { IfSome result (λ sql. owned value.entry ≡ text_or_null sql) }
{
    match value {
        ValueRef::Null => Some(None),
        _ => match text_in(value) {
            Some(text) => Some(Some(text)),
            None => None,
        },
    }
}

/// The tree of a row that is none of a store's own, if its texts are in UTF-8.
fn foreign_tree<'a>(
    alloc: Global,
    row: &'a Row,
    root: Option<Order>,
) -> Result<Option<Object<'a>>, AllocError>
    ensures { IfOk result (λ found. IfSome found (λ object. wanted_of object ≡ foreign_tree row.now root)) }
{
    let shape = foreign_shape(alloc, row, root)?;
    let Some(kind) = text_in(row.get(1)) else {
        return Ok(None);
    };
    let Some(name) = text_in(row.get(2)) else {
        return Ok(None);
    };
    let Some(table) = text_in(row.get(3)) else {
        return Ok(None);
    };
    let Some(sql) = text_or_none_in(row.get(5)) else {
        return Ok(None);
    };
    Ok(Some(Object {
        shape,
        kind,
        name,
        table,
        reals: 0,
        sql,
    }))
}

/// An object, as long as it is borrowed.
fn own_tree<'a>(object: &'a Object<'_>) -> Object<'a>
    ensures { wanted_of result ≡ wanted_of object.now }
{
    Object {
        shape: object.shape,
        kind: object.kind,
        name: object.name,
        table: object.table,
        reals: object.reals,
        sql: match object.sql {
            Some(text) => Some(text),
            None => None,
        },
    }
}

/// These objects, as long as they are borrowed.
fn own_trees<'a>(alloc: Global, objects: &'a [Object<'_>]) -> Result<Vec<Object<'a>>, AllocError>
    ensures { IfOk result (λ all. map wanted_of all.items ≡ map wanted_of objects.now) }
{
    let mut all = Vec::new(alloc);
    for object in objects {
        all.push(own_tree(object))?;
    }
    Ok(all)
}

/// The whole list: these objects, and the trees of these rows behind them, if their texts are in UTF-8. Of each of the rows
/// it is said which order its tree has, if its root page begins an index.
pub(crate) fn trees_of<'a>(
    alloc: Global,
    objects: &'a [Object<'_>],
    rows: &'a [Row],
    roots: &[Option<Order>],
) -> Result<Option<Vec<Object<'a>>>, AllocError>
    requires { length roots.now ≡ length rows.now }
    ensures { IfOk result (λ found. IfSome found (λ all. map wanted_of all.items ≡ trees_of objects.now rows.now roots.now)) }
{
    if rows.len() > MAX_TREES {
        return Ok(None);
    }
    let mut all = own_trees(alloc, objects)?;
    for at in 0..rows.len() {
        let Some(object) = foreign_tree(alloc, &rows[at], roots[at])? else {
            return Ok(None);
        };
        all.push(object)?;
    }
    Ok(Some(all))
}
