//! The keys of a table and of its indexes, each with its collation and its direction.

ghost use Rattle.std.specs.Prelude.{◌≡◌, ◌==◌};
ghost use Rattle.std.specs.List.{list_any};
ghost use Rattle.osm_index_orders.specs.Orders as spec;
ghost use Rattle.sqlite_value.specs.Keys.{ascending};

use crate::text::{is_without_rowid, mentions};
use sqlite_items::Items;
use sqlite_schema::schema::Table;
use sqlite_value::keys::{Collation, Key, Order};

/// A key before those of an order, if an order can hold them.
fn before(key: Key, order: Option<Order>) -> Option<Order>
    ensures { result ≡ spec.before key order }
{
    match order {
        Some(order) => Order::from_parts(key, order),
        None => None,
    }
}

/// A key that ascends by a collation.
fn ascending(collation: Collation) -> Key
    ensures { result ≡ ascending collation }
{
    Key {
        collation,
        descending: false,
    }
}

/// Whether one of these columns, with the keys of this order, is at this place and has this collation.
fn has_column(columns: &[usize], order: Order, place: usize, by: Collation) -> bool
    ensures { result ≡ spec.has_column columns.now order place by }
{
    let [first, others @ ..] = columns else {
        return false;
    };
    let is_it = *first == place && order.first().collation.code() == by.code();
    is_it || has_column(others, order.later(), place, by)
}

/// The key of a column of the primary key, where it stands behind the columns of an index.
fn as_followed(is_automatic: bool, key: Key) -> Key
    ensures { result ≡ spec.as_followed is_automatic key }
{
    Key {
        collation: key.collation,
        descending: !is_automatic & key.descending,
    }
}

/// The keys of those columns of a primary key that aren't among these columns of an index.
fn lacking(
    is_automatic: bool,
    columns: &[usize],
    order: Order,
    primary: &[usize],
    keys: Order,
) -> Option<Order>
    ensures { result ≡ spec.lacking is_automatic columns.now order primary.now keys }
{
    let [place, others @ ..] = primary else {
        return Some(Order::PLAIN);
    };
    let key = keys.first();
    let rest = lacking(is_automatic, columns, order, others, keys.later());
    if has_column(columns, order, *place, key.collation) {
        rest
    } else {
        before(as_followed(is_automatic, key), rest)
    }
}

/// The keys of these columns, and then others.
fn followed(columns: &[usize], order: Order, others: Option<Order>) -> Option<Order>
    ensures { result ≡ spec.followed columns.now order others }
{
    let [_, more @ ..] = columns else {
        return others;
    };
    before(order.first(), followed(more, order.later(), others))
}

/// The order of the first of these keys that has these columns.
fn order_for(columns: &[usize], keys: &[Items<usize>], orders: &[Order]) -> Option<Order>
    ensures { result ≡ spec.order_for columns.now keys.now orders.now }
{
    let [key, other_keys @ ..] = keys else {
        return None;
    };
    let [order, other_orders @ ..] = orders else {
        return None;
    };
    if columns == key.as_slice() {
        Some(*order)
    } else {
        order_for(columns, other_keys, other_orders)
    }
}

/// The collation of a column.
fn collation_at(table: &Table, at: usize) -> Option<Collation>
    ensures { result ≡ spec.collation_at table.now at }
{
    match table.columns.as_slice().get(at) {
        Some(column) => Some(column.collation),
        None => None,
    }
}

/// Whether a place is one of these.
fn is_among(place: usize, places: &[usize]) -> bool
    ensures { result ≡ list_any (λ other. other == place) places.now }
{
    places.iter().any(|other| *other == place)
}

/// Whether a place is named twice.
fn has_repeated(places: &[usize]) -> bool
    ensures { result ≡ spec.has_repeated places.now }
{
    let [place, others @ ..] = places else {
        return false;
    };
    is_among(*place, others) || has_repeated(others)
}

/// The order of one column of the type `INTEGER` that is the primary key, if it ascends.
fn integer_order(text: &[u8], table: &Table, at: usize) -> Option<Order>
    ensures { result ≡ spec.integer_order text.now table.now at }
{
    if mentions(b"desc", text) {
        return None;
    }
    match collation_at(table, at) {
        Some(by) => Order::from_parts(ascending(by), Order::PLAIN),
        None => None,
    }
}

/// The order of a primary key of other columns.
fn columns_order(table: &Table) -> Option<Order>
    ensures { result ≡ spec.columns_order table.now }
{
    let primary = table.primary.as_slice();
    if has_repeated(primary) {
        return None;
    }
    order_for(primary, table.uniques.as_slice(), table.orders.as_slice())
}

/// The order of the primary key of a table `WITHOUT ROWID` that has this text, which is that of the table.
pub(crate) fn primary_order(text: &[u8], table: &Table) -> Option<Order>
    ensures { result ≡ spec.primary_order text.now table.now }
{
    match table.key {
        Some(at) => integer_order(text, table, at),
        None => columns_order(table),
    }
}

/// The order of all columns of an index that has these columns with the keys of this order. In a table `WITHOUT ROWID` the
/// columns of the primary key that it lacks come behind them, and else the rowid.
pub(crate) fn whole(
    is_automatic: bool,
    text: &[u8],
    table: &Table,
    columns: &[usize],
    order: Order,
) -> Option<Order>
    ensures { result ≡ spec.whole is_automatic text.now table.now (columns.now, order) }
{
    if !is_without_rowid(text) {
        return Some(order);
    }
    let primary = primary_order(text, table)?;
    let rest = lacking(
        is_automatic,
        columns,
        order,
        table.primary.as_slice(),
        primary,
    );
    followed(columns, order, rest)
}
