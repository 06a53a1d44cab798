//! Entries of indexes and rows, changed by a store's trees as no statement could.

use osm_rows::trees::ELEMENTS;
use sqlite_trees::store::{Direction, Shape, Store};
use sqlite_value::keys::Order;
use sqlite_value::row::Row;
use sqlite_value::value::ValueRef;
use std::alloc::Global;

/// Takes the first entry from an index, and leaves its row.
pub fn take_entry<S: Store>(alloc: Global, trees: &mut S, index: u32) -> Option<()> {
    let mut entry = Row::new(alloc);
    trees.seek(0, index, &entry, Direction::Forward).ok()?;
    if !trees.next(0, &mut entry).ok()? || trees.shape(index) != Shape::Index(Order::PLAIN) {
        return None;
    }
    trees.remove(index, &entry).ok()?;
    trees.commit().ok()
}

/// Adds an entry of no row to an index.
pub fn add_entry<S: Store>(alloc: Global, trees: &mut S, index: u32) -> Option<()> {
    let mut entry = Row::new(alloc);
    for number in [1000, 0, 0, 99] {
        entry.push(ValueRef::Int(number)).ok()?;
    }
    if trees.shape(index) != Shape::Index(Order::PLAIN) {
        return None;
    }
    trees.insert(index, &entry).ok()?;
    trees.commit().ok()
}

/// The first row of the table of elements.
fn first_element<S: Store>(alloc: Global, trees: &mut S) -> Option<Row> {
    let start = Row::new(alloc);
    trees.seek(0, ELEMENTS, &start, Direction::Forward).ok()?;
    let mut row = Row::new(alloc);
    if trees.next(0, &mut row).ok()? {
        Some(row)
    } else {
        None
    }
}

/// A row of the table of elements up to this place, with this id.
fn changed_element(alloc: Global, row: &Row, end: usize, id: i64) -> Option<Row> {
    let mut changed = Row::new(alloc);
    for at in 0..row.len().min(end) {
        if at == 4 {
            changed.push(ValueRef::Int(id)).ok()?;
        } else {
            changed.push(row.get(at)).ok()?;
        }
    }
    Some(changed)
}

/// Writes the first row of the table of elements again, up to this place, with this id.
pub fn write_element<S: Store>(alloc: Global, trees: &mut S, end: usize, id: i64) -> Option<()> {
    let row = first_element(alloc, trees)?;
    let changed = changed_element(alloc, &row, end, id)?;
    if trees.shape(ELEMENTS) != Shape::Table || !matches!(changed.get(0), ValueRef::Int(_)) {
        return None;
    }
    trees.put(ELEMENTS, &changed).ok()?;
    trees.commit().ok()
}
