//! Items, written into an array behind a column.

ghost use Rattle.std.specs.Prelude.{◌≡◌, ◌+◌, ◌<◌, ◌≤◌, ◌∷◌, [], length, replicate};
ghost use Rattle.osm_columns.specs.Columns.{over, Adds};

/// Writes an item into the array, behind a column of so many items.
pub(crate) fn put_item<T: Copy>(item: T, at: usize, array: &mut [T])
    requires { at < length array.old }
    ensures { Adds at (item ∷ []) array.old array.new }
{
    array[at] = item;
}

/// Writes items into the array, behind a column of so many items.
pub(crate) fn put_items<T: Copy>(items: &[T], at: usize, array: &mut [T])
    requires { at + length items.now ≤ length array.old }
    ensures { Adds at items.now array.old array.new }
{
    // most elements have no references and no members
    if items.is_empty() {
        return;
    }
    let (_, behind) = array.split_at_mut(at);
    let (place, _) = behind.split_at_mut(items.len());
    place.copy_from_slice(items);
}

/// Writes an item so many times into the array, behind a column of so many items.
pub(crate) fn put_same<T: Copy>(item: T, count: usize, at: usize, array: &mut [T])
    requires { at + count ≤ length array.old }
    ensures { Adds at (replicate count item) array.old array.new }
{
    for index in 0..count {
        put_item(item, at + index, array);
    }
}

/// Writes the items into the array, or, where there are none, an item so many times, behind a column of so many items.
pub(crate) fn put_items_or_same<T: Copy>(
    items: &[T],
    item: T,
    count: usize,
    at: usize,
    array: &mut [T],
)
    requires items { at + length items.now ≤ length array.old }
    requires same { at + count ≤ length array.old }
    ensures items { 0 < length items.now → Adds at items.now array.old array.new }
    ensures same { length items.now ≡ 0 → Adds at (replicate count item) array.old array.new }
{
    if items.is_empty() {
        put_same(item, count, at, array);
    } else {
        put_items(items, at, array);
    }
}

/// Writes a whole column into the array.
pub(crate) fn put_column<T: Copy>(items: &[T], array: &mut [T])
    requires { length items.now ≤ length array.old }
    ensures { array.new ≡ over items.now array.old }
{
    let (place, _) = array.split_at_mut(items.len());
    place.copy_from_slice(items);
}
