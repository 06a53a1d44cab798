//! The columns of numbers: what each has of an element, and of dense nodes.

ghost use Rattle.osm_value.specs.Elements.{id_of_element};
ghost use Rattle.osm_columns.specs.Values.{kind_number, lat_of_element, lon_of_element, version_of_element, time_of_element, changeset_of_element, uid_of_element, flag_of_element};

use crate::dense_numbers::{put_coordinates, put_flags, put_times, put_uids};
use crate::element_column::ElementColumn;
use crate::items::{put_items, put_items_or_same, put_same};
use crate::values::{changeset_of, flag_of, kind_of, lat_of, lon_of, time_of, uid_of, version_of};
use osm_block::{DenseArrays, Scale};
use osm_value::Element;

/// 0 for a node, 1 for a way, 2 for a relation.
pub(crate) struct Kinds;

impl ElementColumn for Kinds {
    type Item = u8;

    ghost item = { kind_number };

    fn item_of(element: &Element) -> u8 {
        kind_of(element)
    }

    fn put_dense(_scale: &Scale, arrays: &DenseArrays, at: usize, array: &mut [u8]) {
        put_same(0, arrays.ids.len(), at, array);
    }
}

pub(crate) struct Ids;

impl ElementColumn for Ids {
    type Item = i64;

    ghost item = { id_of_element };

    fn item_of(element: &Element) -> i64 {
        element.id()
    }

    fn put_dense(_scale: &Scale, arrays: &DenseArrays, at: usize, array: &mut [i64]) {
        put_items(&arrays.ids, at, array);
    }
}

/// In nanodegrees, 0 where an element has no place.
pub(crate) struct Lats;

impl ElementColumn for Lats {
    type Item = i64;

    ghost item = { lat_of_element };

    fn item_of(element: &Element) -> i64 {
        lat_of(element)
    }

    fn put_dense(scale: &Scale, arrays: &DenseArrays, at: usize, array: &mut [i64]) {
        put_coordinates(scale.lat_offset, scale.granularity, &arrays.lats, at, array);
    }
}

/// In nanodegrees, 0 where an element has no place.
pub(crate) struct Lons;

impl ElementColumn for Lons {
    type Item = i64;

    ghost item = { lon_of_element };

    fn item_of(element: &Element) -> i64 {
        lon_of(element)
    }

    fn put_dense(scale: &Scale, arrays: &DenseArrays, at: usize, array: &mut [i64]) {
        put_coordinates(scale.lon_offset, scale.granularity, &arrays.lons, at, array);
    }
}

/// -1 where there is none, as in the arrays of dense nodes.
pub(crate) struct Versions;

impl ElementColumn for Versions {
    type Item = i32;

    ghost item = { version_of_element };

    fn item_of(element: &Element) -> i32 {
        version_of(element.info())
    }

    fn put_dense(_scale: &Scale, arrays: &DenseArrays, at: usize, array: &mut [i32]) {
        put_items_or_same(&arrays.versions, -1, arrays.ids.len(), at, array);
    }
}

/// In milliseconds since 1970; the least number where there is none.
pub(crate) struct Times;

impl ElementColumn for Times {
    type Item = i64;

    ghost item = { time_of_element };

    fn item_of(element: &Element) -> i64 {
        time_of(element.info())
    }

    fn put_dense(scale: &Scale, arrays: &DenseArrays, at: usize, array: &mut [i64]) {
        if arrays.timestamps.is_empty() {
            put_same(i64::MIN, arrays.ids.len(), at, array);
        } else {
            put_times(scale.date_granularity, &arrays.timestamps, at, array);
        }
    }
}

/// The least number where there is none.
pub(crate) struct Changesets;

impl ElementColumn for Changesets {
    type Item = i64;

    ghost item = { changeset_of_element };

    fn item_of(element: &Element) -> i64 {
        changeset_of(element.info())
    }

    fn put_dense(_scale: &Scale, arrays: &DenseArrays, at: usize, array: &mut [i64]) {
        put_items_or_same(&arrays.changesets, i64::MIN, arrays.ids.len(), at, array);
    }
}

/// The least number where there is none.
pub(crate) struct Uids;

impl ElementColumn for Uids {
    type Item = i32;

    ghost item = { uid_of_element };

    fn item_of(element: &Element) -> i32 {
        uid_of(element.info())
    }

    fn put_dense(_scale: &Scale, arrays: &DenseArrays, at: usize, array: &mut [i32]) {
        if arrays.uids.is_empty() {
            put_same(i32::MIN, arrays.ids.len(), at, array);
        } else {
            put_uids(&arrays.uids, at, array);
        }
    }
}

/// 1 for visible, 0 for deleted, 2 where that isn't said.
pub(crate) struct Visible;

impl ElementColumn for Visible {
    type Item = u8;

    ghost item = { flag_of_element };

    fn item_of(element: &Element) -> u8 {
        flag_of(element.info())
    }

    fn put_dense(_scale: &Scale, arrays: &DenseArrays, at: usize, array: &mut [u8]) {
        if arrays.visible.is_empty() {
            put_same(2, arrays.ids.len(), at, array);
        } else {
            put_flags(&arrays.visible, at, array);
        }
    }
}
