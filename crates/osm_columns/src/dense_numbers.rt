//! The numbers of dense nodes, written into columns.

ghost use Rattle.std.specs.Prelude.{◌≡◌, ◌+◌, ◌≤◌, ◌≤ℤ◌, ◌+ℤ◌, ◌*ℤ◌, length, map, true, Some};
ghost use Rattle.std.specs.List.{list_all};
ghost use Rattle.osm_value.specs.Ranges.{is_wide, is_uid};
ghost use Rattle.osm_block.specs.Block.{coordinate, time};
ghost use Rattle.osm_block.specs.Phases.{coordinate_in_range};
ghost use Rattle.osm_columns.specs.Columns.{Adds};
ghost use Rattle.osm_columns.specs.Values.{number_of_flag};

use crate::items::put_item;

/// The least nanodegree or millisecond.
const LEAST: i128 = -4_611_686_018_427_387_903;

/// The greatest of them.
const MOST: i128 = 4_611_686_018_427_387_903;

// The sums and products below are of 128 bits, and what they give fits 64. So the compiler does them with 64.

/// That many units, as nanodegrees.
fn scaled(granularity: i32, units: i64) -> i128
    ensures { result ≡ granularity *ℤ units }
{
    i128::from(granularity) * i128::from(units)
}

fn narrow_sum(offset: i64, moved: i128) -> i64
    requires low { LEAST ≤ℤ (offset +ℤ moved) }
    requires high { (offset +ℤ moved) ≤ℤ MOST }
    ensures { result ≡ offset +ℤ moved }
{
    (i128::from(offset) + moved) as i64
}

/// A coordinate of that many units, in nanodegrees.
fn coordinate_of(offset: i64, granularity: i32, units: i64) -> i64
    requires { coordinate_in_range offset granularity units ≡ true }
    ensures { result ≡ coordinate offset granularity units }
{
    narrow_sum(offset, scaled(granularity, units))
}

/// A time of that many units, in milliseconds.
fn time_of(date_granularity: i32, units: i64) -> i64
    requires { is_wide (time date_granularity units) ≡ true }
    ensures { result ≡ time date_granularity units }
{
    (i128::from(units) * i128::from(date_granularity)) as i64
}

/// Writes the coordinates of so many units, behind a column of so many items.
pub(crate) fn put_coordinates(
    offset: i64,
    granularity: i32,
    units: &[i64],
    at: usize,
    array: &mut [i64],
)
    requires room { at + length units.now ≤ length array.old }
    requires in_range { list_all (coordinate_in_range offset granularity) units.now ≡ true }
    ensures { Adds at (map (coordinate offset granularity) units.now) array.old array.new }
{
    for index in 0..units.len() {
        let coordinate = coordinate_of(offset, granularity, units[index]);
        put_item(coordinate, at + index, array);
    }
}

/// Writes the times of so many units, behind a column of so many items.
pub(crate) fn put_times(date_granularity: i32, units: &[i64], at: usize, array: &mut [i64])
    requires room { at + length units.now ≤ length array.old }
    requires in_range { list_all (λ t. is_wide (time date_granularity t)) units.now ≡ true }
    ensures { Adds at (map (time date_granularity) units.now) array.old array.new }
{
    for index in 0..units.len() {
        put_item(time_of(date_granularity, units[index]), at + index, array);
    }
}

fn uid_of(uid: i64) -> i32
    requires { is_uid uid ≡ true }
    ensures { result ≡ uid }
{
    uid as i32
}

/// Writes the uids, behind a column of so many items.
pub(crate) fn put_uids(uids: &[i64], at: usize, array: &mut [i32])
    requires room { at + length uids.now ≤ length array.old }
    requires in_range { list_all is_uid uids.now ≡ true }
    ensures { Adds at uids.now array.old array.new }
{
    for index in 0..uids.len() {
        put_item(uid_of(uids[index]), at + index, array);
    }
}

/// Writes the flags, behind a column of so many items: 1 for visible, 0 for deleted.
pub(crate) fn put_flags(flags: &[bool], at: usize, array: &mut [u8])
    requires { at + length flags.now ≤ length array.old }
    ensures { Adds at (map (λ f. number_of_flag (Some f)) flags.now) array.old array.new }
{
    for index in 0..flags.len() {
        put_item(u8::from(flags[index]), at + index, array);
    }
}
