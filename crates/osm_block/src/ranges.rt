//! Tests of numbers by their ranges, and of indexes by the table.

ghost use Rattle.std.specs.Prelude.{◌≡◌, ◌<◌, ◌≤◌, ◌≤ℤ◌, ◌+ℤ◌, ◌-ℤ◌, ◌*ℤ◌, nat_lt, true, unsigned_abs, IsTrue, ◌%◌, ◌^◌};
ghost use Rattle.std.specs.List.{list_all, AllByRecursion};
ghost use Rattle.osm_value.specs.Ranges.{is_wide, is_version, is_uid, passes};
ghost use Rattle.osm_block.specs.Block.{coordinate, time, version as version_of};
ghost use Rattle.osm_block.specs.Phases.{coordinate_in_range};

use osm_value::{uid_in_range, version_in_range, wide_in_range};

/// The least id, reference, nanodegree or millisecond, as wide as their sums.
const LEAST: i128 = -4_611_686_018_427_387_903;

/// The greatest of them.
const MOST: i128 = 4_611_686_018_427_387_903;

/// Whether the numbers, without their signs, are all below 2^36, as those of a real map are. Several are tested at once.
fn are_small(numbers: &[i64]) -> bool
    ensures { IsTrue result → AllByRecursion (λ n. unsigned_abs n < 2 ^ 36) numbers.now }
{
    let mut bits = 0;
    for number in numbers {
        bits |= number.unsigned_abs();
    }
    bits < 1 << 36
}

/// Whether all of the numbers are ids, references or coordinates.
pub(crate) fn all_wide(numbers: &[i64]) -> bool
    ensures { result ≡ list_all is_wide numbers.now }
{
    are_small(numbers) || numbers.iter().all(|number| wide_in_range(*number))
}

/// Whether the units, their size and their offset are all so small that what they stand for is in the range. Those of a real
/// map are.
fn are_small_units(offset: i64, size: i32, units: &[i64]) -> bool
    ensures offset { IsTrue result → unsigned_abs offset ≤ 2 ^ 60 }
    ensures size { IsTrue result → unsigned_abs size ≤ 2 ^ 24 }
    ensures units { IsTrue result → AllByRecursion (λ n. unsigned_abs n < 2 ^ 36) units.now }
{
    offset.unsigned_abs() <= 1 << 60 && size.unsigned_abs() <= 1 << 24 && are_small(units)
}

/// Whether all of the times are in the range.
pub(crate) fn all_times(date_granularity: i32, units: &[i64]) -> bool
    ensures { result ≡ list_all (λ t. is_wide (time date_granularity t)) units.now }
{
    are_small_units(0, date_granularity, units)
        || units
            .iter()
            .all(|units| time_in_range(date_granularity, *units))
}

/// Whether all of the coordinates are in the range.
pub(crate) fn all_coordinates(offset: i64, granularity: i32, units: &[i64]) -> bool
    ensures { result ≡ list_all (coordinate_in_range offset granularity) units.now }
{
    are_small_units(offset, granularity, units)
        || units
            .iter()
            .all(|units| coordinate_in_range(offset, granularity, *units))
}

/// Whether a table of that many texts has all of the indexes, which are numbers of 32 bits.
pub(crate) fn all_indexes(indexes: &[u64], texts: usize) -> bool
    ensures { result ≡ list_all (λ i. nat_lt (i % 2 ^ 32) texts) indexes.now }
{
    indexes
        .iter()
        .all(|index| *index % (1 << 32) < texts as u64)
}

/// Whether a time of that many units is in the range.
pub(crate) fn time_in_range(date_granularity: i32, units: i64) -> bool
    ensures { result ≡ is_wide (time date_granularity units) }
{
    let time = i128::from(units) * i128::from(date_granularity);
    LEAST <= time && time <= MOST
}

pub(crate) fn optional_wide(number: Option<i64>) -> bool
    ensures { result ≡ passes is_wide number }
{
    match number {
        None => true,
        Some(number) => wide_in_range(number),
    }
}

/// Whether a version is in its range or -1, which says nothing.
pub(crate) fn optional_version(number: Option<i32>) -> bool
    ensures { result ≡ passes (λ v. passes is_version (version_of v)) number }
{
    match number {
        None | Some(-1) => true,
        Some(number) => version_in_range(number),
    }
}

pub(crate) fn optional_uid(number: Option<i32>) -> bool
    ensures { result ≡ passes is_uid number }
{
    match number {
        None => true,
        Some(number) => uid_in_range(number),
    }
}

pub(crate) fn optional_time(date_granularity: i32, units: Option<i64>) -> bool
    ensures { result ≡ passes (λ t. is_wide (time date_granularity t)) units }
{
    match units {
        None => true,
        Some(units) => time_in_range(date_granularity, units),
    }
}

/// That many units, as nanodegrees.
fn scaled(granularity: i32, units: i64) -> i128
    ensures { result ≡ granularity *ℤ units }
{
    i128::from(granularity) * i128::from(units)
}

/// How far a coordinate may lie below the offset.
fn least_from(offset: i64) -> i128
    ensures { result ≡ LEAST -ℤ offset }
{
    LEAST - i128::from(offset)
}

/// How far a coordinate may lie above the offset.
fn most_from(offset: i64) -> i128
    ensures { result ≡ MOST -ℤ offset }
{
    MOST - i128::from(offset)
}

fn sum_in_range(offset: i64, moved: i128) -> bool
    ensures { result ≡ is_wide (offset +ℤ moved) }
{
    (least_from(offset) <= moved) & (moved <= most_from(offset))
}

/// Whether a coordinate of that many units is in the range.
pub(crate) fn coordinate_in_range(offset: i64, granularity: i32, units: i64) -> bool
    ensures { result ≡ coordinate_in_range offset granularity units }
{
    sum_in_range(offset, scaled(granularity, units))
}

fn narrow_sum(offset: i64, moved: i128) -> i64
    requires low { LEAST ≤ℤ (offset +ℤ moved) }
    requires high { (offset +ℤ moved) ≤ℤ MOST }
    ensures { result ≡ offset +ℤ moved }
{
    (i128::from(offset) + moved) as i64
}

/// The coordinate of that many units, in nanodegrees.
pub(crate) fn coordinate_of(offset: i64, granularity: i32, units: i64) -> i64
    requires { coordinate_in_range offset granularity units ≡ true }
    ensures { result ≡ coordinate offset granularity units }
{
    narrow_sum(offset, scaled(granularity, units))
}
