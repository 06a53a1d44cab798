//! Delta coded arrays.

ghost use Rattle.std.specs.Prelude.{◌≡◌, ◌<◌, ◌≤◌, ◌^◌, length, map, not, option_map, unsigned_abs, IfOk, IsTrue, FitsSigned};
ghost use Rattle.std.specs.List.{list_all, AllByRecursion};
ghost use Rattle.std.specs.Int.{w64};
ghost use Rattle.osm_block.specs.declared.fault.BlockFault.TheVariants as faults;
ghost use Rattle.pbf_wire.specs.Readings.{sint64};
ghost use Rattle.osm_block.specs.Differences.{Diff, front_sums, fits_i64};
ghost use Rattle.osm_block.specs.Phases.{Gives, when};

use crate::fault::{BlockError, BlockFault};
use pbf_wire::unzigzag;
use std::alloc::{AllocError, Global};

pub(crate) fn optional_unzigzag(number: Option<u64>) -> Option<i64>
    ensures { result ≡ option_map sint64 number }
{
    match number {
        None => None,
        Some(number) => Some(unzigzag(number)),
    }
}

/// Adds to each number the sum of those before it, or answers false where one of the sums doesn't fit.
fn add_up(numbers: &mut [i64]) -> bool
    ensures sums { IsTrue result → numbers.new ≡ front_sums numbers.old }
    ensures fit { IsTrue result → AllByRecursion (FitsSigned w64) numbers.new }
    ensures fits { result ≡ list_all fits_i64 (front_sums numbers.old) }
{
    let mut last: i64 = 0;
    for number in numbers.iter_mut() {
        last = match last.checked_add(*number) {
            Some(sum) => sum,
            None => return false,
        };
        *number = last;
    }
    true
}

/// The bits that are set in any of the numbers, so none of them is greater. To take them together needs no comparison, and
/// several numbers are taken at once.
fn bits_of(numbers: &[u64]) -> u64
    ensures { AllByRecursion (λ n. n ≤ result) numbers.now }
{
    let mut bits = 0;
    for number in numbers {
        bits |= *number;
    }
    bits
}

/// Whether the differences are so small and so few that each of their sums fits. Those of a real map are.
fn are_small(deltas: &[u64]) -> bool
    ensures few { IsTrue result → length deltas.now ≤ 2 ^ 20 }
    ensures small { IsTrue result → AllByRecursion (λ n. n < 2 ^ 42) deltas.now }
{
    deltas.len() <= 1 << 20 && bits_of(deltas) < 1 << 42
}

/// Adds to each number the sum of those before it, where each sum fits, so that none has to be tested.
fn add_up_small(numbers: &mut [i64])
    requires few { length numbers.old ≤ 2 ^ 20 }
    requires small { AllByRecursion (λ d. unsigned_abs d ≤ 2 ^ 41) numbers.old }
    ensures sums { numbers.new ≡ front_sums numbers.old }
    ensures fit { AllByRecursion (FitsSigned w64) numbers.new }
{
    let mut last: i64 = 0;
    for number in numbers.iter_mut() {
        last += *number;
        *number = last;
    }
}

/// The numbers that these stand for.
fn unzigzag_all(alloc: Global, numbers: &[u64]) -> Result<Vec<i64>, AllocError>
    ensures { IfOk result (λ v. v.items ≡ map sint64 numbers.now) }
{
    numbers
        .iter()
        .map(|number| unzigzag(*number))
        .collect(alloc)
}

/// The numbers whose differences these are. They are made in passes of which each but the sums takes several numbers at once,
/// and none has to ask for room: that takes less time than one loop that appends sums.
pub(crate) fn absolute(alloc: Global, deltas: &[u64]) -> Result<Vec<i64>, BlockError>
    ensures { Gives (λ values. Diff values.items (map sint64 deltas.now)) (when (not (list_all fits_i64 (front_sums (map sint64 deltas.now)))) faults.SumTooLarge) result }
{
    let mut values = unzigzag_all(alloc, deltas)?;
    if are_small(deltas) {
        add_up_small(&mut values);
        return Ok(values);
    }
    if add_up(&mut values) {
        Ok(values)
    } else {
        Err(BlockError::Fault(BlockFault::SumTooLarge))
    }
}
