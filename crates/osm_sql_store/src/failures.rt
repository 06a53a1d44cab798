//! How many calls of a store have failed.

ghost use Rattle.std.specs.Prelude.{◌≡◌};
ghost use Rattle.osm_rows.specs.Keeping.{failures_after};

use osm_rows::StoreFault;

/// The count of failures after a call with this answer; it stays at the greatest number.
pub(crate) fn failures_after<T>(answer: &Result<T, StoreFault>, failures: u64) -> u64
    ensures { result ≡ failures_after answer.now failures }
{
    if answer.is_err() {
        failures.saturating_add(1)
    } else {
        failures
    }
}
