//! Whether values are the same. Most are integers, which are compared here: a call would take longer than that.

ghost use Rattle.std.specs.Prelude.{◌≡◌, ◌↔◌, IsTrue};
ghost use Rattle.sqlite_value.specs.declared.value.Value.TheVariants.{Int};
ghost use Rattle.sqlite_value.specs.Order.{column};
ghost use Rattle.sqlite_value.specs.Value.{owned};

use sqlite_value::order::is_same;
use sqlite_value::row::Row;
use sqlite_value::value::ValueRef;

/// Whether a value is this integer.
#[inline(always)]
pub(crate) fn is_integer(value: ValueRef<'_>, number: i64) -> bool
    ensures { IsTrue result ↔ (owned value.entry ≡ Int number) }
{
    match value {
        ValueRef::Int(found) => found == number,
        _ => false,
    }
}

/// Whether a row has in one column what another has in another.
#[inline(always)]
pub(crate) fn are_same(row: &Row, at: usize, other: &Row, other_at: usize) -> bool
    ensures { IsTrue result ↔ (column row.now at ≡ column other.now other_at) }
{
    match row.get(at) {
        ValueRef::Int(number) => is_integer(other.get(other_at), number),
        value => is_same(value, other.get(other_at)),
    }
}
