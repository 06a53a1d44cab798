//! Whether rows have certain values.

ghost use Rattle.std.specs.Prelude.{◌≡◌, ◌↔◌, ◌<◌, length, IsTrue, map, IfOk, IfErr};
ghost use Rattle.sqlite.specs.Order.{column};
ghost use Rattle.sqlite.specs.Value.{owned};
ghost use Rattle.sqlite.specs.Values.{bound, bound_value};
ghost use Rattle.osm_rows.specs.Keeping.{IsForeign};

use osm_rows::{StoreFault, TableRow};
use sqlite::Row;
use sqlite::types::ValueRef;
use sqlite_value::order::is_same;
use std::alloc::Global;

/// Whether a value is what `sqlite` keeps of another, which is NULL for a NaN.
fn is_kept(found: ValueRef<'_>, value: ValueRef<'_>) -> bool
    ensures { IsTrue result ↔ (owned found.entry ≡ bound_value (owned value.entry)) }
{
    match value {
        ValueRef::Null => is_same(found, value),
        ValueRef::Int(_) => is_same(found, value),
        ValueRef::Real(number) => {
            if number.is_nan() {
                is_same(found, ValueRef::Null)
            } else {
                is_same(found, value)
            }
        }
        ValueRef::Text(_) => is_same(found, value),
        ValueRef::Blob(_) => is_same(found, value),
    }
}

/// Whether a column has this value.
fn has_value(row: &Row, at: usize, value: ValueRef<'_>) -> bool
    requires { at < length row.now }
    ensures { IsTrue result ↔ (column row.now at ≡ bound_value (owned value.entry)) }
{
    match row.get_ref(at) {
        Ok(found) => is_kept(found, value),
        Err(_) => false,
    }
}

/// Whether a row has exactly these values.
pub fn has_values(row: &Row, values: &[ValueRef<'_>]) -> bool
    ensures { IsTrue result ↔ (row.now ≡ bound values.now) }
{
    if row.column_count() != values.len() {
        return false;
    }
    for at in 0..values.len() {
        if !has_value(row, at, values[at]) {
            return false;
        }
    }
    true
}

/// Whether a row has what another is to write.
fn has_columns<R: TableRow>(alloc: Global, row: &Row, expected: &R) -> Result<bool, StoreFault>
    ensures told { IfOk result (λ told. IsTrue told ↔ (row.now ≡ R.columns expected.now)) }
    ensures ours { IfErr result (λ fault. ¬ (IsForeign fault)) }
{
    let mut values = Vec::new(alloc);
    expected.push_values(&mut values)?;
    Ok(has_values(row, &values))
}

/// Whether rows have what others are to write, in the same order. An error is `Memory`.
pub fn have_columns<R: TableRow>(
    alloc: Global,
    rows: &[Row],
    expected: &[R],
) -> Result<bool, StoreFault>
    ensures told { IfOk result (λ told. IsTrue told ↔ (rows.now ≡ map R.columns expected.now)) }
    ensures ours { IfErr result (λ fault. ¬ (IsForeign fault)) }
{
    if rows.len() != expected.len() {
        return Ok(false);
    }
    for at in 0..rows.len() {
        if !has_columns(alloc, &rows[at], &expected[at])? {
            return Ok(false);
        }
    }
    Ok(true)
}
