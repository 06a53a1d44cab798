//! Fields, appended to the bytes of a message.

ghost use Rattle.std.specs.Prelude.{◌≡◌, ◌++◌, ℕ, ℤ, Option, OnOk};
ghost use Rattle.std.specs.List.{filter_map};
ghost use Rattle.osm_write.specs.Arrays.{AnswerEach, IsWideOrNone};
ghost use Rattle.osm_write.specs.Canon.{number_field, int_field, bytes_field, message_field, packed_field, delta_field, optional};

use pbf_wire::{write_number, zigzag};
use std::alloc::AllocError;

/// Appends a number.
pub(crate) fn append_number(field: u32, number: u64, out: &mut Vec<u8>) -> Result<(), AllocError>
    ensures { OnOk result (out.new.items ≡ out.old.items ++ number_field field number) }
{
    write_number(8 * u64::from(field), out)?;
    write_number(number, out)
}

/// Appends a number in two's complement.
pub(crate) fn append_int(field: u32, number: i64, out: &mut Vec<u8>) -> Result<(), AllocError>
    ensures { OnOk result (out.new.items ≡ out.old.items ++ int_field field number) }
{
    append_number(field, number.cast_unsigned(), out)
}

/// Appends bytes and their length.
pub(crate) fn append_bytes(field: u32, bytes: &[u8], out: &mut Vec<u8>) -> Result<(), AllocError>
    ensures { OnOk result (out.new.items ≡ out.old.items ++ bytes_field field bytes.now) }
{
    write_number(8 * u64::from(field) + 2, out)?;
    write_number(bytes.len() as u64, out)?;
    out.extend_from_slice(bytes)
}

/// The same, but nothing where there are no bytes.
pub(crate) fn append_message(field: u32, bytes: &[u8], out: &mut Vec<u8>) -> Result<(), AllocError>
    ensures { OnOk result (out.new.items ≡ out.old.items ++ message_field field bytes.now) }
{
    match bytes {
        [] => Ok(()),
        _ => append_bytes(field, bytes, out),
    }
}

/// Appends an array with the number of each item that has one; its bytes are gathered in `array` first.
pub(crate) fn append_packed<T, F: Fn(&T) -> Option<u64>>(
    field: u32,
    items: &[T],
    number_of: F,
    array: &mut Vec<u8>,
    out: &mut Vec<u8>,
) -> Result<(), AllocError>
    requires { F.IsAlwaysCallable number_of }
    ensures { OnOk result ((number : T → Option ℕ) → AnswerEach F.Fn number_of (λ x r. r ≡ number x) items.now
        → out.new.items ≡ out.old.items ++ packed_field field (filter_map number items.now)) }
{
    array.clear();
    for item in items {
        let Some(number) = number_of(item) else {
            continue;
        };
        write_number(number, array)?;
    }
    append_message(field, array, out)
}

/// The same for signed numbers, each as its difference from the one before it.
pub(crate) fn append_deltas<T, F: Fn(&T) -> Option<i64>>(
    field: u32,
    items: &[T],
    number_of: F,
    array: &mut Vec<u8>,
    out: &mut Vec<u8>,
) -> Result<(), AllocError>
    requires callable { F.IsAlwaysCallable number_of }
    requires wide { AnswerEach F.Fn number_of (λ _ r. IsWideOrNone r) items.now }
    ensures { OnOk result ((number : T → Option ℤ) → AnswerEach F.Fn number_of (λ x r. r ≡ number x) items.now
        → out.new.items ≡ out.old.items ++ delta_field field (filter_map number items.now)) }
{
    array.clear();
    let mut before = 0;
    for item in items {
        let Some(number) = number_of(item) else {
            continue;
        };
        write_number(zigzag(number - before), array)?;
        before = number;
    }
    append_message(field, array, out)
}

/// Appends a number in two's complement, or nothing.
pub(crate) fn append_optional(
    field: u32,
    number: Option<i64>,
    out: &mut Vec<u8>,
) -> Result<(), AllocError>
    ensures { OnOk result (out.new.items ≡ out.old.items ++ optional (int_field field) number) }
{
    match number {
        Some(number) => append_int(field, number, out),
        None => Ok(()),
    }
}
