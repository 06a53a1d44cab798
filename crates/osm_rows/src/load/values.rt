//! Numbers, texts and bytes in the columns of rows. A column that holds none is that of a row of no element.

ghost use Rattle.std.specs.Prelude.{◌≡◌, ◌↔◌, ◌<◌, ℕ, ℤ, pos, Bool, List, length, Some, Option, IsTrue, IsSomeAnd, IfSome};
ghost use Rattle.std.specs.Option.{option_copied};
ghost use Rattle.sqlite.specs.declared.types.Value.TheVariants.{Null, Int, Text as Words, Blob as Octets};
ghost use Rattle.sqlite.specs.Order.{column};
ghost use Rattle.sqlite.specs.Value.{owned};
ghost use Rattle.sqlite.specs.Values.{or_null};
ghost use Rattle.osm_rows.specs.Load.Numbering.{AreNumbered};
ghost use Rattle.osm_rows.specs.Rows.{element_code};
ghost use Rattle.osm_rows.specs.TableRows.{flag};
ghost use Rattle.osm_value.specs.Ranges.{IsText, IsTextOrNone, IsWide, passes, is_wide, is_version, is_uid};

use osm_value::{MemberKind, text_in_range, uid_in_range, version_in_range, wide_in_range};
use sqlite::Row;
use sqlite::types::ValueRef;

/// The number that a value is; None where it is none.
pub(crate) fn number_of(value: ValueRef<'_>) -> Option<u64>
    ensures exact { (n : ℕ) → owned value.entry ≡ Int (pos n) → result ≡ Some n }
    ensures is { IfSome result (λ n. owned value.entry ≡ Int (pos n)) }
{
    match value {
        ValueRef::Int(number) if number >= 0 => Some(number as u64),
        _ => None,
    }
}

/// The number in a column; None where no such number stands there.
pub fn number_at(row: &Row, at: usize) -> Option<u64>
    ensures exact { (n : ℕ) → at < length row.now → column row.now at ≡ Int (pos n) → result ≡ Some n }
    ensures is { IfSome result (λ n. column row.now at ≡ Int (pos n)) }
{
    match row.get_ref(at) {
        Ok(value) => number_of(value),
        Err(_) => None,
    }
}

/// Whether a column has 0, 1, 2, .. in the order of the rows.
pub fn are_numbered(rows: &[Row], at: usize) -> bool
    ensures { IsTrue result ↔ (AreNumbered at rows.now) }
{
    for (number, row) in rows.iter().enumerate() {
        if number_at(row, at) != Some(number as u64) {
            return false;
        }
    }
    true
}

/// The bytes in a column, which lie in the row.
pub(crate) fn bytes_at(row: &Row, at: usize) -> Option<&[u8]>
    ensures { (bytes : List ℕ) → at < length row.now → column row.now at ≡ Octets bytes → IsSomeAnd result (λ found. found.now ≡ bytes) }
{
    match row.get_ref(at) {
        Ok(ValueRef::Blob(bytes)) => Some(bytes),
        _ => None,
    }
}

/// The text of these bytes, if they are UTF-8 without U+0000.
fn text_in(bytes: &[u8]) -> Option<&str>
    ensures exact { IsText bytes.now → IsSomeAnd result (λ found. found.now ≡ bytes.now) }
    ensures in_range { IfSome result (λ found. IsText found.now) }
{
    match std::str::from_utf8(bytes) {
        Ok(text) if text_in_range(text) => Some(text),
        _ => None,
    }
}

/// The text that a value is.
pub(crate) fn text_of(value: ValueRef<'_>) -> Option<&str>
    ensures exact { (text : List ℕ) → IsText text → owned value.entry ≡ Words text → IsSomeAnd result (λ found. found.now ≡ text) }
    ensures in_range { IfSome result (λ found. IsText found.now) }
{
    match value {
        ValueRef::Text(bytes) => text_in(bytes),
        _ => None,
    }
}

/// The id or reference that a value is.
pub(crate) fn wide_of(value: ValueRef<'_>) -> Option<i64>
    ensures exact { (number : ℤ) → IsWide number → owned value.entry ≡ Int number → result ≡ Some number }
    ensures in_range { IfSome result IsWide }
    ensures is { IfSome result (λ number. owned value.entry ≡ Int number) }
{
    match value {
        ValueRef::Int(number) if wide_in_range(number) => Some(number),
        _ => None,
    }
}

/// The id, reference, nanodegree, millisecond or changeset in a column.
pub(crate) fn wide_at(row: &Row, at: usize) -> Option<i64>
    ensures exact { (number : ℤ) → IsWide number → at < length row.now → column row.now at ≡ Int number → result ≡ Some number }
    ensures in_range { IfSome result IsWide }
    ensures is { IfSome result (λ number. column row.now at ≡ Int number) }
{
    match row.get_ref(at) {
        Ok(value) => wide_of(value),
        Err(_) => None,
    }
}

/// Such a number in a column that may be NULL; the outer None is of a row of no element.
pub(crate) fn free_wide_at(row: &Row, at: usize) -> Option<Option<i64>>
    ensures exact { (number : Option ℤ) → IsTrue (passes is_wide number) → at < length row.now → column row.now at ≡ or_null Int number → result ≡ Some number }
    ensures in_range { IfSome result (λ found. IsTrue (passes is_wide found)) }
{
    match row.get_ref(at) {
        Ok(ValueRef::Null) => Some(None),
        Ok(ValueRef::Int(number)) if wide_in_range(number) => Some(Some(number)),
        _ => None,
    }
}

/// A version in a column that may be NULL; the outer None is of a row of no element.
pub(crate) fn free_version_at(row: &Row, at: usize) -> Option<Option<i32>>
    ensures exact { (number : Option ℤ) → IsTrue (passes is_version number) → at < length row.now → column row.now at ≡ or_null Int number → result ≡ Some number }
    ensures in_range { IfSome result (λ found. IsTrue (passes is_version found)) }
{
    match row.get_ref(at) {
        Ok(ValueRef::Null) => Some(None),
        Ok(ValueRef::Int(number)) => match i32::try_from(number) {
            Ok(version) if version_in_range(version) => Some(Some(version)),
            _ => None,
        },
        _ => None,
    }
}

/// A user id in a column that may be NULL; the outer None is of a row of no element.
pub(crate) fn free_uid_at(row: &Row, at: usize) -> Option<Option<i32>>
    ensures exact { (number : Option ℤ) → IsTrue (passes is_uid number) → at < length row.now → column row.now at ≡ or_null Int number → result ≡ Some number }
    ensures in_range { IfSome result (λ found. IsTrue (passes is_uid found)) }
{
    match row.get_ref(at) {
        Ok(ValueRef::Null) => Some(None),
        Ok(ValueRef::Int(number)) => match i32::try_from(number) {
            Ok(uid) if uid_in_range(uid) => Some(Some(uid)),
            _ => None,
        },
        _ => None,
    }
}

/// The text in a column that may be NULL; the outer None is of a row of no element.
pub(crate) fn free_text_at(row: &Row, at: usize) -> Option<Option<&str>>
    ensures exact { (text : Option (List ℕ)) → IsTextOrNone text → at < length row.now → column row.now at ≡ or_null Words text → IsSomeAnd result (λ found. option_copied found ≡ text) }
    ensures in_range { IfSome result (λ found. IsTextOrNone (option_copied found)) }
{
    match row.get_ref(at) {
        Ok(ValueRef::Null) => Some(None),
        Ok(ValueRef::Text(bytes)) => match text_in(bytes) {
            Some(text) => Some(Some(text)),
            None => None,
        },
        _ => None,
    }
}

/// A flag in a column that may be NULL; the outer None is of a row of no element, as that of any number but 0 and 1.
pub(crate) fn free_flag_at(row: &Row, at: usize) -> Option<Option<bool>>
    ensures exact { (visible : Option Bool) → at < length row.now → column row.now at ≡ or_null flag visible → result ≡ Some visible }
    ensures is { IfSome result (λ visible. column row.now at ≡ or_null flag visible) }
{
    match row.get_ref(at) {
        Ok(ValueRef::Null) => Some(None),
        Ok(ValueRef::Int(0)) => Some(Some(false)),
        Ok(ValueRef::Int(1)) => Some(Some(true)),
        _ => None,
    }
}

/// Whether a column is NULL.
pub(crate) fn is_null_at(row: &Row, at: usize) -> bool
    ensures { at < length row.now → column row.now at ≡ Null → IsTrue result }
{
    matches!(row.get_ref(at), Ok(ValueRef::Null))
}

/// The kind that a value names.
pub(crate) fn kind_of(value: ValueRef<'_>) -> Option<MemberKind>
    ensures exact { (kind : MemberKind) → owned value.entry ≡ Int (pos (element_code kind)) → result ≡ Some kind }
    ensures is { IfSome result (λ kind. owned value.entry ≡ Int (pos (element_code kind))) }
{
    match number_of(value) {
        Some(0) => Some(MemberKind::Node),
        Some(1) => Some(MemberKind::Way),
        Some(2) => Some(MemberKind::Relation),
        _ => None,
    }
}

/// The kind that a column names.
pub(crate) fn kind_at(row: &Row, at: usize) -> Option<MemberKind>
    ensures exact { (kind : MemberKind) → at < length row.now → column row.now at ≡ Int (pos (element_code kind)) → result ≡ Some kind }
    ensures is { IfSome result (λ kind. column row.now at ≡ Int (pos (element_code kind))) }
{
    match row.get_ref(at) {
        Ok(value) => kind_of(value),
        Err(_) => None,
    }
}

/// The place of a row's element: the offset of its blob and its position there.
pub(crate) fn place_of(row: &Row) -> Option<(u64, u64)>
    ensures { (off position : ℕ) → 1 < length row.now → column row.now 0 ≡ Int (pos off) → column row.now 1 ≡ Int (pos position) → result ≡ Some (off, position) }
{
    match (number_at(row, 0), number_at(row, 1)) {
        (Some(off), Some(position)) => Some((off, position)),
        _ => None,
    }
}
