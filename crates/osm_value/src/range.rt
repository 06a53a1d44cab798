//! The ranges of an element's numbers and texts.

ghost use Rattle.std.specs.Prelude.{◌≡◌};
ghost use Rattle.osm_value.specs.Ranges.{is_wide, is_version, is_uid, has_no_nul};

/// The greatest id, reference, nanodegree, millisecond or changeset; the least is its negative.
const MAX_WIDE: i64 = (1 << 62) - 1;

/// The greatest user id.
const MAX_UID: i32 = 2_147_483_646;

/// Whether an id, a reference, nanodegrees, milliseconds or a changeset is in its range:
/// -(2^62 - 1) to 2^62 - 1. Differences of two such numbers fit 64 bits.
pub fn wide_in_range(number: i64) -> bool
    ensures { result ≡ is_wide number }
{
    (-MAX_WIDE <= number) & (number <= MAX_WIDE)
}

/// Whether a version is in its range: 0 to 2,147,483,647.
pub fn version_in_range(version: i32) -> bool
    ensures { result ≡ is_version version }
{
    version >= 0
}

/// Whether a user id is in its range: -1 to 2,147,483,646.
pub fn uid_in_range(uid: i32) -> bool
    ensures { result ≡ is_uid uid }
{
    (-1 <= uid) & (uid <= MAX_UID)
}

/// Whether a text holds no U+0000.
pub fn text_in_range(text: &str) -> bool
    ensures { result ≡ has_no_nul text.now }
{
    for byte in text.as_bytes() {
        if *byte == 0 {
            return false;
        }
    }
    true
}
