//! The element that `find` looks for.

ghost use Rattle.std.specs.Prelude.{◌≡◌, ◌≤◌, IfSome};
ghost use Rattle.pbfrow_words.specs.Element.{Names, element_at, kind_at, magnitude_at};

use osm_value::MemberKind;

/// The greatest id: 2^62 - 1.
const MAX_ID: u64 = 4_611_686_018_427_387_903;

fn kind_at(letter: u8) -> Option<MemberKind>
    ensures { result ≡ kind_at letter }
{
    match letter {
        b'n' => Some(MemberKind::Node),
        b'w' => Some(MemberKind::Way),
        b'r' => Some(MemberKind::Relation),
        _ => None,
    }
}

/// The number that the digits write, up to the greatest id.
fn magnitude_at(digits: &[u8]) -> Option<u64>
    ensures value { result ≡ magnitude_at digits.now }
    ensures small { IfSome result (λ n. n ≤ 4611686018427387903) }
{
    if digits.is_empty() {
        return None;
    }
    let mut value: u64 = 0;
    for digit in digits {
        if *digit < b'0' || *digit > b'9' {
            return None;
        }
        value = value.checked_mul(10)?.checked_add((*digit - b'0') as u64)?;
        if value > MAX_ID {
            return None;
        }
    }
    Some(value)
}

fn element_at(text: &[u8]) -> Option<(MemberKind, i64)>
    ensures { result ≡ element_at text.now }
{
    let (letter, number) = text.split_first()?;
    let kind = kind_at(*letter)?;
    match number {
        [b'-', digits @ ..] => Some((kind, -(magnitude_at(digits)? as i64))),
        _ => Some((kind, magnitude_at(number)? as i64)),
    }
}

/// The element that a text names: n, w or r, then optionally `-`, then one or more digits. The id is from -(2^62 - 1) to
/// 2^62 - 1. None if the text doesn't name an element.
pub fn read_element(text: &str) -> Option<(MemberKind, i64)>
    ensures named { IfSome result (λ e. Names e.0 e.1 text.now) }
    ensures exact { result ≡ element_at text.now }
{
    element_at(text.as_bytes())
}
