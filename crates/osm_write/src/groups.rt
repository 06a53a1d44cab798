//! Groups: maximal runs of elements that may stand in one message.

ghost use Rattle.std.specs.Prelude.{◌≡◌, ◌<◌, ◌≤◌, ◌∷◌, length, take, drop};
ghost use Rattle.osm_write.specs.Canon.{same, same_present, fit_together, groups_of};

use osm_value::{Element, Info};

fn are_same(left: bool, right: bool) -> bool
    ensures { result ≡ same left right }
{
    if left { right } else { !right }
}

fn same_present(left: &Info, right: &Info) -> bool
    ensures { result ≡ same_present left.now right.now }
{
    let version = are_same(left.version().is_some(), right.version().is_some());
    let time = are_same(left.time().is_some(), right.time().is_some());
    let changeset = are_same(left.changeset().is_some(), right.changeset().is_some());
    let uid = are_same(left.uid().is_some(), right.uid().is_some());
    let user = are_same(left.user().is_some(), right.user().is_some());
    let visible = are_same(left.visible().is_some(), right.visible().is_some());
    version & time & changeset & uid & user & visible
}

/// They may stand in one group.
fn fit_together(left: &Element, right: &Element) -> bool
    ensures { result ≡ fit_together left.now right.now }
{
    match left {
        Element::Node(left) => match right {
            Element::Node(right) => same_present(left.info(), right.info()),
            _ => false,
        },
        Element::Way(_) => matches!(right, Element::Way(_)),
        Element::Relation(_) => matches!(right, Element::Relation(_)),
    }
}

/// How many elements stand in the first group.
pub(crate) fn run_len(elements: &[Element]) -> usize
    requires { 0 < length elements.now }
    ensures some { 0 < result }
    ensures within { result ≤ length elements.now }
    ensures exact { groups_of elements.now ≡ take result elements.now ∷ groups_of (drop result elements.now) }
{
    for end in 1..elements.len() {
        if !fit_together(&elements[end - 1], &elements[end]) {
            return end;
        }
    }
    elements.len()
}
