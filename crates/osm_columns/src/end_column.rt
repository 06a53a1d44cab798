//! Columns that say where the tags, the references or the members of each element end.

ghost use Rattle.std.specs.Prelude.{◌≡◌, ℕ, ◌+◌, ◌<◌, ◌≤◌, ◌^◌, List, length, map, sum};
ghost use Rattle.osm_value.specs.declared.element.Element.{Element};
ghost use Rattle.osm_value.specs.declared.element.Element.TheVariants as elements;
ghost use Rattle.osm_value.specs.Value.{NodeValue};
ghost use Rattle.osm_block.specs.Fields.{context_of};
ghost use Rattle.osm_block.specs.Groups.{AreNodesOf, GroupHolds, GroupsHold};
ghost use Rattle.osm_columns.specs.Lists.{sums_from};
ghost use Rattle.osm_columns.specs.Columns.{over, Adds};

use crate::items::put_item;
use osm_block::{BlockGroups, DenseArrays, GroupElements, Scale};
use osm_value::Element;

/// A column that says where something ends that each element has some of.
pub(crate) trait EndColumn {
    /// How many of it an element has.
    ghost count: { Element → ℕ };

    fn count_of(element: &Element) -> usize
        ensures { result ≡ count element.now };

    /// Writes where those of dense nodes end, behind so many items and such an end, and gives the last end.
    fn put_dense(scale: &Scale, arrays: &DenseArrays, at: usize, end: u64, ends: &mut [u64]) -> u64
        requires held { (ns : List NodeValue) × AreNodesOf (context_of scale.now) arrays.now ns × (end + sum (map (λ n. count (elements.Node n)) ns) < 2 ^ 64) }
        requires room { at + length arrays.now.ids.items ≤ length ends.old }
        ensures end { (ns : List NodeValue) → AreNodesOf (context_of scale.now) arrays.now ns → result ≡ end + sum (map (λ n. count (elements.Node n)) ns) }
        ensures column { (ns : List NodeValue) → AreNodesOf (context_of scale.now) arrays.now ns → Adds at (sums_from end (map (λ n. count (elements.Node n)) ns)) ends.old ends.new };
}

fn put_listed<E: EndColumn>(elements: &[Element], at: usize, end: u64, ends: &mut [u64]) -> u64
    requires fits { end + sum (map E.count elements.now) < 2 ^ 64 }
    requires room { at + length elements.now ≤ length ends.old }
    ensures end { result ≡ end + sum (map E.count elements.now) }
    ensures column { Adds at (sums_from end (map E.count elements.now)) ends.old ends.new }
{
    let mut place = at;
    let mut last = end;
    for element in elements {
        last += E::count_of(element) as u64;
        put_item(last, place, ends);
        place += 1;
    }
    last
}

/// Writes the ends of a group, behind so many items and such an end, and gives how many items there are then, and the last end.
fn put_group<E: EndColumn>(
    scale: &Scale,
    group: &GroupElements,
    at: usize,
    end: u64,
    ends: &mut [u64],
) -> (usize, u64)
    requires { (es : List Element) × GroupHolds (context_of scale.now) es group.now × (at + length es ≤ length ends.old) × (end + sum (map E.count es) < 2 ^ 64) }
    ensures count { (es : List Element) → GroupHolds (context_of scale.now) es group.now → result.0 ≡ at + length es }
    ensures end { (es : List Element) → GroupHolds (context_of scale.now) es group.now → result.1 ≡ end + sum (map E.count es) }
    ensures column { (es : List Element) → GroupHolds (context_of scale.now) es group.now → Adds at (sums_from end (map E.count es)) ends.old ends.new }
{
    match group {
        GroupElements::Listed(elements) => {
            let last = put_listed::<E>(elements, at, end, ends);
            (at + elements.len(), last)
        }
        GroupElements::Dense(arrays) => {
            let last = E::put_dense(scale, arrays, at, end, ends);
            (at + arrays.ids.len(), last)
        }
    }
}

/// Writes the ends of all elements.
pub(crate) fn put_end_column<E: EndColumn>(groups: &BlockGroups, ends: &mut [u64])
    requires { (es : List Element) × GroupsHold groups.now es × (length es ≤ length ends.old) × (sum (map E.count es) < 2 ^ 64) }
    ensures { (es : List Element) → GroupsHold groups.now es → ends.new ≡ over (sums_from 0 (map E.count es)) ends.old }
{
    let mut at = 0;
    let mut end = 0;
    for group in &groups.groups {
        (at, end) = put_group::<E>(&groups.scale, group, at, end, ends);
    }
}
