//! Columns that have one number for each element.

ghost use Rattle.std.specs.Prelude.{◌≡◌, ◌+◌, ◌≤◌, List, length, map};
ghost use Rattle.osm_value.specs.declared.element.Element.{Element};
ghost use Rattle.osm_value.specs.declared.element.Element.TheVariants as elements;
ghost use Rattle.osm_value.specs.Value.{NodeValue};
ghost use Rattle.osm_block.specs.Fields.{context_of};
ghost use Rattle.osm_block.specs.Groups.{AreNodesOf, GroupHolds, GroupsHold};
ghost use Rattle.osm_columns.specs.Columns.{over, Adds};

use crate::items::put_item;
use osm_block::{BlockGroups, DenseArrays, GroupElements, Scale};
use osm_value::Element;

/// A column that has one number for each element.
pub(crate) trait ElementColumn {
    type Item: Copy;

    /// What the column has of an element.
    ghost item: { Element → Self.Item };

    fn item_of(element: &Element) -> Self::Item
        ensures { result ≡ item element.now };

    /// Writes what the column has of dense nodes, behind so many items.
    fn put_dense(scale: &Scale, arrays: &DenseArrays, at: usize, array: &mut [Self::Item])
        requires held { (ns : List NodeValue) × AreNodesOf (context_of scale.now) arrays.now ns }
        requires room { at + length arrays.now.ids.items ≤ length array.old }
        ensures { (ns : List NodeValue) → AreNodesOf (context_of scale.now) arrays.now ns → Adds at (map (λ n. item (elements.Node n)) ns) array.old array.new };
}

fn put_listed<C: ElementColumn>(elements: &[Element], at: usize, array: &mut [C::Item])
    requires { at + length elements.now ≤ length array.old }
    ensures { Adds at (map C.item elements.now) array.old array.new }
{
    let mut place = at;
    for element in elements {
        put_item(C::item_of(element), place, array);
        place += 1;
    }
}

/// Writes what the column has of a group, behind so many items, and gives how many there are then.
fn put_group<C: ElementColumn>(
    scale: &Scale,
    group: &GroupElements,
    at: usize,
    array: &mut [C::Item],
) -> usize
    requires { (es : List Element) × GroupHolds (context_of scale.now) es group.now × (at + length es ≤ length array.old) }
    ensures count { (es : List Element) → GroupHolds (context_of scale.now) es group.now → result ≡ at + length es }
    ensures column { (es : List Element) → GroupHolds (context_of scale.now) es group.now → Adds at (map C.item es) array.old array.new }
{
    match group {
        GroupElements::Listed(elements) => {
            put_listed::<C>(elements, at, array);
            at + elements.len()
        }
        GroupElements::Dense(arrays) => {
            C::put_dense(scale, arrays, at, array);
            at + arrays.ids.len()
        }
    }
}

/// Writes the column of all elements.
pub(crate) fn put_element_column<C: ElementColumn>(groups: &BlockGroups, array: &mut [C::Item])
    requires { (es : List Element) × GroupsHold groups.now es × (length es ≤ length array.old) }
    ensures { (es : List Element) → GroupsHold groups.now es → array.new ≡ over (map C.item es) array.old }
{
    let mut at = 0;
    for group in &groups.groups {
        at = put_group::<C>(&groups.scale, group, at, array);
    }
}
