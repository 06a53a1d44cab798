//! Columns of references and members, which only ways and relations have.

ghost use Rattle.std.specs.Prelude.{◌≡◌, ◌+◌, ◌≤◌, [], List, length, map};
ghost use Rattle.osm_value.specs.declared.element.Element.{Element};
ghost use Rattle.osm_value.specs.declared.element.Element.TheVariants as elements;
ghost use Rattle.osm_value.specs.Value.{NodeValue};
ghost use Rattle.osm_block.specs.Message.{Context};
ghost use Rattle.osm_block.specs.Groups.{GroupHolds, GroupsHold};
ghost use Rattle.osm_columns.specs.Lists.{joined};
ghost use Rattle.osm_columns.specs.Columns.{over, Adds};

use osm_block::{BlockGroups, GroupElements};
use osm_value::Element;

/// A column of what each element has some of, and nodes none.
pub(crate) trait ListColumn {
    type Item: Copy;

    /// The items of an element.
    ghost items: { Element → List Self.Item };

    /// Writes the items of an element behind so many others, and gives how many there are then.
    fn put_of(element: &Element, at: usize, array: &mut [Self::Item]) -> usize
        requires { at + length (items element.now) ≤ length array.old }
        ensures count { result ≡ at + length (items element.now) }
        ensures column { Adds at (items element.now) array.old array.new };

    ghost nodes_have_none: { (n : NodeValue) → items (elements.Node n) ≡ [] };
}

fn put_listed<L: ListColumn>(elements: &[Element], at: usize, array: &mut [L::Item]) -> usize
    requires { at + length (joined (map L.items elements.now)) ≤ length array.old }
    ensures count { result ≡ at + length (joined (map L.items elements.now)) }
    ensures column { Adds at (joined (map L.items elements.now)) array.old array.new }
{
    let mut end = at;
    for element in elements {
        end = L::put_of(element, end, array);
    }
    end
}

/// Writes the items of a group behind so many others, and gives how many there are then.
fn put_group<L: ListColumn>(group: &GroupElements, at: usize, array: &mut [L::Item]) -> usize
    requires { (es : List Element) × (at + length (joined (map L.items es)) ≤ length array.old) × ((b : Context) × GroupHolds b es group.now) }
    ensures count { (b : Context) (es : List Element) → GroupHolds b es group.now → result ≡ at + length (joined (map L.items es)) }
    ensures column { (b : Context) (es : List Element) → GroupHolds b es group.now → Adds at (joined (map L.items es)) array.old array.new }
{
    match group {
        GroupElements::Listed(elements) => put_listed::<L>(elements, at, array),
        GroupElements::Dense(_) => at,
    }
}

/// Writes the items of all elements.
pub(crate) fn put_list_column<L: ListColumn>(groups: &BlockGroups, array: &mut [L::Item])
    requires { (es : List Element) × GroupsHold groups.now es × (length (joined (map L.items es)) ≤ length array.old) }
    ensures { (es : List Element) → GroupsHold groups.now es → array.new ≡ over (joined (map L.items es)) array.old }
{
    let mut at = 0;
    for group in &groups.groups {
        at = put_group::<L>(group, at, array);
    }
}
