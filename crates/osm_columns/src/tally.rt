//! How many elements there are, by their kinds, and how many references.

ghost use Rattle.std.specs.Prelude.{List, IfSome};
ghost use Rattle.osm_value.specs.declared.element.Element.{Element};
ghost use Rattle.osm_block.specs.Message.{Context};
ghost use Rattle.osm_block.specs.Groups.{GroupHolds, GroupsHold};
ghost use Rattle.osm_columns.specs.Tally.{AreTallied, Added};

use crate::indexes::refs_of;
use osm_block::{BlockGroups, GroupElements};
use osm_value::Element;

/// How many elements there are, by their kinds, and how many references.
#[derive(Drop)]
pub(crate) struct Tally {
    pub(crate) elements: u64,
    pub(crate) nodes: u64,
    pub(crate) ways: u64,
    pub(crate) relations: u64,
    pub(crate) refs: u64,
}

fn tally_listed(elements: &[Element]) -> Option<Tally>
    ensures { IfSome result (λ t. AreTallied t elements.now) }
{
    let mut nodes = 0;
    let mut ways = 0;
    let mut relations = 0;
    let mut refs: u64 = 0;
    for element in elements {
        match element {
            Element::Node(_) => nodes += 1,
            Element::Way(_) => ways += 1,
            Element::Relation(_) => relations += 1,
        }
        refs = refs.checked_add(refs_of(element).len() as u64)?;
    }
    Some(Tally {
        elements: elements.len() as u64,
        nodes,
        ways,
        relations,
        refs,
    })
}

fn tally_group(group: &GroupElements) -> Option<Tally>
    ensures { IfSome result (λ t. (b : Context) (es : List Element) → GroupHolds b es group.now → AreTallied t es) }
{
    match group {
        GroupElements::Listed(elements) => tally_listed(elements),
        GroupElements::Dense(arrays) => {
            let nodes = arrays.ids.len() as u64;
            Some(Tally {
                elements: nodes,
                nodes,
                ways: 0,
                relations: 0,
                refs: 0,
            })
        }
    }
}

/// Both together; none where a count is 2^64 or more.
fn added(one: &Tally, other: &Tally) -> Option<Tally>
    ensures { IfSome result (Added one.now other.now) }
{
    Some(Tally {
        elements: one.elements.checked_add(other.elements)?,
        nodes: one.nodes.checked_add(other.nodes)?,
        ways: one.ways.checked_add(other.ways)?,
        relations: one.relations.checked_add(other.relations)?,
        refs: one.refs.checked_add(other.refs)?,
    })
}

/// The counts of all elements; none where one is 2^64 or more.
pub(crate) fn tally_of(groups: &BlockGroups) -> Option<Tally>
    ensures { IfSome result (λ t. (es : List Element) → GroupsHold groups.now es → AreTallied t es) }
{
    let mut tally = Tally {
        elements: 0,
        nodes: 0,
        ways: 0,
        relations: 0,
        refs: 0,
    };
    for group in &groups.groups {
        let more = tally_group(group)?;
        tally = added(&tally, &more)?;
    }
    Some(tally)
}
