//! The counts of elements.

ghost use Rattle.std.specs.Prelude.{◌≡◌, ℤ, List, [], ◌∷◌, ◌++◌, option_to_list, cond};
ghost use Rattle.pbfrow_reading.specs.Checking.{is_node, is_way, is_relation};
ghost use Rattle.pbfrow_counts.specs.Counting.{AreCounts, CountsMore, IsNewest, IsOldest, links_in};

use osm_value::Element;

/// How many elements there are of each kind, how many tags and links they have together, and the times of the oldest and
/// the newest. A count stops at 2^64 - 1.
#[derive(Clone, Copy, Debug, PartialEq, Eq)]
pub struct ElementCounts {
    pub nodes: u64,
    pub ways: u64,
    pub relations: u64,
    pub tags: u64,
    /// The nodes of ways, and the members of relations.
    pub links: u64,
    /// The least time of an element, in milliseconds since 1970, if one has a time.
    pub oldest: Option<i64>,
    /// The greatest time of an element, in milliseconds since 1970, if one has a time.
    pub newest: Option<i64>,
}

impl ElementCounts {
    /// The counts of no elements.
    pub fn none() -> ElementCounts
        ensures { AreCounts [] result }
    {
        ElementCounts {
            nodes: 0,
            ways: 0,
            relations: 0,
            tags: 0,
            links: 0,
            oldest: None,
            newest: None,
        }
    }

    /// Counts more elements.
    pub fn add(&mut self, elements: &[Element])
        ensures { CountsMore self.old elements.now self.new }
    {
        for element in elements {
            self.add_one(element);
        }
    }

    fn add_one(&mut self, element: &Element)
        ensures { CountsMore self.old (element.now ∷ []) self.new }
    {
        let time = element.info().time();
        self.nodes = self.nodes.saturating_add(one_if(is_node(element)));
        self.ways = self.ways.saturating_add(one_if(is_way(element)));
        self.relations = self.relations.saturating_add(one_if(is_relation(element)));
        self.tags = self.tags.saturating_add(element.tags().len() as u64);
        self.links = self.links.saturating_add(links_in(element));
        self.oldest = older(self.oldest, time);
        self.newest = newer(self.newest, time);
    }
}

fn one_if(counts: bool) -> u64
    ensures { result ≡ cond counts 1 0 }
{
    if counts { 1 } else { 0 }
}

fn is_node(element: &Element) -> bool
    ensures { result ≡ is_node element.now }
{
    match element {
        Element::Node(_) => true,
        _ => false,
    }
}

fn is_way(element: &Element) -> bool
    ensures { result ≡ is_way element.now }
{
    match element {
        Element::Way(_) => true,
        _ => false,
    }
}

fn is_relation(element: &Element) -> bool
    ensures { result ≡ is_relation element.now }
{
    match element {
        Element::Relation(_) => true,
        _ => false,
    }
}

/// How many nodes a way has, or members a relation.
fn links_in(element: &Element) -> u64
    ensures { result ≡ links_in element.now }
{
    match element {
        Element::Node(_) => 0,
        Element::Way(way) => way.refs().len() as u64,
        Element::Relation(relation) => relation.members().len() as u64,
    }
}

/// The lesser of two times, of which either may not be there.
fn older(oldest: Option<i64>, time: Option<i64>) -> Option<i64>
    ensures { (times : List ℤ) → IsOldest times oldest → IsOldest (times ++ option_to_list time) result }
{
    let Some(time) = time else {
        return oldest;
    };
    match oldest {
        None => Some(time),
        Some(oldest) => {
            if time < oldest {
                Some(time)
            } else {
                Some(oldest)
            }
        }
    }
}

/// The greater of two times, of which either may not be there.
fn newer(newest: Option<i64>, time: Option<i64>) -> Option<i64>
    ensures { (times : List ℤ) → IsNewest times newest → IsNewest (times ++ option_to_list time) result }
{
    let Some(time) = time else {
        return newest;
    };
    match newest {
        None => Some(time),
        Some(newest) => {
            if newest < time {
                Some(time)
            } else {
                Some(newest)
            }
        }
    }
}
