//! How many rows the tables of a store have.

ghost use Rattle.std.specs.Prelude.{◌≡◌, ◌↔◌, ◌++◌, ◌∷◌, [], ◌<◌, ◌-◌, ◌^◌, length, List, IsTrue};
ghost use Rattle.osm_value.specs.declared.element.Element.{Element as ElementValue};
ghost use Rattle.osm_rows.specs.Audit.{AreCountable, capped, counts_of, tags_in, links_in};
ghost use Rattle.osm_rows.specs.TableRows.{links_of};

use osm_value::Element;

/// The most rows that SQL counts.
const MOST_ROWS: u64 = 9_223_372_036_854_775_807;

/// How many rows the tables of a store have.
#[derive(Clone, Copy, Debug, PartialEq, Eq)]
pub struct Counts {
    /// Blobs.
    pub blobs: u64,
    /// Elements.
    pub elements: u64,
    /// Tags of elements; the layout of bodies has no rows of them.
    pub tags: u64,
    /// Nodes of ways and members of relations; the layout of bodies has no rows of them.
    pub links: u64,
}

impl Counts {
    /// Those of no blob.
    pub const NONE: Counts = Counts {
        blobs: 0,
        elements: 0,
        tags: 0,
        links: 0,
    };

    /// Counts the rows of a blob with these elements. A count stops at 2^64 - 1.
    pub fn add(&mut self, elements: &[Element])
        ensures { (blobs : List (List ElementValue)) → self.old ≡ counts_of blobs → self.new ≡ counts_of (blobs ++ elements.now ∷ []) }
    {
        self.blobs = self.blobs.saturating_add(1);
        self.elements = self.elements.saturating_add(elements.len() as u64);
        self.tags = self.tags.saturating_add(tags_in(elements));
        self.links = self.links.saturating_add(links_in(elements));
    }

    /// Whether SQL can count so many rows: of each table fewer than 2^63 - 1.
    pub fn are_countable(&self) -> bool
        ensures { IsTrue result ↔ AreCountable self.now }
    {
        let held = are_few(self.blobs, self.elements);
        let parts = are_few(self.tags, self.links);
        held && parts
    }
}

/// Whether SQL can count so many rows, in either of two tables.
fn are_few(one: u64, other: u64) -> bool
    ensures { IsTrue result ↔ ((one < 2 ^ 63 - 1) × (other < 2 ^ 63 - 1)) }
{
    one < MOST_ROWS && other < MOST_ROWS
}

/// How many tags elements have, up to 2^64 - 1.
fn tags_in(elements: &[Element]) -> u64
    ensures { result ≡ capped (tags_in elements.now) }
{
    let mut count = 0u64;
    for element in elements {
        count = count.saturating_add(element.tags().len() as u64);
    }
    count
}

/// How many elements one refers to.
fn links_of(element: &Element) -> u64
    ensures { result ≡ length (links_of element.now) }
{
    match element {
        Element::Node(_) => 0,
        Element::Way(way) => way.refs().len() as u64,
        Element::Relation(relation) => relation.members().len() as u64,
    }
}

/// How many elements these refer to, up to 2^64 - 1.
fn links_in(elements: &[Element]) -> u64
    ensures { result ≡ capped (links_in elements.now) }
{
    let mut count = 0u64;
    for element in elements {
        count = count.saturating_add(links_of(element));
    }
    count
}
