//! Elements, read from rows of `element`, `tag` and `link`.

ghost use Rattle.std.specs.Prelude.{◌≡◌, ◌↔◌, ◌++◌, ◌<◌, ℕ, List, length, [], map, All, Some, true, false, IfOk, IfErr, IsTrue, IsSomeAnd, IfSome};
ghost use Rattle.std.specs.List.{AllByRecursion};
ghost use Rattle.sqlite.specs.declared.types.Value.TheVariants.{Null};
ghost use Rattle.sqlite.specs.Order.{Row as SqlRow, column};
ghost use Rattle.osm_value.specs.declared.element.Element.TheVariants as elements;
ghost use Rattle.osm_value.specs.Elements.{IsElement};
ghost use Rattle.osm_value.specs.Ranges.{IsWide, IsMember, IsNode, IsWay, IsRelation, AreTags};
ghost use Rattle.osm_value.specs.Value.{Text, MemberValue, NodeValue, WayValue, RelationValue};
ghost use Rattle.osm_rows.specs.Load.Numbering.{AreNumbered};
ghost use Rattle.osm_rows.specs.Load.TableElements.{StandsAt, StandsApart, IsTagPart, IsMemberPart, IsNodePart, item_of};
ghost use Rattle.osm_rows.specs.Load.TableAnswers.{AreRowsOf};
ghost use Rattle.osm_rows.specs.TableRows.{Part, element_row, tag_row, tags_at, link_row, links_at};
ghost use Rattle.osm_rows.specs.Rows.{Placed};

use crate::StoreFault;
use crate::load::tables::TableRows;
use crate::load::tables::part_row::{PartRow, are_parts_numbered};
use crate::load::tables::parts::{info_of, member_of, tag_of};
use crate::load::values::{is_null_at, kind_at, place_of, wide_at};
use osm_value::{Element, Member, MemberKind, Node, Relation, Way};
use sqlite::Row;
use std::alloc::{AllocError, Global};

/// Whether a row is of the element at this place.
fn stands_at(row: &PartRow, off: u64, position: u64) -> bool
    ensures here { StandsAt off position row.now → result ≡ true }
    ensures elsewhere { StandsApart off position row.now → result ≡ false }
{
    match row.place() {
        Some((row_off, row_position)) => row_off == off && row_position == position,
        None => false,
    }
}

/// The rows in front that are of the element at this place, and the rows after them.
fn split_at_place(rows: &[PartRow], off: u64, position: u64) -> (&[PartRow], &[PartRow])
    ensures { (own others : List SqlRow) → All (StandsAt off position) own → All (StandsApart off position) others → rows.now ≡ own ++ others
        → (result.0.now ≡ own) × (result.1.now ≡ others) }
{
    for (number, row) in rows.iter().enumerate() {
        if !stands_at(row, off, position) {
            return rows.split_at(number);
        }
    }
    (rows, &[])
}

/// The tags that rows stand for; None where one of them is no tag's.
fn tags_of<'a>(
    alloc: Global,
    rows: &'a [PartRow],
) -> Result<Option<Vec<(&'a str, &'a str)>>, AllocError>
    ensures exact { (parts : List (Part (Text × Text))) → All IsTagPart parts → rows.now ≡ map tag_row parts → IfOk result (λ found. IsSomeAnd found (λ tags. map (λ t. (t.0.now, t.1.now)) tags.items ≡ map item_of parts)) }
    ensures in_range { IfOk result (λ found. IfSome found (λ tags. AreTags (map (λ t. (t.0.now, t.1.now)) tags.items))) }
{
    let mut tags = Vec::with_capacity(alloc, rows.len())?;
    for row in rows {
        match tag_of(row) {
            Some(tag) => tags.push(tag)?,
            None => return Ok(None),
        }
    }
    Ok(Some(tags))
}

/// The members that rows stand for; None where one of them is no member's.
fn members_of<'a>(alloc: Global, rows: &'a [PartRow]) -> Result<Option<Vec<Member<'a>>>, AllocError>
    ensures exact { (parts : List (Part MemberValue)) → All IsMemberPart parts → rows.now ≡ map link_row parts → IfOk result (λ found. IsSomeAnd found (λ members. members.items ≡ map item_of parts)) }
    ensures in_range { IfOk result (λ found. IfSome found (λ members. AllByRecursion IsMember members.items)) }
{
    let mut members = Vec::with_capacity(alloc, rows.len())?;
    for row in rows {
        match member_of(row) {
            Some(member) => members.push(member)?,
            None => return Ok(None),
        }
    }
    Ok(Some(members))
}

/// The node of a way that a row stands for: a member of this kind, without a role.
fn node_at(row: &PartRow) -> Option<i64>
    ensures exact { (p : Part MemberValue) → IsNodePart p → row.now ≡ link_row p → result ≡ Some p.item.id }
    ensures in_range { IfSome result IsWide }
{
    let member = member_of(row)?;
    if member.kind() == MemberKind::Node && member.role().is_empty() {
        Some(member.id())
    } else {
        None
    }
}

/// The nodes of a way that rows stand for; None where one of them is no such node's.
fn refs_of(alloc: Global, rows: &[PartRow]) -> Result<Option<Vec<i64>>, AllocError>
    ensures exact { (parts : List (Part MemberValue)) → All IsNodePart parts → rows.now ≡ map link_row parts → IfOk result (λ found. IsSomeAnd found (λ refs. refs.items ≡ map (λ p. p.item.id) parts)) }
    ensures in_range { IfOk result (λ found. IfSome found (λ refs. AllByRecursion IsWide refs.items)) }
{
    let mut refs = Vec::with_capacity(alloc, rows.len())?;
    for row in rows {
        match node_at(row) {
            Some(node) => refs.push(node)?,
            None => return Ok(None),
        }
    }
    Ok(Some(refs))
}

/// The node that a row stands for, with these tags; a node refers to nothing.
fn node_of<'a>(
    row: &'a Row,
    links: &[PartRow],
    tags: Vec<(&'a str, &'a str)>,
) -> Option<Element<'a>>
    requires in_range { AreTags (map (λ t. (t.0.now, t.1.now)) tags.items) }
    ensures { (off position : ℕ) (node : NodeValue) → IsNode node → row.now ≡ element_row (off, position, elements.Node node) → links.now ≡ []
        → map (λ t. (t.0.now, t.1.now)) tags.entry.items ≡ node.tags → result ≡ Some (elements.Node node) }
{
    let id = wide_at(row, 3)?;
    let lat = wide_at(row, 4)?;
    let lon = wide_at(row, 5)?;
    let info = info_of(row)?;
    if links.is_empty() {
        Some(Element::Node(Node::new(id, lat, lon, tags, info)))
    } else {
        None
    }
}

/// Whether a row has neither latitude nor longitude.
fn has_no_place(row: &Row) -> bool
    ensures { 5 < length row.now → column row.now 4 ≡ Null → column row.now 5 ≡ Null → result ≡ true }
{
    is_null_at(row, 4) && is_null_at(row, 5)
}

/// The way that a row stands for, through these nodes and with these tags.
fn way_of<'a>(row: &'a Row, refs: Vec<i64>, tags: Vec<(&'a str, &'a str)>) -> Option<Element<'a>>
    requires refs { AllByRecursion IsWide refs.items }
    requires in_range { AreTags (map (λ t. (t.0.now, t.1.now)) tags.items) }
    ensures { (off position : ℕ) (way : WayValue) → IsWay way → row.now ≡ element_row (off, position, elements.Way way) → refs.items ≡ way.refs
        → map (λ t. (t.0.now, t.1.now)) tags.entry.items ≡ way.tags → result ≡ Some (elements.Way way) }
{
    let id = wide_at(row, 3)?;
    let info = info_of(row)?;
    if has_no_place(row) {
        Some(Element::Way(Way::new(id, refs, tags, info)))
    } else {
        None
    }
}

/// The relation that a row stands for, with these members and tags.
fn relation_of<'a>(
    row: &'a Row,
    members: Vec<Member<'a>>,
    tags: Vec<(&'a str, &'a str)>,
) -> Option<Element<'a>>
    requires members { AllByRecursion IsMember members.items }
    requires in_range { AreTags (map (λ t. (t.0.now, t.1.now)) tags.items) }
    ensures { (off position : ℕ) (relation : RelationValue) → IsRelation relation → row.now ≡ element_row (off, position, elements.Relation relation) → members.entry.items ≡ relation.members
        → map (λ t. (t.0.now, t.1.now)) tags.entry.items ≡ relation.tags → result ≡ Some (elements.Relation relation) }
{
    let id = wide_at(row, 3)?;
    let info = info_of(row)?;
    if has_no_place(row) {
        Some(Element::Relation(Relation::new(id, members, tags, info)))
    } else {
        None
    }
}

/// Whether an element's tags and its links are each numbered 0, 1, 2, .. in their order.
fn are_in_order(tags: &[PartRow], links: &[PartRow]) -> bool
    ensures { IsTrue result ↔ (AreNumbered 2 tags.now × AreNumbered 2 links.now) }
{
    are_parts_numbered(tags) && are_parts_numbered(links)
}

/// The element that a row stands for, with the rows of its tags and links.
fn element_of<'a>(
    alloc: Global,
    row: &'a Row,
    tags: &'a [PartRow],
    links: &'a [PartRow],
) -> Result<Option<Element<'a>>, AllocError>
    ensures { (p : Placed) → IsElement p.2 → row.now ≡ element_row p → tags.now ≡ map tag_row (tags_at p) → links.now ≡ map link_row (links_at p) → IfOk result (λ found. found ≡ Some p.2) }
{
    if !are_in_order(tags, links) {
        return Ok(None);
    }
    let Some(tags) = tags_of(alloc, tags)? else {
        return Ok(None);
    };
    match kind_at(row, 2) {
        Some(MemberKind::Node) => Ok(node_of(row, links, tags)),
        Some(MemberKind::Way) => match refs_of(alloc, links)? {
            Some(refs) => Ok(way_of(row, refs, tags)),
            None => Ok(None),
        },
        Some(MemberKind::Relation) => match members_of(alloc, links)? {
            Some(members) => Ok(relation_of(row, members, tags)),
            None => Ok(None),
        },
        None => Ok(None),
    }
}

impl TableRows {
    /// The elements, each after the offset of its blob and its position there; None where a row is of no element.
    pub(crate) fn placed(
        &self,
        alloc: Global,
    ) -> Result<Option<Vec<(u64, u64, Element<'_>)>>, AllocError>
        ensures { (placed : List Placed) → AreRowsOf self.now placed → IfOk result (λ found. IsSomeAnd found (λ elements. elements.items ≡ placed)) }
    {
        let mut elements = Vec::with_capacity(alloc, self.elements.len())?;
        let mut tags: &[PartRow] = &self.tags;
        let mut links: &[PartRow] = &self.links;
        for row in &self.elements {
            let Some((off, position)) = place_of(row) else {
                return Ok(None);
            };
            let (own_tags, other_tags) = split_at_place(tags, off, position);
            let (own_links, other_links) = split_at_place(links, off, position);
            let Some(element) = element_of(alloc, row, own_tags, own_links)? else {
                return Ok(None);
            };
            elements.push((off, position, element))?;
            tags = other_tags;
            links = other_links;
        }
        if tags.is_empty() && links.is_empty() {
            Ok(Some(elements))
        } else {
            Ok(None)
        }
    }

    /// Whether each row is of an element.
    pub(crate) fn check(&self, alloc: Global) -> Result<(), StoreFault>
        ensures { (placed : List Placed) → AreRowsOf self.now placed → IfErr result (λ fault. fault ≡ StoreFault.Memory) }
    {
        match self.placed(alloc)? {
            Some(_) => Ok(()),
            None => Err(StoreFault::NotThisStore(None)),
        }
    }

    /// The elements, each after its place; none where a row is of no element.
    pub(crate) fn matches(&self, alloc: Global) -> Result<Vec<(u64, u64, Element<'_>)>, AllocError>
        ensures { (placed : List Placed) → AreRowsOf self.now placed → IfOk result (λ found. found.items ≡ placed) }
    {
        match self.placed(alloc)? {
            Some(elements) => Ok(elements),
            None => Ok(Vec::new(alloc)),
        }
    }
}
