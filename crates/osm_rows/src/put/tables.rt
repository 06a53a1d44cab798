//! The rows of a blob's elements, in the layout of tables.

ghost use Rattle.std.specs.Prelude.{◌≡◌, ◌++◌, ◌+◌, ◌<◌, ◌≤◌, ◌^◌, pos, map, length, OnOk, IfOk};
ghost use Rattle.osm_rows.specs.Rows.{placed};
ghost use Rattle.osm_rows.specs.TableRows.{lat_of, lon_of, links_of, node_link, parts, element_row, tag_row, link_row, element_rows, tag_rows, link_rows};
ghost use Rattle.osm_rows.specs.Put.WrittenRows.{element_columns, tag_columns, link_columns};

use crate::put::table_row::{ElementRow, LinkRow, TagRow};
use osm_value::{Element, Member, MemberKind};
use pbf_frame::MAX_OFFSET;
use std::alloc::{AllocError, Global};

/// A number as `sqlite` keeps it.
fn signed(number: u64) -> i64
    requires { number < 2 ^ 63 }
    ensures { result ≡ pos number }
{
    number as i64
}

fn lat_of(element: &Element) -> Option<i64>
    ensures { result ≡ lat_of element.now }
{
    match element {
        Element::Node(node) => Some(node.lat()),
        Element::Way(_) | Element::Relation(_) => None,
    }
}

fn lon_of(element: &Element) -> Option<i64>
    ensures { result ≡ lon_of element.now }
{
    match element {
        Element::Node(node) => Some(node.lon()),
        Element::Way(_) | Element::Relation(_) => None,
    }
}

fn element_row<'a>(off: u64, position: u64, element: &Element<'a>) -> ElementRow<'a>
    requires bounds { (off ≤ MAX_OFFSET) × (position < 2 ^ 63) }
    ensures { element_columns result ≡ element_row (off, position, element.now) }
{
    let info = element.info();
    ElementRow {
        off: signed(off),
        position: signed(position),
        kind: element.kind(),
        id: element.id(),
        lat: lat_of(element),
        lon: lon_of(element),
        version: info.version(),
        time: info.time(),
        changeset: info.changeset(),
        uid: info.uid(),
        user: info.user(),
        visible: info.visible(),
    }
}

/// The rows of the table `element` for some elements of the blob at this offset, which is `MAX_OFFSET` at most; the first of
/// them has the position `first` in the blob. The only failure is that memory is refused.
pub fn element_rows<'a>(
    alloc: Global,
    off: u64,
    first: u64,
    elements: &[Element<'a>],
) -> Result<Vec<ElementRow<'a>>, AllocError>
    requires bounds { (off ≤ MAX_OFFSET) × (first + length elements.now ≤ 2 ^ 63) }
    ensures { IfOk result (λ rows. map element_columns rows.items ≡ element_rows (placed off first elements.now)) }
{
    let mut rows = Vec::new(alloc);
    for (index, element) in elements.iter().enumerate() {
        rows.push(element_row(off, first + index as u64, element))?;
    }
    Ok(rows)
}

fn tag_row<'a>(off: u64, position: u64, number: u64, tag: &(&'a str, &'a str)) -> TagRow<'a>
    requires bounds { (off ≤ MAX_OFFSET) × (position < 2 ^ 63) × (number < 2 ^ 63) }
    ensures { tag_columns result ≡ tag_row (record { off = off; position = position; number = number; item = (tag.now.0.now, tag.now.1.now) }) }
{
    TagRow {
        off: signed(off),
        position: signed(position),
        number: signed(number),
        key: tag.0,
        val: tag.1,
    }
}

/// Adds the rows of one element's tags.
fn push_tags<'a>(
    rows: &mut Vec<TagRow<'a>>,
    off: u64,
    position: u64,
    tags: &[(&'a str, &'a str)],
) -> Result<(), AllocError>
    requires bounds { (off ≤ MAX_OFFSET) × (position < 2 ^ 63) }
    ensures { OnOk result (map tag_columns rows.new.items ≡ map tag_columns rows.old.items ++ map tag_row (parts off position 0 (map (λ t. (t.0.now, t.1.now)) tags.now))) }
{
    for (number, tag) in tags.iter().enumerate() {
        rows.push(tag_row(off, position, number as u64, tag))?;
    }
    Ok(())
}

/// The rows of the table `tag` for some elements of the blob at this offset, as `element_rows`.
pub fn tag_rows<'a>(
    alloc: Global,
    off: u64,
    first: u64,
    elements: &[Element<'a>],
) -> Result<Vec<TagRow<'a>>, AllocError>
    requires bounds { (off ≤ MAX_OFFSET) × (first + length elements.now ≤ 2 ^ 63) }
    ensures { IfOk result (λ rows. map tag_columns rows.items ≡ tag_rows (placed off first elements.now)) }
{
    let mut rows = Vec::new(alloc);
    for (index, element) in elements.iter().enumerate() {
        push_tags(&mut rows, off, first + index as u64, element.tags())?;
    }
    Ok(rows)
}

fn node_row<'a>(off: u64, position: u64, number: u64, node: &i64) -> LinkRow<'a>
    requires bounds { (off ≤ MAX_OFFSET) × (position < 2 ^ 63) × (number < 2 ^ 63) }
    ensures { link_columns result ≡ link_row (record { off = off; position = position; number = number; item = node_link node.now }) }
{
    LinkRow {
        off: signed(off),
        position: signed(position),
        number: signed(number),
        kind: MemberKind::Node,
        id: *node,
        role: "",
    }
}

fn member_row<'a>(off: u64, position: u64, number: u64, member: &Member<'a>) -> LinkRow<'a>
    requires bounds { (off ≤ MAX_OFFSET) × (position < 2 ^ 63) × (number < 2 ^ 63) }
    ensures { link_columns result ≡ link_row (record { off = off; position = position; number = number; item = member.now }) }
{
    LinkRow {
        off: signed(off),
        position: signed(position),
        number: signed(number),
        kind: member.kind(),
        id: member.id(),
        role: member.role(),
    }
}

/// Adds the rows of one way's nodes.
fn push_nodes<'a>(
    rows: &mut Vec<LinkRow<'a>>,
    off: u64,
    position: u64,
    refs: &[i64],
) -> Result<(), AllocError>
    requires bounds { (off ≤ MAX_OFFSET) × (position < 2 ^ 63) }
    ensures { OnOk result (map link_columns rows.new.items ≡ map link_columns rows.old.items ++ map link_row (parts off position 0 (map node_link refs.now))) }
{
    for (number, node) in refs.iter().enumerate() {
        rows.push(node_row(off, position, number as u64, node))?;
    }
    Ok(())
}

/// Adds the rows of one relation's members.
fn push_members<'a>(
    rows: &mut Vec<LinkRow<'a>>,
    off: u64,
    position: u64,
    members: &[Member<'a>],
) -> Result<(), AllocError>
    requires bounds { (off ≤ MAX_OFFSET) × (position < 2 ^ 63) }
    ensures { OnOk result (map link_columns rows.new.items ≡ map link_columns rows.old.items ++ map link_row (parts off position 0 members.now)) }
{
    for (number, member) in members.iter().enumerate() {
        rows.push(member_row(off, position, number as u64, member))?;
    }
    Ok(())
}

/// Adds the rows of what one element refers to.
fn push_links<'a>(
    rows: &mut Vec<LinkRow<'a>>,
    off: u64,
    position: u64,
    element: &Element<'a>,
) -> Result<(), AllocError>
    requires bounds { (off ≤ MAX_OFFSET) × (position < 2 ^ 63) }
    ensures { OnOk result (map link_columns rows.new.items ≡ map link_columns rows.old.items ++ map link_row (parts off position 0 (links_of element.now))) }
{
    match element {
        Element::Node(_) => Ok(()),
        Element::Way(way) => push_nodes(rows, off, position, way.refs()),
        Element::Relation(relation) => push_members(rows, off, position, relation.members()),
    }
}

/// The rows of the table `link` for some elements of the blob at this offset, as `element_rows`.
pub fn link_rows<'a>(
    alloc: Global,
    off: u64,
    first: u64,
    elements: &[Element<'a>],
) -> Result<Vec<LinkRow<'a>>, AllocError>
    requires bounds { (off ≤ MAX_OFFSET) × (first + length elements.now ≤ 2 ^ 63) }
    ensures { IfOk result (λ rows. map link_columns rows.items ≡ link_rows (placed off first elements.now)) }
{
    let mut rows = Vec::new(alloc);
    for (index, element) in elements.iter().enumerate() {
        push_links(&mut rows, off, first + index as u64, element)?;
    }
    Ok(rows)
}
