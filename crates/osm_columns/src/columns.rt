//! The arrays of a caller.

ghost use Rattle.std.specs.Prelude.{◌≡◌};
ghost use Rattle.osm_columns.specs.Columns.{has_room, elements_fit, tags_fit, refs_fit, members_fit, texts_fit, columns_fit};

use crate::counts::Counts;

/// Arrays with one item for each element, in the order of the elements.
#[repr(C)]
#[derive(Drop)]
pub struct ElementColumns<'a> {
    /// 0 for a node, 1 for a way, 2 for a relation.
    pub kinds: &'a mut [u8],
    pub ids: &'a mut [i64],
    /// In nanodegrees; 0 for a way or a relation.
    pub lats: &'a mut [i64],
    /// In nanodegrees; 0 for a way or a relation.
    pub lons: &'a mut [i64],
    /// -1 where there is none.
    pub versions: &'a mut [i32],
    /// In milliseconds since 1970; the least number where there is none.
    pub times: &'a mut [i64],
    /// The least number where there is none.
    pub changesets: &'a mut [i64],
    /// The least number where there is none.
    pub uids: &'a mut [i32],
    /// The index of the user's name among the texts; -1 where there is none.
    pub users: &'a mut [i32],
    /// 1 for visible, 0 for deleted, 2 where that isn't said.
    pub visible: &'a mut [u8],
}

/// Arrays for tags: for each element, behind how many of all tags its own end; and the key and the value of each tag, by their
/// indexes among the texts.
#[repr(C)]
#[derive(Drop)]
pub struct TagColumns<'a> {
    pub ends: &'a mut [u64],
    pub keys: &'a mut [i32],
    pub values: &'a mut [i32],
}

/// Arrays for the nodes of ways: for each element, behind how many of all references its own end; and the references.
#[repr(C)]
#[derive(Drop)]
pub struct RefColumns<'a> {
    pub ends: &'a mut [u64],
    pub ids: &'a mut [i64],
}

/// Arrays for the members of relations: for each element, behind how many of all members its own end; and the kind of each
/// member (0 node, 1 way, 2 relation), its id, and its role, by its index among the texts.
#[repr(C)]
#[derive(Drop)]
pub struct MemberColumns<'a> {
    pub ends: &'a mut [u64],
    pub kinds: &'a mut [u8],
    pub ids: &'a mut [i64],
    pub roles: &'a mut [i32],
}

/// Arrays for texts: behind how many bytes of all texts each ends; and the bytes, which are UTF-8.
#[repr(C)]
#[derive(Drop)]
pub struct TextColumn<'a> {
    pub ends: &'a mut [u64],
    pub bytes: &'a mut [u8],
}

/// Arrays for all columns of some elements, and for the texts that their indexes name.
#[repr(C)]
#[derive(Drop)]
pub struct Columns<'a> {
    pub elements: ElementColumns<'a>,
    pub tags: TagColumns<'a>,
    pub refs: RefColumns<'a>,
    pub members: MemberColumns<'a>,
    pub texts: TextColumn<'a>,
}

/// Whether the array has so many items, or more.
fn has_room<T>(count: u64, array: &[T]) -> bool
    ensures { result ≡ has_room count array.now }
{
    count <= array.len() as u64
}

fn elements_fit(count: u64, columns: &ElementColumns) -> bool
    ensures { result ≡ elements_fit count columns.now }
{
    has_room(count, columns.kinds)
        && has_room(count, columns.ids)
        && has_room(count, columns.lats)
        && has_room(count, columns.lons)
        && has_room(count, columns.versions)
        && has_room(count, columns.times)
        && has_room(count, columns.changesets)
        && has_room(count, columns.uids)
        && has_room(count, columns.users)
        && has_room(count, columns.visible)
}

fn tags_fit(elements: u64, tags: u64, columns: &TagColumns) -> bool
    ensures { result ≡ tags_fit elements tags columns.now }
{
    has_room(elements, columns.ends)
        && has_room(tags, columns.keys)
        && has_room(tags, columns.values)
}

fn refs_fit(elements: u64, refs: u64, columns: &RefColumns) -> bool
    ensures { result ≡ refs_fit elements refs columns.now }
{
    has_room(elements, columns.ends) && has_room(refs, columns.ids)
}

fn members_fit(elements: u64, members: u64, columns: &MemberColumns) -> bool
    ensures { result ≡ members_fit elements members columns.now }
{
    has_room(elements, columns.ends)
        && has_room(members, columns.kinds)
        && has_room(members, columns.ids)
        && has_room(members, columns.roles)
}

/// Whether the arrays have room for so many texts and so many bytes.
pub fn texts_fit(texts: u64, bytes: u64, column: &TextColumn) -> bool
    ensures { result ≡ texts_fit texts bytes column.now }
{
    has_room(texts, column.ends) && has_room(bytes, column.bytes)
}

/// Whether each array has room for its column.
pub fn columns_fit(counts: &Counts, columns: &Columns) -> bool
    ensures { result ≡ columns_fit counts.now columns.now }
{
    elements_fit(counts.elements, &columns.elements)
        && tags_fit(counts.elements, counts.tags, &columns.tags)
        && refs_fit(counts.elements, counts.refs, &columns.refs)
        && members_fit(counts.elements, counts.members, &columns.members)
        && texts_fit(counts.texts, counts.text_bytes, &columns.texts)
}
