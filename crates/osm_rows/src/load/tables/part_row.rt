//! Rows of the tables `tag` and `link`. A blob of relations may have half a million of them, so most are held in a short form.

ghost use Rattle.std.specs.Prelude.{◌≡◌, ◌↔◌, ◌+◌, ◌*◌, ◌++◌, pos, ℕ, take, drop, Some, IfOk, IfSome, IsTrue};
ghost use Rattle.sqlite.specs.declared.types.Value.TheVariants.{Int};
ghost use Rattle.sqlite.specs.Order.{column};
ghost use Rattle.sqlite.specs.Value.{owned};
ghost use Rattle.osm_rows.specs.Load.Numbering.{AreNumbered};
ghost use Rattle.osm_rows.specs.Load.PartRows.{columns_of, short_link_values, short_tag_values};

use crate::load::tables::usual_role::UsualRole;
use crate::load::values::{kind_of, number_of};
use crate::schema::codes::element_code;
use osm_value::MemberKind;
use sqlite::Row;
use sqlite::types::ValueRef;
use sqlite_exec::work::FromRow;
use sqlite_value::row;
use std::alloc::{AllocError, Global};
use std::marker::Model;

/// A link whose numbers are small and whose role is a usual one.
#[derive(Clone, Copy, Debug)]
struct ShortLink {
    off: i64,
    id: i64,
    position: u32,
    number: u16,
    kind: MemberKind,
    role: UsualRole,
}

/// A tag whose numbers are small and whose key is short. Its value lies behind its key.
#[derive(Debug, Drop)]
struct ShortTag {
    off: i64,
    texts: Vec<u8>,
    position: u32,
    number: u16,
    key_length: u8,
}

/// A row in a short form, or whatever other row it is. The kind of a link is told by its variant; its offset and the id of
/// the element that it leads to are each kept as their upper eight bits and their lower 32. Fields stand in an order that
/// leaves no gaps.
#[derive(Debug, Drop)]
enum PartForm {
    Tag(Box<ShortTag>),
    NodeLink {
        role: UsualRole,
        number: u16,
        position: u16,
        off_upper: u8,
        id_upper: u8,
        off_lower: u32,
        id_lower: u32,
    },
    WayLink {
        role: UsualRole,
        number: u16,
        position: u16,
        off_upper: u8,
        id_upper: u8,
        off_lower: u32,
        id_lower: u32,
    },
    RelationLink {
        role: UsualRole,
        number: u16,
        position: u16,
        off_upper: u8,
        id_upper: u8,
        off_lower: u32,
        id_lower: u32,
    },
    Other(Box<Row>),
}

/// A row of the table `tag` or `link`, which contracts see as the list of its values, as they were read.
#[derive(Debug, Drop)]
pub struct PartRow {
    form: PartForm,
}

// Of a blob with a million links each byte here is a megabyte.
const _: () = prove!(size_of::<PartRow>() == 16);

impl Model for PartRow {
    ghost use Rattle.std.specs.Prelude.{List};
    ghost use Rattle.std.specs.Coded.{coded_list};
    ghost use Rattle.sqlite_value.specs.declared.value.Value.{Value as SqlValue};
    ghost use Rattle.sqlite_value.specs.contracts.value.Value.{the_row};
    ghost use Rattle.osm_rows.specs.Load.PartRows.{columns_of};

    ghost Value = { List SqlValue };

    ghost coded = { coded_list the_row.coded };

    ghost view = { λ r. columns_of r.form };
}

impl FromRow for PartRow {
    ghost from_row_gives = { λ r. r };

    fn from_row(alloc: Global, row: &row::Row) -> Result<PartRow, AllocError> {
        if let Some(form) = short_link(row).and_then(ShortLink::packed) {
            return Ok(PartRow { form });
        }
        if let Some(form) = short_tag(alloc, row)? {
            return Ok(PartRow { form });
        }
        PartRow::whole(alloc, Row::from_row(alloc, row)?)
    }
}

impl PartRow {
    /// A row as it is.
    fn whole(alloc: Global, row: Row) -> Result<PartRow, AllocError>
        ensures { IfOk result (λ part. part ≡ row) }
    {
        let row = Box::new(alloc, row)?;
        Ok(PartRow {
            form: PartForm::Other(row),
        })
    }

    /// The rows of an answer.
    pub fn all(alloc: Global, rows: Vec<Row>) -> Result<Vec<PartRow>, AllocError>
        ensures { IfOk result (λ parts. parts.items ≡ rows.items) }
    {
        let mut parts = Vec::with_capacity(alloc, rows.len())?;
        for row in rows {
            parts.push(PartRow::whole(alloc, row)?)?;
        }
        Ok(parts)
    }

    /// The value in a column, and NULL past the end.
    pub(crate) fn value(&self, at: usize) -> ValueRef<'_>
        ensures { owned result ≡ column self.now at }
    {
        self.form.value(at)
    }

    /// The place of the row's element: the offset of its blob and its position there.
    pub(crate) fn place(&self) -> Option<(u64, u64)>
        ensures { (off position : ℕ) → column self.now 0 ≡ Int (pos off) → column self.now 1 ≡ Int (pos position) → result ≡ Some (off, position) }
    {
        match (number_of(self.value(0)), number_of(self.value(1))) {
            (Some(off), Some(position)) => Some((off, position)),
            _ => None,
        }
    }
}

/// Whether the rows of one element are numbered 0, 1, 2, .. in their order.
pub(crate) fn are_parts_numbered(rows: &[PartRow]) -> bool
    ensures { IsTrue result ↔ AreNumbered 2 rows.now }
{
    for (number, row) in rows.iter().enumerate() {
        if number_of(row.value(2)) != Some(number as u64) {
            return false;
        }
    }
    true
}

/// The value in a column, and NULL past the end.
fn value_at(row: &Row, at: usize) -> ValueRef<'_>
    ensures { owned result ≡ column row.now at }
{
    match row.get_ref(at) {
        Ok(value) => value,
        Err(_) => ValueRef::Null,
    }
}

/// The offset, position and number in front of a row, where they are small.
fn short_place(row: &row::Row) -> Option<(i64, u32, u16)>
    ensures { IfSome result (λ place. (column row.now 0 ≡ Int place.0) × (column row.now 1 ≡ Int (pos place.1)) × (column row.now 2 ≡ Int (pos place.2))) }
{
    match (row.get(0), row.get(1), row.get(2)) {
        (ValueRef::Int(off), ValueRef::Int(position), ValueRef::Int(number)) => {
            match (u32::try_from(position), u16::try_from(number)) {
                (Ok(position), Ok(number)) => Some((off, position, number)),
                _ => None,
            }
        }
        _ => None,
    }
}

/// The short form of a link.
fn short_link(row: &row::Row) -> Option<ShortLink>
    ensures { IfSome result (λ link. short_link_values link ≡ row.now) }
{
    if row.len() != 6 {
        return None;
    }
    let (off, position, number) = short_place(row)?;
    let kind = kind_of(row.get(3))?;
    let (ValueRef::Int(id), ValueRef::Text(text)) = (row.get(4), row.get(5)) else {
        return None;
    };
    let role = UsualRole::of(text)?;
    Some(ShortLink {
        off,
        id,
        position,
        number,
        kind,
        role,
    })
}

/// The bytes of two texts, one after the other.
fn joined(alloc: Global, key: &[u8], val: &[u8]) -> Result<Vec<u8>, AllocError>
    ensures { IfOk result (λ texts. texts.items ≡ key.now ++ val.now) }
{
    let mut texts = Vec::with_capacity(alloc, key.len().saturating_add(val.len()))?;
    texts.extend_from_slice(key)?;
    texts.extend_from_slice(val)?;
    Ok(texts)
}

/// The short form of a tag.
fn short_tag(alloc: Global, row: &row::Row) -> Result<Option<PartForm>, AllocError>
    ensures { IfOk result (λ found. IfSome found (λ form. columns_of form ≡ row.now)) }
{
    if row.len() != 5 {
        return Ok(None);
    }
    let Some((off, position, number)) = short_place(row) else {
        return Ok(None);
    };
    let (ValueRef::Text(key), ValueRef::Text(val)) = (row.get(3), row.get(4)) else {
        return Ok(None);
    };
    let Ok(key_length) = u8::try_from(key.len()) else {
        return Ok(None);
    };
    let tag = ShortTag {
        off,
        texts: joined(alloc, key, val)?,
        position,
        number,
        key_length,
    };
    Ok(Some(PartForm::Tag(Box::new(alloc, tag)?)))
}

/// The key, which has this many bytes, and the value behind it.
fn split_texts(texts: &[u8], key_length: u8) -> (&[u8], &[u8])
    ensures key { result.0.now ≡ take key_length texts.now }
    ensures val { result.1.now ≡ drop key_length texts.now }
{
    let length = usize::from(key_length);
    if length <= texts.len() {
        texts.split_at(length)
    } else {
        (texts, &[])
    }
}

/// The number with these eight bits above its lower 32.
fn whole_number(upper: u8, lower: u32) -> i64
    ensures { result ≡ pos (upper * 4294967296 + lower) }
{
    i64::from(upper) * (1 << 32) + i64::from(lower)
}

/// The eight bits above the lower 32 of a number below 2^40, and the lower 32.
fn halves(number: i64) -> Option<(u8, u32)>
    ensures { IfSome result (λ halves. pos (halves.0 * 4294967296 + halves.1) ≡ number) }
{
    let number = u64::try_from(number).ok()?;
    let upper = u8::try_from(number / (1 << 32)).ok()?;
    let lower = u32::try_from(number % (1 << 32)).ok()?;
    Some((upper, lower))
}

impl ShortLink {
    fn of(
        kind: MemberKind,
        role: UsualRole,
        number: u16,
        position: u32,
        off: i64,
        id: i64,
    ) -> ShortLink
        ensures { result ≡ record { off = off; id = id; position = position; number = number; kind = kind; role = role } }
    {
        ShortLink {
            off,
            id,
            position,
            number,
            kind,
            role,
        }
    }

    /// The same in 16 bytes, where its position is below 2^16 and its offset and id are below 2^40.
    fn packed(self) -> Option<PartForm>
        ensures { IfSome result (λ form. columns_of form ≡ short_link_values self) }
    {
        let ShortLink {
            off,
            id,
            position,
            number,
            kind,
            role,
        } = self;
        let position = u16::try_from(position).ok()?;
        let (off_upper, off_lower) = halves(off)?;
        let (id_upper, id_lower) = halves(id)?;
        Some(match kind {
            MemberKind::Node => PartForm::NodeLink {
                role,
                number,
                position,
                off_upper,
                id_upper,
                off_lower,
                id_lower,
            },
            MemberKind::Way => PartForm::WayLink {
                role,
                number,
                position,
                off_upper,
                id_upper,
                off_lower,
                id_lower,
            },
            MemberKind::Relation => PartForm::RelationLink {
                role,
                number,
                position,
                off_upper,
                id_upper,
                off_lower,
                id_lower,
            },
        })
    }

    /// The value in a column, and NULL past the end.
    fn value(self, at: usize) -> ValueRef<'static>
        ensures { owned result ≡ column (short_link_values self) at }
    {
        match at {
            0 => ValueRef::Int(self.off),
            1 => ValueRef::Int(i64::from(self.position)),
            2 => ValueRef::Int(i64::from(self.number)),
            3 => ValueRef::Int(i64::from(element_code(self.kind))),
            4 => ValueRef::Int(self.id),
            5 => ValueRef::Text(self.role.text().as_bytes()),
            _ => ValueRef::Null,
        }
    }
}

impl ShortTag {
    /// The value in a column, and NULL past the end.
    fn value(&self, at: usize) -> ValueRef<'_>
        ensures { owned result ≡ column (short_tag_values self.now) at }
    {
        let texts = self.texts.as_slice();
        match at {
            0 => ValueRef::Int(self.off),
            1 => ValueRef::Int(i64::from(self.position)),
            2 => ValueRef::Int(i64::from(self.number)),
            3 => ValueRef::Text(split_texts(texts, self.key_length).0),
            4 => ValueRef::Text(split_texts(texts, self.key_length).1),
            _ => ValueRef::Null,
        }
    }
}

impl PartForm {
    /// The value in a column, and NULL past the end.
    fn value(&self, at: usize) -> ValueRef<'_>
        ensures { owned result ≡ column (columns_of self.now) at }
    {
        match self {
            PartForm::Tag(tag) => tag.value(at),
            PartForm::NodeLink {
                role,
                number,
                position,
                off_upper,
                id_upper,
                off_lower,
                id_lower,
            } => ShortLink::of(
                MemberKind::Node,
                *role,
                *number,
                u32::from(*position),
                whole_number(*off_upper, *off_lower),
                whole_number(*id_upper, *id_lower),
            )
            .value(at),
            PartForm::WayLink {
                role,
                number,
                position,
                off_upper,
                id_upper,
                off_lower,
                id_lower,
            } => ShortLink::of(
                MemberKind::Way,
                *role,
                *number,
                u32::from(*position),
                whole_number(*off_upper, *off_lower),
                whole_number(*id_upper, *id_lower),
            )
            .value(at),
            PartForm::RelationLink {
                role,
                number,
                position,
                off_upper,
                id_upper,
                off_lower,
                id_lower,
            } => ShortLink::of(
                MemberKind::Relation,
                *role,
                *number,
                u32::from(*position),
                whole_number(*off_upper, *off_lower),
                whole_number(*id_upper, *id_lower),
            )
            .value(at),
            PartForm::Other(row) => value_at(row, at),
        }
    }
}
