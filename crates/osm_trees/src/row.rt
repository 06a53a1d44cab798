//! What a row of a tree stands for.

ghost use Rattle.std.specs.Prelude.{◌≡◌, ℕ, List, pos, length, IfSome, Some};
ghost use Rattle.sqlite_value.specs.declared.value.Value.TheVariants.{Int, Blob as Octets};
ghost use Rattle.sqlite_value.specs.Order.{column};
ghost use Rattle.pbf_frame.specs.declared.kind.Kind.{Kind as BlobKind};
ghost use Rattle.osm_rows.specs.declared.keeper.Extent.{Extent as Held};
ghost use Rattle.osm_rows.specs.Keeping.{IsRange};
ghost use Rattle.osm_rows.specs.LayoutHolding.{IsKeptExtent};
ghost use Rattle.osm_rows.specs.Rows.{blob_code, extent_row};

use osm_rows::Extent;
use pbf_frame::{Kind, MAX_OFFSET};
use sqlite_value::row::Row;
use sqlite_value::value::ValueRef;

/// A natural number in a column.
fn natural(row: &Row, at: usize) -> Option<u64>
    ensures { (n : ℕ) → column row.now at ≡ Int (pos n) → result ≡ Some n }
{
    match row.get(at) {
        ValueRef::Int(n) => u64::try_from(n).ok(),
        _ => None,
    }
}

/// A digest in a column.
fn digest(row: &Row, at: usize) -> Option<[u8; 32]>
    ensures { (bytes : List ℕ) → length bytes ≡ 32 → column row.now at ≡ Octets bytes → result ≡ Some bytes }
{
    match row.get(at) {
        ValueRef::Blob(bytes) => bytes.as_array().copied(),
        _ => None,
    }
}

/// The kind of blob that a row names by this number.
fn blob_kind(code: u64) -> Option<Kind>
    ensures { (kind : BlobKind) → code ≡ blob_code kind → result ≡ Some kind }
{
    match code {
        0 => Some(Kind::OsmHeader),
        1 => Some(Kind::OsmData),
        2 => Some(Kind::Other),
        _ => None,
    }
}

/// The extent that a row stands for.
pub(crate) fn extent_of(row: &Row) -> Option<Extent>
    ensures exact { (extent : Held) → IsKeptExtent extent → row.now ≡ extent_row extent → result ≡ Some extent }
    ensures range { IfSome result IsRange }
{
    let off = natural(row, 0)?;
    let fin = natural(row, 2)?;
    let digest = digest(row, 3)?;
    let code = natural(row, 4)?;
    let n = natural(row, 5)?;
    let kind = blob_kind(code)?;
    if off >= fin || fin > MAX_OFFSET {
        return None;
    }
    Some(Extent {
        off,
        fin,
        digest,
        kind,
        n,
    })
}
