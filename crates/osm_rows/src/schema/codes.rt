//! The numbers that rows have for kinds of blobs and of elements.

ghost use Rattle.std.specs.Prelude.{◌≡◌, Some};
ghost use Rattle.osm_rows.specs.Rows.{blob_code, element_code};

use osm_value::MemberKind;
use pbf_frame::Kind;

/// The number that a row has for a kind of blob.
pub fn blob_code(kind: Kind) -> u32
    ensures { result ≡ blob_code kind }
{
    match kind {
        Kind::OsmHeader => 0,
        Kind::OsmData => 1,
        Kind::Other => 2,
    }
}

/// The kind of blob that a row names by this number.
pub(crate) fn blob_kind(code: u64) -> Option<Kind>
    ensures { (kind : Kind) → code ≡ blob_code kind → result ≡ Some kind }
{
    match code {
        0 => Some(Kind::OsmHeader),
        1 => Some(Kind::OsmData),
        2 => Some(Kind::Other),
        _ => None,
    }
}

/// The number that a row has for a kind of element.
pub fn element_code(kind: MemberKind) -> u32
    ensures { result ≡ element_code kind }
{
    match kind {
        MemberKind::Node => 0,
        MemberKind::Way => 1,
        MemberKind::Relation => 2,
    }
}
