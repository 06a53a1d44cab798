//! Tags, members and infos, read from rows of `element`, `tag` and `link`.

ghost use Rattle.std.specs.Prelude.{◌≡◌, Some, IsSomeAnd, IfSome};
ghost use Rattle.osm_value.specs.Elements.{info_of_element};
ghost use Rattle.osm_value.specs.Ranges.{IsText, IsInfo, IsMember};
ghost use Rattle.osm_value.specs.Value.{Text, MemberValue};
ghost use Rattle.osm_rows.specs.TableRows.{Part, element_row, tag_row, link_row};
ghost use Rattle.osm_rows.specs.Rows.{Placed};

use crate::load::tables::part_row::PartRow;
use crate::load::values::{
    free_flag_at, free_text_at, free_uid_at, free_version_at, free_wide_at, kind_of, text_of,
    wide_of,
};
use osm_value::{Info, Member};
use sqlite::Row;

/// The tag that a row stands for.
pub(crate) fn tag_of(row: &PartRow) -> Option<(&str, &str)>
    ensures exact { (p : Part (Text × Text)) → IsText p.item.0 → IsText p.item.1 → row.now ≡ tag_row p → IsSomeAnd result (λ tag. (tag.0.now, tag.1.now) ≡ p.item) }
    ensures in_range { IfSome result (λ tag. IsText tag.0.now × IsText tag.1.now) }
{
    match (text_of(row.value(3)), text_of(row.value(4))) {
        (Some(key), Some(val)) => Some((key, val)),
        _ => None,
    }
}

/// The member that a row stands for; a way's node is a member without a role.
pub(crate) fn member_of(row: &PartRow) -> Option<Member<'_>>
    ensures exact { (p : Part MemberValue) → IsMember p.item → row.now ≡ link_row p → result ≡ Some p.item }
    ensures in_range { IfSome result IsMember }
{
    let kind = kind_of(row.value(3));
    match (kind, wide_of(row.value(4)), text_of(row.value(5))) {
        (Some(kind), Some(id), Some(role)) => Some(Member::new(kind, id, role)),
        _ => None,
    }
}

/// The info of the element that a row stands for.
pub(crate) fn info_of(row: &Row) -> Option<Info<'_>>
    ensures { (p : Placed) → IsInfo (info_of_element p.2) → row.now ≡ element_row p → result ≡ Some (info_of_element p.2) }
{
    let version = free_version_at(row, 6)?;
    let time = free_wide_at(row, 7)?;
    let changeset = free_wide_at(row, 8)?;
    let uid = free_uid_at(row, 9)?;
    let user = free_text_at(row, 10)?;
    let visible = free_flag_at(row, 11)?;
    Some(Info::new(version, time, changeset, uid, user, visible))
}
