//! Columns, written into the arrays of a caller.

ghost use Rattle.std.specs.Prelude.{◌≡◌, ◌<◌, ◌≤◌, ◌^◌, List, length, map, true};
ghost use Rattle.osm_value.specs.declared.element.Element.{Element};
ghost use Rattle.osm_block.specs.Groups.{GroupsHold};
ghost use Rattle.osm_columns.specs.Lists.{joined, all_tags, all_refs, all_members};
ghost use Rattle.osm_columns.specs.Indexes.{texts_in};
ghost use Rattle.osm_columns.specs.Columns.{over, elements_fit, refs_fit, texts_fit, columns_fit, IsSurveyOf, HoldsElements, HoldsTagEnds, HoldsRefs, HoldsMemberIds, HoldsRoles, HoldsTexts, HoldsColumns};

use crate::columns::{Columns, ElementColumns, MemberColumns, RefColumns, TagColumns, TextColumn};
use crate::counts::Survey;
use crate::element_column::put_element_column;
use crate::end_column::put_end_column;
use crate::ends::{MemberEnds, RefEnds, TagEnds};
use crate::items::{put_column, put_item, put_items};
use crate::list_column::put_list_column;
use crate::lists::{MemberIds, MemberKinds, Refs};
use crate::numbers::{Changesets, Ids, Kinds, Lats, Lons, Times, Uids, Versions, Visible};
use osm_block::BlockGroups;

/// Writes the numbers of the elements, and the indexes of their users.
fn put_elements(groups: &BlockGroups, users: &[i32], columns: &mut ElementColumns)
    requires { (es : List Element) × GroupsHold groups.now es × (elements_fit (length es) columns.old ≡ true) × (length users.now ≡ length es) }
    ensures { (es : List Element) → GroupsHold groups.now es → HoldsElements users.now es columns.old columns.new }
{
    put_element_column::<Kinds>(groups, columns.kinds);
    put_element_column::<Ids>(groups, columns.ids);
    put_element_column::<Lats>(groups, columns.lats);
    put_element_column::<Lons>(groups, columns.lons);
    put_element_column::<Versions>(groups, columns.versions);
    put_element_column::<Times>(groups, columns.times);
    put_element_column::<Changesets>(groups, columns.changesets);
    put_element_column::<Uids>(groups, columns.uids);
    put_column(users, columns.users);
    put_element_column::<Visible>(groups, columns.visible);
}

/// Writes where the tags of each element end.
fn put_tag_ends(groups: &BlockGroups, tags: &mut TagColumns)
    requires { (es : List Element) × GroupsHold groups.now es × (length es ≤ length tags.old.ends.now) × (length (all_tags es) < 2 ^ 64) }
    ensures { (es : List Element) → GroupsHold groups.now es → HoldsTagEnds es tags.old tags.new }
{
    put_end_column::<TagEnds>(groups, tags.ends);
}

/// Writes the references, and where those of each element end.
fn put_refs(groups: &BlockGroups, refs: &mut RefColumns)
    requires { (es : List Element) × GroupsHold groups.now es × (refs_fit (length es) (length (all_refs es)) refs.old ≡ true) }
    ensures { (es : List Element) → GroupsHold groups.now es → HoldsRefs es refs.old refs.new }
{
    put_end_column::<RefEnds>(groups, refs.ends);
    put_list_column::<Refs>(groups, refs.ids);
}

/// Writes the kinds and the ids of the members, and where those of each element end.
fn put_members(groups: &BlockGroups, members: &mut MemberColumns)
    requires { (es : List Element) × GroupsHold groups.now es × (length es ≤ length members.old.ends.now) × (length (all_members es) ≤ length members.old.kinds.now) × (length (all_members es) ≤ length members.old.ids.now) }
    ensures { (es : List Element) → GroupsHold groups.now es → HoldsMemberIds es members.old members.new }
{
    put_end_column::<MemberEnds>(groups, members.ends);
    put_list_column::<MemberKinds>(groups, members.kinds);
    put_list_column::<MemberIds>(groups, members.ids);
}

/// Writes the indexes of the keys and of the values.
fn put_tag_texts(keys: &[i32], values: &[i32], tags: &mut TagColumns)
    requires keys { length keys.now ≤ length tags.old.keys.now }
    requires values { length values.now ≤ length tags.old.values.now }
    ensures ends { tags.new.ends.now ≡ tags.old.ends.now }
    ensures keys { tags.new.keys.now ≡ over keys.now tags.old.keys.now }
    ensures values { tags.new.values.now ≡ over values.now tags.old.values.now }
{
    put_column(keys, tags.keys);
    put_column(values, tags.values);
}

/// Writes the indexes of the roles.
fn put_roles(roles: &[i32], members: &mut MemberColumns)
    requires { length roles.now ≤ length members.old.roles.now }
    ensures { HoldsRoles roles.now members.old members.new }
{
    put_column(roles, members.roles);
}

/// Writes the texts, and where each ends, from the first item of each array on. What is behind them stays.
pub fn put_texts(texts: &[&str], column: &mut TextColumn)
    requires { texts_fit (length texts.now) (length (joined (map (λ t. t.now) texts.now))) column.old ≡ true }
    ensures { HoldsTexts (map (λ t. t.now) texts.now) column.old column.new }
{
    let mut at = 0;
    let mut end: usize = 0;
    for text in texts {
        put_items(text.as_bytes(), end, column.bytes);
        end += text.len();
        put_item(end as u64, at, column.ends);
        at += 1;
    }
}

/// Writes the columns of what the groups hold and the texts that their indexes name, from the first item of each array on. What is
/// behind a column stays.
pub fn put_columns(groups: &BlockGroups, survey: &Survey, columns: &mut Columns)
    requires held { (es : List Element) × GroupsHold groups.now es }
    requires survey { IsSurveyOf survey.now groups.now }
    requires room { columns_fit survey.now.counts columns.old ≡ true }
    ensures { (es : List Element) → GroupsHold groups.now es → HoldsColumns es (texts_in survey.now.indexes.dictionary) columns.old columns.new }
{
    let indexes = &survey.indexes;
    put_tag_texts(&indexes.keys, &indexes.values, &mut columns.tags);
    put_roles(&indexes.roles, &mut columns.members);
    put_elements(groups, &indexes.users, &mut columns.elements);
    put_tag_ends(groups, &mut columns.tags);
    put_refs(groups, &mut columns.refs);
    put_members(groups, &mut columns.members);
    put_texts(&indexes.dictionary.texts, &mut columns.texts);
}
