//! The columns of references and of members.

ghost use Rattle.std.specs.Prelude.{map};
ghost use Rattle.osm_columns.specs.Values.{number_of_kind, refs_of_element, members_of_element};

use crate::indexes::{members_of, refs_of};
use crate::items::{put_item, put_items};
use crate::list_column::ListColumn;
use crate::values::number_of_kind;
use osm_value::Element;

/// The nodes of ways.
pub(crate) struct Refs;

impl ListColumn for Refs {
    ghost use Rattle.std.specs.Prelude.{refl};

    type Item = i64;

    ghost items = { refs_of_element };

    fn put_of(element: &Element, at: usize, array: &mut [i64]) -> usize {
        let refs = refs_of(element);
        put_items(refs, at, array);
        at + refs.len()
    }

    ghost nodes_have_none = { λ n. refl };
}

/// The kinds of the members of relations.
pub(crate) struct MemberKinds;

impl ListColumn for MemberKinds {
    ghost use Rattle.std.specs.Prelude.{refl};

    type Item = u8;

    ghost items = { λ e. map (λ m. number_of_kind m.kind) (members_of_element e) };

    fn put_of(element: &Element, at: usize, array: &mut [u8]) -> usize {
        let mut place = at;
        for member in members_of(element) {
            put_item(number_of_kind(member.kind()), place, array);
            place += 1;
        }
        place
    }

    ghost nodes_have_none = { λ n. refl };
}

/// The ids of the members of relations.
pub(crate) struct MemberIds;

impl ListColumn for MemberIds {
    ghost use Rattle.std.specs.Prelude.{refl};

    type Item = i64;

    ghost items = { λ e. map (λ m. m.id) (members_of_element e) };

    fn put_of(element: &Element, at: usize, array: &mut [i64]) -> usize {
        let mut place = at;
        for member in members_of(element) {
            put_item(member.id(), place, array);
            place += 1;
        }
        place
    }

    ghost nodes_have_none = { λ n. refl };
}
