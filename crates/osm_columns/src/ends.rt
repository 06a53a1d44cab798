//! Where the tags, the references and the members of each element end.

ghost use Rattle.std.specs.Prelude.{length};
ghost use Rattle.osm_value.specs.Elements.{tags_of_element};
ghost use Rattle.osm_columns.specs.Values.{refs_of_element, members_of_element};

use crate::end_column::EndColumn;
use crate::indexes::{members_of, refs_of};
use crate::items::put_same;
use crate::tag_ends::put_tag_ends;
use osm_block::{DenseArrays, Scale};
use osm_value::Element;

pub(crate) struct TagEnds;

impl EndColumn for TagEnds {
    ghost count = { λ e. length (tags_of_element e) };

    fn count_of(element: &Element) -> usize {
        element.tags().len()
    }

    fn put_dense(
        _scale: &Scale,
        arrays: &DenseArrays,
        at: usize,
        end: u64,
        ends: &mut [u64],
    ) -> u64 {
        put_tag_ends(&arrays.keys_vals, arrays.ids.len(), at, end, ends)
    }
}

/// Nodes have no references.
pub(crate) struct RefEnds;

impl EndColumn for RefEnds {
    ghost count = { λ e. length (refs_of_element e) };

    fn count_of(element: &Element) -> usize {
        refs_of(element).len()
    }

    fn put_dense(
        _scale: &Scale,
        arrays: &DenseArrays,
        at: usize,
        end: u64,
        ends: &mut [u64],
    ) -> u64 {
        put_same(end, arrays.ids.len(), at, ends);
        end
    }
}

/// Nodes have no members.
pub(crate) struct MemberEnds;

impl EndColumn for MemberEnds {
    ghost count = { λ e. length (members_of_element e) };

    fn count_of(element: &Element) -> usize {
        members_of(element).len()
    }

    fn put_dense(
        _scale: &Scale,
        arrays: &DenseArrays,
        at: usize,
        end: u64,
        ends: &mut [u64],
    ) -> u64 {
        put_same(end, arrays.ids.len(), at, ends);
        end
    }
}
