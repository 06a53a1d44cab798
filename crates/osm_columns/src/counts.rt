//! How long columns are.

ghost use Rattle.std.specs.Prelude.{◌≡◌, List, length, IfSome, IfOk, map};
ghost use Rattle.osm_value.specs.declared.element.Element.{Element};
ghost use Rattle.osm_block.specs.Groups.{GroupsHold};
ghost use Rattle.osm_columns.specs.Lists.{joined};
ghost use Rattle.osm_columns.specs.Columns.{IsSurveyOf};

use crate::indexes::{TextIndexes, text_indexes_of};
use crate::tally::tally_of;
use osm_block::BlockGroups;
use std::alloc::{AllocError, Global};

/// How many items the columns of some elements have, and how many bytes their texts.
#[repr(C)]
#[derive(Debug, Drop)]
pub struct Counts {
    pub elements: u64,
    pub nodes: u64,
    pub ways: u64,
    pub relations: u64,
    pub tags: u64,
    pub refs: u64,
    pub members: u64,
    pub texts: u64,
    pub text_bytes: u64,
}

/// How many bytes the texts have together; none where these are 2^64 or more.
pub fn text_bytes_of(texts: &[&str]) -> Option<u64>
    ensures { IfSome result (λ n. n ≡ length (joined (map (λ t. t.now) texts.now))) }
{
    let mut count: u64 = 0;
    for text in texts {
        count = count.checked_add(text.len() as u64)?;
    }
    Some(count)
}

/// What has to be known of some elements before their columns are written: their texts by indexes, and how long the columns are.
#[derive(Debug, Drop)]
pub struct Survey<'a> {
    pub indexes: TextIndexes<'a>,
    pub counts: Counts,
}

/// Looks through the groups. It fails only where memory is refused, or where there are 2^31 texts or a count of 2^64, which no
/// memory holds.
pub fn survey_of<'a>(alloc: Global, groups: &BlockGroups<'a>) -> Result<Survey<'a>, AllocError>
    requires { (es : List Element) × GroupsHold groups.now es }
    ensures { IfOk result (λ s. IsSurveyOf s groups.now) }
{
    let indexes = text_indexes_of(alloc, groups)?;
    let Some(tally) = tally_of(groups) else {
        return Err(AllocError);
    };
    let Some(text_bytes) = text_bytes_of(&indexes.dictionary.texts) else {
        return Err(AllocError);
    };
    let counts = Counts {
        elements: tally.elements,
        nodes: tally.nodes,
        ways: tally.ways,
        relations: tally.relations,
        tags: indexes.keys.len() as u64,
        refs: tally.refs,
        members: indexes.roles.len() as u64,
        texts: indexes.dictionary.texts.len() as u64,
        text_bytes,
    };
    Ok(Survey { indexes, counts })
}
