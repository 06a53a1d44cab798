//! The texts of the string table.

ghost use Rattle.std.specs.Prelude.{◌≡◌, map, ⊤, IfOk};
ghost use Rattle.std.specs.List.{flat_map, AllByRecursion};
ghost use Rattle.osm_value.specs.Ranges.{IsText};
ghost use Rattle.osm_block.specs.Phases.{Gives, Answers, first, text_phases};

use crate::fault::{BlockError, BlockFault};
use osm_value::text_in_range;
use simdutf8::basic::from_utf8;
use std::alloc::Global;

/// The text that the bytes are: UTF-8 without U+0000.
fn read_text(bytes: &[u8]) -> Result<&str, BlockFault>
    ensures phase { Answers (first (text_phases bytes.now)) result }
    ensures same { IfOk result (λ t. t.now ≡ bytes.now) }
    ensures text { IfOk result (λ t. IsText bytes.now) }
{
    let Ok(text) = from_utf8(bytes) else {
        return Err(BlockFault::TextNotUtf8);
    };
    if text_in_range(text) {
        Ok(text)
    } else {
        Err(BlockFault::TextHasNul)
    }
}

/// The texts that the payloads are, one for each.
pub(crate) fn read_texts<'a>(
    alloc: Global,
    payloads: &[&'a [u8]],
) -> Result<Vec<&'a str>, BlockError>
    ensures phase { Gives (λ _. ⊤) (first (flat_map text_phases (map (λ p. p.now) payloads.now))) result }
    ensures same { IfOk result (λ t. map (λ x. x.now) t.items ≡ map (λ p. p.now) payloads.now) }
    ensures text { IfOk result (λ t. AllByRecursion IsText (map (λ p. p.now) payloads.now)) }
{
    let mut texts = Vec::with_capacity(alloc, payloads.len())?;
    for payload in payloads {
        texts.push(read_text(payload)?)?;
    }
    Ok(texts)
}
