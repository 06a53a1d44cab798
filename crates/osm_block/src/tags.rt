//! The tags of dense nodes.

ghost use Rattle.std.specs.Prelude.{◌≡◌, ◌&&◌};
ghost use Rattle.osm_block.specs.Phases.{Answers, first, tags_phases, is_index};

use crate::fault::BlockFault;

/// Whether a text of a table of that many texts has the index.
pub(crate) fn is_index(index: i32, texts: usize) -> bool
    ensures { result ≡ is_index texts index }
{
    index >= 0 && (index as usize) < texts
}

/// The same for a pair, where all before it passed.
fn are_indexes(before: bool, key: i32, value: i32, texts: usize) -> bool
    ensures { result ≡ (before && is_index texts key && is_index texts value) }
{
    before && is_index(key, texts) && is_index(value, texts)
}

/// Tests the array of tags for that many nodes and texts.
pub(crate) fn check_tags(keys_vals: &[i32], nodes: usize, texts: usize) -> Result<(), BlockFault>
    ensures { Answers (first (tags_phases nodes texts keys_vals.now)) result }
{
    if keys_vals.is_empty() {
        return Ok(());
    }
    let mut at = 0;
    let mut left = nodes;
    let mut all_in_table = true;
    while at < keys_vals.len() {
        if left == 0 {
            return Err(BlockFault::TagsUneven);
        }
        let key = keys_vals[at];
        if key == 0 {
            left -= 1;
            at += 1;
        } else {
            if keys_vals.len() - at < 2 {
                return Err(BlockFault::TagsUneven);
            }
            all_in_table = are_indexes(all_in_table, key, keys_vals[at + 1], texts);
            at += 2;
        }
    }
    if left > 0 {
        return Err(BlockFault::TagsUneven);
    }
    if all_in_table {
        Ok(())
    } else {
        Err(BlockFault::BadIndex)
    }
}
