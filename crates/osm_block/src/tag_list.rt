//! The tags of nodes, ways and relations that have a message of their own.

ghost use Rattle.std.specs.Prelude.{◌≡◌, ◌<◌, map, length, All, IfOk, ◌%◌, ◌^◌};
ghost use Rattle.pbf_wire.specs.Readings.{uint32};
ghost use Rattle.osm_block.specs.Block.{TagsAt};

use std::alloc::{AllocError, Global};

/// The texts at the indexes of keys and values, which are numbers of 32 bits.
pub(crate) fn tags_of<'a>(
    alloc: Global,
    table: &[&'a str],
    keys: &[u64],
    vals: &[u64],
) -> Result<Vec<(&'a str, &'a str)>, AllocError>
    requires even { length keys.now ≡ length vals.now }
    requires keys { All (λ i. i % 2 ^ 32 < length table.now) keys.now }
    requires vals { All (λ i. i % 2 ^ 32 < length table.now) vals.now }
    ensures { IfOk result (λ tags. TagsAt (map (λ t. t.now) table.now) (map (λ t. (t.0.now, t.1.now)) tags.items) (map uint32 keys.now) (map uint32 vals.now)) }
{
    let mut tags = Vec::with_capacity(alloc, keys.len())?;
    for at in 0..keys.len() {
        let key = table[(keys[at] % (1 << 32)) as usize];
        let value = table[(vals[at] % (1 << 32)) as usize];
        tags.push((key, value))?;
    }
    Ok(tags)
}
