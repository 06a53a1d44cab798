//! A file of frames cut into ranges of whole frames, of about equal length.

ghost use Rattle.std.specs.Prelude.{◌≡◌, ◌<◌, ◌*◌, ◌/◌, IfOk};
ghost use Rattle.pbf_frame.specs.Cutting.{AreEnds, AreRanges};

use std::alloc::{AllocError, Global};

/// Bytes of a file: those from `from` on, and before `to`.
#[derive(Clone, Copy, Debug, PartialEq, Eq)]
pub struct Range {
    pub from: u64,
    pub to: u64,
}

/// In which of `count` equal shares of a file of this size an offset lies: 0 is the first, and the end of the file lies in
/// share `count`.
fn share_of(at: u64, size: u64, count: u64) -> u128
    requires { 0 < size }
    ensures { result ≡ at * count / size }
{
    at as u128 * count as u128 / size as u128
}

/// Cuts a file into ranges, each of one frame or more. `ends` has the end of each frame in bytes, in order; the first
/// frame begins at 0. There are at most `count` ranges, and without its last frame each is shorter than that part of the
/// file. No ends make no ranges. An error only where memory is refused.
pub fn ranges_of(alloc: Global, ends: &[u64], count: u64) -> Result<Vec<Range>, AllocError>
    requires ends { AreEnds 0 ends.now }
    requires some { 0 < count }
    ensures { IfOk result (λ ranges. AreRanges ends.now count ranges.items) }
{
    let mut ranges = Vec::new(alloc);
    let Some(size) = ends.last().copied() else {
        return Ok(ranges);
    };
    let mut from = 0;
    for end in ends {
        if share_of(from, size, count) < share_of(*end, size, count) {
            ranges.push(Range { from, to: *end })?;
            from = *end;
        }
    }
    Ok(ranges)
}
