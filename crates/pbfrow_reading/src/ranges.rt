//! The command `ranges`: a file cut into ranges of whole frames.

ghost use Rattle.std.specs.Prelude.{◌≡◌, ◌<◌, ◌≤◌, List, false, IfOk, IfErr, IfSome};
ghost use Rattle.std.specs.Io.KnownBytes.{Appends};
ghost use Rattle.osm_value.specs.Printing.{Prints};
ghost use Rattle.pbf_frame.specs.Cutting.{AreEnds, AreRanges};
ghost use Rattle.pbf_frame.specs.declared.ranges.Range.{Range as RangeValue};
ghost use Rattle.pbfrow_reading.specs.Listing.{HasAny, Plain};
ghost use Rattle.pbfrow_reading.specs.Ranging.{Cuts, CutsInput, ends_from, range_line, range_lines};
ghost use Rattle.pbfrow_reading.specs.Walks.{ReadsFrames};
ghost use Rattle.pbfrow_reading.specs.declared.input.Ending.TheVariants as ending;

use crate::input::{Ending, finish, memory_refused};
use osm_reading::{FrameReader, Inlet, StreamFault};
use osm_value::{Sink, put, put_digits};
use pbf_frame::{Range, ranges_of};
use std::alloc::Global;
use std::io::Read;

/// The end of each frame of the input. It keeps none of the frames.
fn ends_of<R: Read>(alloc: Global, input: &mut R) -> Result<Vec<u64>, StreamFault>
    ensures ok { IfOk result (λ ends. (frames : List Plain) × ReadsFrames HasAny (R.remaining input.old) false frames ending.Whole × AreEnds 0 ends.items × (ends.items ≡ ends_from 0 frames)) }
    ensures err { IfErr result (λ stop. (frames : List Plain) × ReadsFrames HasAny (R.remaining input.old) false frames (ending.Early stop)) }
{
    let mut frames = match FrameReader::new(alloc, 0, Inlet::new(input)) {
        Ok(frames) => frames,
        Err(stop) => return Err(stop),
    };
    let mut ends = Vec::new(alloc);
    'each: loop {
        match frames.next() {
            Ok(Some((at, bytes))) => {
                let end = at + bytes.len() as u64;
                let Ok(()) = ends.push(end) else {
                    return Err(memory_refused(at));
                };
            }
            Ok(None) => return Ok(ends),
            Err(stop) => return Err(stop),
        }
    }
}

/// The ranges that the frames of the input are cut into, at most `count`.
fn cut<R: Read>(alloc: Global, input: &mut R, count: u64) -> Result<Vec<Range>, StreamFault>
    requires { 0 < count }
    ensures ok { IfOk result (λ ranges. (frames : List Plain) × ReadsFrames HasAny (R.remaining input.old) false frames ending.Whole × AreRanges (ends_from 0 frames) count ranges.items) }
    ensures err { IfErr result (λ stop. (frames : List Plain) × ReadsFrames HasAny (R.remaining input.old) false frames (ending.Early stop)) }
{
    let ends = match ends_of(alloc, input) {
        Ok(ends) => ends,
        Err(stop) => return Err(stop),
    };
    match ranges_of(alloc, &ends, count) {
        Ok(ranges) => Ok(ranges),
        Err(_) => Err(memory_refused(ends.last().copied().unwrap_or(0))),
    }
}

/// Writes `FROM TO`.
fn put_range<S: Sink>(out: &mut S, range: Range)
    ensures { Prints S.Sink out.old out.new (range_line range) }
{
    put_digits(out, range.from);
    put(out, b" ");
    put_digits(out, range.to);
    put(out, b"\n");
}

/// Writes a line for each range.
fn put_ranges<S: Sink>(out: &mut S, ranges: &[Range])
    ensures { Prints S.Sink out.old out.new (range_lines ranges.now) }
{
    for range in ranges {
        put_range(out, *range);
    }
}

/// Writes a line `FROM TO` for each of at most `count` ranges, into which the frames of the input are cut: they follow one
/// another from 0 to its end. Where it isn't whole frames to its end, the line of what ended them is all that is written.
/// Answers the exit status: 0 if the whole input consists of frames, and 1 if it doesn't, or couldn't be read or written.
pub fn ranges<R: Read, S: Sink>(alloc: Global, input: &mut R, count: u64, out: &mut S) -> u8
    requires { 0 < count }
    ensures cut { CutsInput count (R.remaining input.old) (S.written out.old) (S.written out.new) (S.has_failed out.new) result }
    // At 0 the whole input consists of frames, and the lines of ranges that it is cut into are written, and no more.
    ensures whole { result ≡ 0 → IfSome (R.remaining input.old) (λ bytes. (ranges : List RangeValue) × Cuts count bytes ranges × Appends (S.written out.old) (S.written out.new) (range_lines ranges)) }
    ensures bound { result ≤ 1 }
{
    match cut(alloc, input, count) {
        Ok(ranges) => {
            put_ranges(out, &ranges);
            finish(out, Ending::Whole, true)
        }
        Err(stop) => finish(out, Ending::Early(stop), true),
    }
}
