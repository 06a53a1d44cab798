//! The command `list`: a line for each frame.

ghost use Rattle.std.specs.Prelude.{◌≡◌, ◌<◌, ◌≤◌, List, ℕ, true, IfSome};
ghost use Rattle.std.specs.List.{flat_map};
ghost use Rattle.std.specs.Io.KnownBytes.{Appends};
ghost use Rattle.osm_value.specs.Escape.{hex_digit};
ghost use Rattle.osm_value.specs.Printing.{Prints};
ghost use Rattle.pbfrow_reading.specs.Listing.{HasAny, Lists, ListsInput, Plain, byte_text, frame_line, listed_line};
ghost use Rattle.pbfrow_reading.specs.Walks.{TellsFrames};

use crate::input::{Ending, finish, flush_to_wait, frame_of};
use osm_reading::{FrameReader, Inlet};
use osm_value::{Outlet, Sink, put, put_digits};
use pbf_frame::Frame;
use std::alloc::Global;
use std::io::{Read, Write};

/// Writes a line for each frame of the input, up to a fault's line, and answers the exit status: 0 if the whole input
/// consists of frames, and 1 if it doesn't, or couldn't be read or written. The lines so far are flushed before more of
/// the input is read. Where the output fails, no more is read.
pub fn list<R: Read, W: Write>(alloc: Global, input: &mut R, out: &mut Outlet<W>) -> u8
    ensures listed { ListsInput (R.remaining input.old) (W.contents out.old.writer) (W.contents out.new.writer) out.new.has_failed result }
    // At 0 the whole input consists of frames, and the text that lists them is written, no more and no less.
    ensures whole { result ≡ 0 → IfSome (R.remaining input.old) (λ bytes. (text : List ℕ) × Lists true bytes text × Appends (W.contents out.old.writer) (W.contents out.new.writer) text) }
    ensures bound { result ≤ 1 }
{
    let ending = list_frames(alloc, input, out);
    finish(out, ending, true)
}

/// Writes a line for each frame, and answers how the frames ended.
fn list_frames<R: Read, W: Write>(alloc: Global, input: &mut R, out: &mut Outlet<W>) -> Ending
    ensures { (frames : List Plain) × TellsFrames HasAny listed_line (R.remaining input.old) (W.contents out.old.writer) (W.contents out.new.writer) out.new.has_failed frames result }
{
    let mut frames = match FrameReader::new(alloc, 0, Inlet::new(input)) {
        Ok(frames) => frames,
        Err(stop) => return Ending::Early(stop),
    };
    loop {
        let Ok(()) = flush_to_wait(&mut frames, out) else {
            return Ending::Unwritten;
        };
        match frames.next() {
            Ok(Some((at, bytes))) => put_frame(out, at, &frame_of(bytes)),
            Ok(None) => return Ending::Whole,
            Err(stop) => return Ending::Early(stop),
        }
    }
}

/// Writes `OFFSET TYPE DATASIZE`.
fn put_frame<S: Sink>(out: &mut S, at: u64, frame: &Frame)
    ensures { Prints S.Sink out.old out.new (frame_line at frame.now.type_name.now frame.now.blob.now) }
{
    put_digits(out, at);
    put(out, b" ");
    put_type(out, frame.type_name);
    put(out, b" ");
    put_digits(out, frame.blob.len() as u64);
    put(out, b"\n");
}

/// Writes a type; each byte below 33 or above 126, and `%`, is `%` and two upper-case hexadecimal digits.
pub(crate) fn put_type<S: Sink>(out: &mut S, type_name: &[u8])
    ensures { Prints S.Sink out.old out.new (flat_map byte_text type_name.now) }
{
    for byte in type_name {
        put_byte(out, *byte);
    }
}

/// Writes a byte of a type as it stands, or as `%` and two digits.
fn put_byte<S: Sink>(out: &mut S, byte: u8)
    ensures { Prints S.Sink out.old out.new (byte_text byte) }
{
    if byte < 33 || byte > 126 || byte == b'%' {
        put(out, &[b'%', hex_digit(byte / 16), hex_digit(byte % 16)]);
    } else {
        put(out, &[byte]);
    }
}

fn hex_digit(digit: u8) -> u8
    requires { digit < 16 }
    ensures { result ≡ hex_digit digit }
{
    if digit < 10 {
        b'0' + digit
    } else {
        b'A' + (digit - 10)
    }
}
