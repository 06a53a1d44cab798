//! The command `show`: each blob, with the lines of its header, its elements or its fault.

ghost use Rattle.std.specs.Prelude.{◌≡◌, ◌≤◌, true, List, Option, length, is_ok, IfOk, OnErr};
ghost use Rattle.std.specs.List.{flat_map};
ghost use Rattle.std.specs.Option.{option_copied};
ghost use Rattle.osm_block.specs.HeaderTexts.{texts_left};
ghost use Rattle.osm_value.specs.Line.{line};
ghost use Rattle.osm_value.specs.Printing.{Prints};
ghost use Rattle.osm_reading.specs.Good.{IsFrame};
ghost use Rattle.pbfrow_reading.specs.Listing.{Plain};
ghost use Rattle.pbfrow_reading.specs.Showing.{ShowsBlobs, ShowsInput, blob_line, box_line, content_lines, header_lines, number_line, of_option, shown_lines, text_line};
ghost use Rattle.pbfrow_reading.specs.Verdicts.{IsJudged, Judged, all_good};
ghost use Rattle.pbfrow_reading.specs.Walks.{IsWholeFrame};

use crate::input::{Ending, finish, flush_to_wait, frame_of};
use crate::list::put_type;
use osm_block::{BBox, HeaderBlock, Texts};
use osm_reading::{ExamineFault, FrameReader, Good, Inlet, examine_frame, put_fault_at};
use osm_value::{Element, Outlet, Sink, put, put_digits, put_escaped, put_number, write_line};
use pbf_frame::Frame;
use std::alloc::{AllocError, Global};
use std::io::{Read, Write};

/// Writes a line for each blob of the input, followed by those of its header, its elements or its fault, up to a frame
/// fault's line. Answers the exit status: 0 if there is no fault, and 1 if there is one, or the input or the output
/// failed. The lines so far are flushed before more of the input is read. Where the output fails, no more is read.
pub fn show<R: Read, W: Write>(alloc: Global, input: &mut R, out: &mut Outlet<W>) -> u8
    ensures shown { ShowsInput (R.remaining input.old) (W.contents out.old.writer) (W.contents out.new.writer) out.new.has_failed result }
    ensures bound { result ≤ 1 }
{
    let mut is_good = true;
    let ending = show_blobs(alloc, input, &mut is_good, out);
    finish(out, ending, is_good)
}

/// Writes the lines of the blobs, and answers how the frames ended. Each bad blob makes `is_good` false.
fn show_blobs<R: Read, W: Write>(
    alloc: Global,
    input: &mut R,
    is_good: &mut bool,
    out: &mut Outlet<W>,
) -> Ending
    requires { is_good.old ≡ true }
    ensures { (blobs : List Judged) × (begun : Option Plain) × ShowsBlobs (R.remaining input.old) (W.contents out.old.writer) (W.contents out.new.writer) out.new.has_failed blobs begun result
        × (is_good.new ≡ all_good blobs) }
{
    let mut frames = match FrameReader::new(alloc, 0, Inlet::new(input)) {
        Ok(frames) => frames,
        Err(stop) => return Ending::Early(stop),
    };
    loop {
        let Ok(()) = flush_to_wait(&mut frames, out) else {
            return Ending::Unwritten;
        };
        match frames.next() {
            Ok(Some((at, bytes))) => match show_blob(alloc, at, bytes, out) {
                Ok(is_next_good) => *is_good &= is_next_good,
                Err(_) => return Ending::without_memory(at),
            },
            Ok(None) => return Ending::Whole,
            Err(stop) => return Ending::Early(stop),
        }
    }
}

/// Writes the line of a blob, followed by those of its header, its elements or its fault, and answers whether it is good.
/// Where memory is refused, nothing follows the line.
fn show_blob<S: Sink>(alloc: Global, at: u64, bytes: &[u8], out: &mut S) -> Result<bool, AllocError>
    requires { IsFrame bytes.now }
    ensures ok { IfOk result (λ is_good. (p : Judged) × IsJudged at bytes.now p × Prints S.Sink out.old out.new (shown_lines at p) × (is_good ≡ is_ok p.found)) }
    ensures err { OnErr result ((p : Plain) × (p.bytes ≡ bytes.now) × IsWholeFrame p × Prints S.Sink out.old out.new (blob_line at p.type_name (length p.bytes))) }
{
    let frame = frame_of(bytes);
    put_blob(out, at, &frame);
    match examine_frame(alloc, at, &frame) {
        Ok(good) => {
            put_content(out, &good);
            Ok(true)
        }
        Err(ExamineFault::Bad(fault)) => {
            put_fault_at(out, fault.number(), fault.name(), at);
            Ok(false)
        }
        Err(ExamineFault::Memory) => Err(AllocError),
    }
}

/// Writes `blob OFFSET TYPE LENGTH`.
fn put_blob<S: Sink>(out: &mut S, at: u64, frame: &Frame)
    ensures { Prints S.Sink out.old out.new (blob_line at frame.now.type_name.now frame.now.length) }
{
    put(out, b"blob ");
    put_digits(out, at);
    put(out, b" ");
    put_type(out, frame.type_name);
    put(out, b" ");
    put_digits(out, frame.length);
    put(out, b"\n");
}

/// Writes the lines of a good blob.
fn put_content<S: Sink>(out: &mut S, good: &Good)
    ensures { Prints S.Sink out.old out.new (content_lines good.now.header good.now.elements.items) }
{
    match &good.header {
        Some(header) => put_header(out, header),
        None => put_elements(out, &good.elements),
    }
}

/// Writes a header block, a line for each field that is there.
fn put_header<S: Sink>(out: &mut S, header: &HeaderBlock)
    ensures { Prints S.Sink out.old out.new (header_lines header.now) }
{
    put_box(out, header.bbox());
    put_texts(out, b"required ", header.required());
    put_texts(out, b"optional ", header.optional());
    put_optional_text(out, b"program ", header.program());
    put_optional_text(out, b"source ", header.source());
    put_optional_number(out, b"replication-timestamp ", header.timestamp());
    put_optional_number(out, b"replication-sequence ", header.sequence());
    put_optional_text(out, b"replication-url ", header.url());
}

/// Writes `bbox LEFT RIGHT TOP BOTTOM` of a box that is there.
fn put_box<S: Sink>(out: &mut S, bbox: Option<BBox>)
    ensures { Prints S.Sink out.old out.new (of_option box_line bbox) }
{
    let Some(bbox) = bbox else {
        return;
    };
    put(out, b"bbox ");
    put_number(out, bbox.left);
    put(out, b" ");
    put_number(out, bbox.right);
    put(out, b" ");
    put_number(out, bbox.top);
    put(out, b" ");
    put_number(out, bbox.bottom);
    put(out, b"\n");
}

/// Writes a line for each text.
fn put_texts<S: Sink>(out: &mut S, label: &[u8], texts: Texts)
    ensures { Prints S.Sink out.old out.new (flat_map (text_line label.now) (texts_left texts.entry)) }
{
    for text in texts {
        put_text(out, label, text);
    }
}

/// Writes the line of a text that is there.
fn put_optional_text<S: Sink>(out: &mut S, label: &[u8], text: Option<&str>)
    ensures { Prints S.Sink out.old out.new (of_option (text_line label.now) (option_copied text.entry)) }
{
    let Some(text) = text else {
        return;
    };
    put_text(out, label, text);
}

/// Writes a label and a text, escaped as in the line of an element.
fn put_text<S: Sink>(out: &mut S, label: &[u8], text: &str)
    ensures { Prints S.Sink out.old out.new (text_line label.now text.now) }
{
    put(out, label);
    put_escaped(out, text);
    put(out, b"\n");
}

/// Writes a label and a number that is there.
fn put_optional_number<S: Sink>(out: &mut S, label: &[u8], number: Option<i64>)
    ensures { Prints S.Sink out.old out.new (of_option (number_line label.now) number) }
{
    let Some(number) = number else {
        return;
    };
    put(out, label);
    put_number(out, number);
    put(out, b"\n");
}

/// Writes a line for each element.
fn put_elements<S: Sink>(out: &mut S, elements: &[Element])
    ensures { Prints S.Sink out.old out.new (flat_map line elements.now) }
{
    for element in elements {
        let _written = write_line(element, out);
    }
}
