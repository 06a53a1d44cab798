//! The input of a command that reads a PBF file, and how it ended.

ghost use Rattle.std.specs.Prelude.{◌≡◌, ◌≤◌, ◌&&◌, true, false, length, Ok, OnOk, OnErr};
ghost use Rattle.std.specs.Io.KnownBytes.{Keeps};
ghost use Rattle.osm_value.specs.Printing.{Prints};
ghost use Rattle.osm_reading.specs.Good.{IsFrame};
ghost use Rattle.pbf_frame.specs.Frame as definitions;
ghost use Rattle.pbf_frame.specs.View.{found};
ghost use Rattle.osm_reading.specs.declared.stream.fault.Stop.TheVariants.{ReadFailed};
ghost use Rattle.pbfrow_reading.specs.CommandLines.{stop_line};
ghost use Rattle.pbfrow_reading.specs.Walks.{ending_line, is_whole, status_of};

use osm_reading::{FrameReader, Source, Stop, StreamFault, put_fault_at};
use osm_value::{Outlet, Sink, SinkFailed};
use pbf_frame::{Frame, whole_frame};
use std::io::Write;

/// Memory was refused at this offset.
pub(crate) fn memory_refused(at: u64) -> StreamFault
    ensures { result ≡ record { fault = Stop.Memory; at = at } }
{
    StreamFault {
        fault: Stop::Memory,
        at,
    }
}

/// How the frames of an input ended.
#[derive(Clone, Copy)]
pub enum Ending {
    /// With the input.
    Whole,
    /// At the next frame, which can't be read.
    Early(StreamFault),
    /// The output has failed, so that no more was read.
    Unwritten,
}

impl Ending {
    /// Memory was refused for what is in the frame at this offset.
    pub(crate) fn without_memory(at: u64) -> Ending
        ensures { result ≡ Ending.Early (record { fault = Stop.Memory; at = at }) }
    {
        Ending::Early(memory_refused(at))
    }
}

/// Writes the line of an input that can't be opened: a read that failed at 0. Answers the exit status, 1, whether or not
/// the line can be written.
pub fn refuse_input<S: Sink>(out: &mut S) -> u8
    ensures line { Prints S.Sink out.old out.new (stop_line ReadFailed 0) }
    ensures status { result ≡ 1 }
{
    let fault = Stop::ReadFailed;
    put_stop(out, StreamFault { fault, at: 0 });
    1
}

/// Writes the line of what ended an input early.
pub fn put_stop<S: Sink>(out: &mut S, stop: StreamFault)
    ensures { Prints S.Sink out.old out.new (stop_line stop.fault stop.at) }
{
    put_fault_at(out, stop.number(), stop.name(), stop.at);
}

/// Flushes the output if the next frame hasn't been read yet, so that a reader of the output has all lines before it. An
/// error if the output has failed.
pub fn flush_to_wait<R: Source, W: Write>(
    frames: &mut FrameReader<R>,
    out: &mut Outlet<W>,
) -> Result<(), SinkFailed>
    ensures frames { frames.new ≡ frames.old }
    ensures kept { Keeps (W.contents out.old.writer) (W.contents out.new.writer) }
    ensures ok { OnOk result ((out.old.has_failed ≡ false) × (out.new.has_failed ≡ false)) }
    ensures err { OnErr result (out.new.has_failed ≡ true) }
{
    if out.failed() {
        return Err(SinkFailed);
    }
    if let Ok(true) = frames.is_ready() {
        return Ok(());
    }
    out.flush()
}

/// The frame that the bytes are.
pub fn frame_of(bytes: &[u8]) -> Frame<'_>
    requires { IsFrame bytes.now }
    ensures frame { (result.kind ≡ definitions.kind_of result.type_name.now) × definitions.Frame result.type_name.now result.blob.now bytes.now }
    ensures whole { definitions.whole_at bytes.now ≡ Ok (found result) }
    ensures length { result.length ≡ length bytes.now }
{
    match whole_frame(bytes) {
        Ok(frame) => frame,
        Err(_) => unreachable!(),
    }
}

/// The exit status: 0 if all was well and the output hasn't failed.
pub fn status<S: Sink>(out: &S, is_well: bool) -> u8
    ensures is { result ≡ status_of is_well (S.has_failed out.now) }
    ensures bound { result ≤ 1 }
{
    if is_well && !out.failed() { 0 } else { 1 }
}

/// Writes the line of what ended the frames early, if anything did. Answers the exit status: 0 if nothing did, all was
/// well before, and the output hasn't failed.
pub(crate) fn finish<S: Sink>(out: &mut S, ending: Ending, is_well: bool) -> u8
    ensures line { Prints S.Sink out.old out.new (ending_line ending) }
    ensures status { result ≡ status_of (is_whole ending && is_well) (S.has_failed out.new) }
    ensures unwritten { ending ≡ Ending.Unwritten → S.has_failed out.new ≡ S.has_failed out.old }
    ensures bound { result ≤ 1 }
{
    match ending {
        Ending::Whole => status(out, is_well),
        Ending::Early(stop) => {
            put_stop(out, stop);
            1
        }
        Ending::Unwritten => 1,
    }
}
