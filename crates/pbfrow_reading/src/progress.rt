//! The progress line of a command.

ghost use Rattle.std.specs.Prelude.{◌≡◌, ◌<◌, OnOk};
ghost use Rattle.std.specs.Io.KnownBytes.{Appends};
ghost use Rattle.pbfrow_reading.specs.Progress.{done_text, left_text, megabytes, progress_line, rate_of, size_text, speed_text};

use std::io;
use std::io::Write;

/// The progress of a command.
#[derive(Clone, Copy, Debug, PartialEq, Eq)]
pub struct Progress {
    /// How many bytes are done.
    pub bytes: u64,
    /// How many blobs are done.
    pub blobs: u64,
    /// The time since the command began.
    pub milliseconds: u64,
    /// How many bytes there are in all, if that is known.
    pub size: Option<u64>,
}

/// How many bytes a second there were, rounded down.
fn rate_of(bytes: u64, milliseconds: u64) -> u128
    requires { 0 < milliseconds }
    ensures { result ≡ rate_of bytes milliseconds }
{
    u128::from(bytes) * 1000 / u128::from(milliseconds)
}

/// Writes bytes in units of 1,000,000, rounded down to a tenth.
fn print_megabytes<W: Write>(bytes: u128, out: &mut W) -> io::Result<()>
    ensures { OnOk result (Appends (W.contents out.old) (W.contents out.new) (megabytes bytes)) }
{
    let tenths = bytes / 100_000;
    let whole = tenths / 10;
    let tenth = tenths % 10;
    write!(out, "{whole}.{tenth} MB")
}

fn print_size<W: Write>(size: Option<u64>, out: &mut W) -> io::Result<()>
    ensures { OnOk result (Appends (W.contents out.old) (W.contents out.new) (size_text size)) }
{
    match size {
        None => Ok(()),
        Some(size) => {
            write!(out, " of ")?;
            print_megabytes(u128::from(size), out)
        }
    }
}

/// Writes how many seconds are left, at the rate so far.
fn print_left<W: Write>(progress: &Progress, out: &mut W) -> io::Result<()>
    ensures { OnOk result (Appends (W.contents out.old) (W.contents out.new) (left_text progress.now.bytes progress.now.milliseconds progress.now.size)) }
{
    let bytes = u128::from(progress.bytes);
    match progress.size {
        Some(size) if bytes > 0 => {
            let left = u128::from(size).saturating_sub(bytes);
            let seconds = left * u128::from(progress.milliseconds) / (bytes * 1000);
            write!(out, ", {seconds} s left")
        }
        _ => Ok(()),
    }
}

fn print_done<W: Write>(progress: &Progress, out: &mut W) -> io::Result<()>
    ensures { OnOk result (Appends (W.contents out.old) (W.contents out.new) (done_text progress.now)) }
{
    print_megabytes(u128::from(progress.bytes), out)?;
    print_size(progress.size, out)
}

fn print_speed<W: Write>(progress: &Progress, out: &mut W) -> io::Result<()>
    requires { 0 < progress.now.milliseconds }
    ensures { OnOk result (Appends (W.contents out.old) (W.contents out.new) (speed_text progress.now)) }
{
    let blobs = progress.blobs;
    write!(out, ", {blobs} blobs, ")?;
    print_megabytes(rate_of(progress.bytes, progress.milliseconds), out)?;
    write!(out, "/s")
}

/// Writes `DONE MB of SIZE MB, BLOBS blobs, RATE MB/s, SECONDS s left`, without the size and the seconds if the size isn't
/// known, and without the seconds if no byte is done. One MB is 1,000,000 bytes; MB are rounded down to a tenth and
/// seconds to a whole number. It fails if the writer does.
pub fn print_progress<W: Write>(progress: &Progress, out: &mut W) -> io::Result<()>
    requires { 0 < progress.now.milliseconds }
    ensures { OnOk result (Appends (W.contents out.old) (W.contents out.new) (progress_line progress.now)) }
{
    print_done(progress, out)?;
    print_speed(progress, out)?;
    print_left(progress, out)
}
