//! The command `import`: the blobs of a file go into a store.

ghost use Rattle.std.specs.Prelude.{◌≡◌, ◌≤◌, ◌<◌, ◌+◌, List, ℕ, Some, Err, OnSome, OnOk, OnErr, IfSome};
ghost use Rattle.std.specs.FinMap.{empty};
ghost use Rattle.osm_rows.specs.Calls.{OfHeld};
ghost use Rattle.osm_import.specs.Flows.{input, output};
ghost use Rattle.osm_import.specs.Stores.{Takes};
ghost use Rattle.osm_import.specs.Merges.{ImportsPart};
ghost use Rattle.osm_import.specs.declared.stream.fault.ImportStop.{ImportStop as ImportStopValue};
ghost use Rattle.pbfrow_commands.specs.Importing.{Skips, IsShort, DropsAndImports, ImportsUpTo, EndsBefore, EndsLine, EndsStop, import_status, HoldsFile, HoldsRange, IsTold, ends_frames, ends_input, imported_of};

use crate::report::put_summary;
use osm_import::{ImportFault, ImportStop, Inlet, Source, Stop, Summary, Teller, import_stream};
use osm_rows::BlobKeeper;
use osm_value::Sink;
use pbf_frame::{FrameFault, MAX_OFFSET};
use pbfrow_reading::report::put_fault_at;
use std::alloc::Global;
use std::io::{Read, Seek, SeekFrom};

/// The most blobs that one import may store.
const MAX_BLOBS: u32 = 4_294_967_295;

/// How many bytes are requested from a reader at a time.
const PIECE: usize = 65_536;

/// Where an import begins.
#[derive(Clone, Copy)]
pub struct Start {
    /// How many bytes of the input are read and dropped.
    pub dropped: u64,
    /// The offset in the file of the next byte of the input, at most 2^62.
    pub at: u64,
}

/// A read that failed, or an input that ended early.
#[derive(Drop)]
struct Short;

/// Reads this many bytes and drops them.
fn skip<R: Source>(reader: &mut R, count: u64) -> Result<(), Short>
    ensures all { OnOk result (Skips count (R.bytes_left reader.old) (R.bytes_left reader.new)) }
    ensures short { OnErr result (IsShort count (R.bytes_left reader.old) (R.bytes_left reader.new) (R.has_failed reader.new)) }
{
    let mut piece = [0u8; PIECE];
    let mut left = count;
    while left > 0 {
        let wanted = left.min(PIECE as u64) as usize;
        let Ok(taken) = reader.read(&mut piece[..wanted]) else {
            return Err(Short);
        };
        if taken == 0 {
            return Err(Short);
        }
        left -= taken as u64;
    }
    Ok(())
}

/// Reads and drops the bytes before the start, and imports the blobs from there on.
fn import_from<R: Source, K: BlobKeeper, T: Teller, S: Sink>(
    alloc: Global,
    reader: &mut R,
    store: &mut K,
    start: Start,
    teller: &T,
    out: &mut S,
) -> Result<Summary, ImportStop>
    requires { start.at ≤ MAX_OFFSET }
    ensures { DropsAndImports start.dropped start.at (input R.Source reader.old reader.new) (output (T.tells teller.now) S.Sink out.old out.new) (store.new ≡ store.old) (Takes K.BlobReader store.old store.new) result }
{
    match skip(reader, start.dropped) {
        Ok(()) => import_stream(alloc, store, reader, start.at, MAX_BLOBS, teller, out),
        Err(_) => Err(ImportStop {
            fault: ImportFault::Stream(Stop::ReadFailed),
            at: start.at,
        }),
    }
}

/// Whether frames end so where their input ends too early.
fn ends_frames(stop: Stop) -> bool
    ensures { result ≡ ends_frames stop }
{
    match stop {
        Stop::NoHeaderFirst => true,
        Stop::Frame(fault) => matches!(
            fault,
            FrameFault::LengthCut | FrameFault::HeaderCut | FrameFault::BlobCut
        ),
        _ => false,
    }
}

/// Whether an import stops with this fault where its input ends too early.
fn ends_input(fault: ImportFault) -> bool
    ensures { result ≡ ends_input fault }
{
    match fault {
        ImportFault::Stream(stop) => ends_frames(stop),
        _ => false,
    }
}

/// What is told of an input that ended so many bytes before `to`: a read failed where it ended.
fn ended_before(to: u64, lacking: u64) -> Result<Summary, ImportStop>
    ensures { EndsBefore to result }
{
    Err(ImportStop {
        fault: ImportFault::Stream(Stop::ReadFailed),
        at: to.saturating_sub(lacking),
    })
}

/// What is told of an import whose input has to reach as far as `to`, and lacked so many bytes of that.
fn require_end(
    outcome: Result<Summary, ImportStop>,
    to: u64,
    lacking: u64,
) -> Result<Summary, ImportStop>
    ensures { IsTold (Some to) outcome result }
{
    match outcome {
        Ok(summary) if summary.next == to => Ok(summary),
        Ok(_) => ended_before(to, lacking),
        Err(stop) if lacking > 0 && ends_input(stop.fault) => ended_before(to, lacking),
        Err(stop) => Err(stop),
    }
}

/// Writes the line of the fault at which an import stopped. If the output has failed, nothing is written.
fn put_stop<S: Sink>(out: &mut S, stop: ImportStop)
    ensures line { EndsStop (S.written out.old) (S.written out.new) (S.has_failed out.new) stop.at stop.fault }
    ensures kept { stop.fault ≡ ImportFault.WriteFailed → S.has_failed out.new ≡ S.has_failed out.old }
{
    match stop.fault {
        ImportFault::WriteFailed => {}
        fault => put_fault_at(out, fault.number(), fault.name(), stop.at),
    }
}

/// Writes the last line of an import: the counts where it reached the end of its input, or the line of the fault at which
/// it stopped. Answers the exit status.
fn finish<S: Sink>(out: &mut S, outcome: Result<Summary, ImportStop>) -> u8
    ensures line { EndsLine (S.written out.old) (S.written out.new) (S.has_failed out.new) outcome }
    ensures status { result ≡ import_status outcome (S.has_failed out.new) }
    ensures kept { (stop : ImportStopValue) → outcome ≡ Err stop → stop.fault ≡ ImportFault.WriteFailed → S.has_failed out.new ≡ S.has_failed out.old }
    ensures bound { result ≤ 1 }
{
    match outcome {
        Ok(summary) => {
            put_summary(out, &summary);
            if summary.bad == 0 && summary.refused == 0 && !out.failed() {
                0
            } else {
                1
            }
        }
        Err(stop) => {
            put_stop(out, stop);
            1
        }
    }
}

/// Imports the blobs of a reader into a store: all of them, or those that stand before the offset `to` of the file. The first
/// `dropped` bytes are read and dropped; what comes behind them stands at the offset `at` of the file, and a blob has to begin
/// there. Writes a line for each blob that is told, and finally the counts or the line of the fault at which it stopped.
/// Answers the exit status: 0 if all blobs are held, and 1 if a blob was bad or refused, the import stopped, or the output
/// failed.
///
/// No byte at or behind `to` is read. The reader has to end there, or go on behind it; where it ends before, that is
/// `ReadFailed` at the offset where it ended. A frame that reaches behind `to` is cut there, and nothing of it is stored.
///
/// If it answers 0 and the reader's bytes are known, those that were imported are frames, one behind the other; and if the
/// store held nothing, what it holds now is what a run of these at their offsets leaves. From the offset 0 they are a file;
/// and if the store held nothing but blobs of that file, what it holds now tiles it.
///
/// If it answers 0 with `to`, every byte from the start to `to` is in a frame that is held: whole frames, each held at its
/// offset, follow one another from the one to the other, and where the reader's bytes are known they are these frames. What
/// was held before stays held, and beside it nothing is held but these frames.
pub fn import<R: Read + Drop, K: BlobKeeper, T: Teller, S: Sink>(
    alloc: Global,
    reader: R,
    store: &mut K,
    start: Start,
    to: Option<u64>,
    teller: &T,
    out: &mut S,
) -> u8
    requires begins { start.at ≤ MAX_OFFSET }
    requires drops { OnSome to (start.dropped ≤ start.at) }
    requires ends { IfSome to (λ end. (start.at < end) × (end ≤ MAX_OFFSET)) }
    ensures imports { ImportsUpTo start.dropped start.at to (R.remaining reader) (output (T.tells teller.now) S.Sink out.old out.new) (store.new ≡ store.old) (Takes K.BlobReader store.old store.new) result }
    ensures one_file { (bytes : List ℕ) → R.remaining reader ≡ Some bytes → start.at ≡ 0 → result ≡ 0
        → OfHeld K.BlobReader store.old store.new (HoldsFile (K.holds store.new) (imported_of start.dropped start.at to bytes)) }
    ensures part { (bytes : List ℕ) → R.remaining reader ≡ Some bytes → result ≡ 0 → K.holds store.old empty → K.is_honest store.new
        → ImportsPart (K.holds store.new) start.at (imported_of start.dropped start.at to bytes) }
    ensures whole { IfSome to (λ end. result ≡ 0
        → OfHeld K.BlobReader store.old store.new (λ held. HoldsRange (K.holds store.new) held start.dropped start.at end (R.remaining reader))) }
    ensures bound { result ≤ 1 }
{
    let told = match to {
        None => import_from(alloc, &mut Inlet::new(reader), store, start, teller, out),
        Some(to) => {
            let mut front = reader.take(start.dropped + (to - start.at));
            let mut input = Inlet::new(&mut front);
            let outcome = import_from(alloc, &mut input, store, start, teller, out);
            require_end(outcome, to, front.limit())
        }
    };
    finish(out, told)
}

/// Moves an input that stands at its first byte, and can seek, to the last of the bytes that an import drops, so that those
/// before it aren't read. That one is read: a seek also goes behind the end of a file. Answers what is left to drop, all
/// of it where the input can't seek.
pub fn seek_start<S: Seek>(input: &mut S, start: Start) -> Start
    ensures at { result.at ≡ start.at }
    ensures dropped { result.dropped ≤ start.dropped }
    ensures stands { S.stream_position input.old ≡ Some 0 → IfSome (S.stream_position input.new) (λ place. place + result.dropped ≡ start.dropped) }
{
    if start.dropped > 1 {
        if let Ok(_) = input.seek(SeekFrom::Start(start.dropped - 1)) {
            return Start {
                dropped: 1,
                at: start.at,
            };
        }
    }
    start
}
