//! The run over a stream.

ghost use Rattle.std.specs.Prelude.{◌≡◌, ◌≤◌, [], ℕ, List, Some, IfOk, IfErr};
ghost use Rattle.std.specs.FinMap.{empty};
ghost use Rattle.osm_rows.specs.Held.{HeldMap};
ghost use Rattle.osm_import.specs.Merges.{ImportsPart};
ghost use Rattle.osm_import.specs.Flows.{input, input_behind, output};
ghost use Rattle.osm_import.specs.Stores.{Takes, TakesOne};
ghost use Rattle.osm_import.specs.Streams.{Streams, ended_at, ImportsFile};
ghost use Rattle.osm_import.specs.StreamSteps.{FrameStep, Gave};

use super::fault::{ImportFault, ImportStop};
use super::line::write_answer;
use super::summary::Summary;
use super::teller::Teller;
use crate::answer::Answer;
use crate::delivery::deliver;
use osm_reading::{Piece, Source, Stop, has_more, read_frame};
use osm_rows::BlobKeeper;
use osm_value::Sink;
use pbf_frame::{FrameFault, Framer, MAX_OFFSET};
use std::alloc::Global;

/// A frame that was delivered: where it stands and ends, and what it was answered with.
#[derive(Clone, Copy)]
struct Delivered {
    off: u64,
    fin: u64,
    answer: Answer,
}

/// Delivers the frame that waits, if one does.
fn deliver_waiting<K: BlobKeeper>(
    alloc: Global,
    keeper: &mut K,
    framer: &mut Framer,
) -> Result<Option<Delivered>, FrameFault>
    ensures { Gave framer.old framer.new (keeper.new ≡ keeper.old) (TakesOne K.BlobReader keeper.old keeper.new) result }
{
    let lent = match framer.next_frame() {
        Err(fault) => return Err(fault),
        Ok(None) => return Ok(None),
        Ok(Some(lent)) => lent,
    };
    let (off, frame) = lent;
    let fin = off + frame.len() as u64;
    let answer = deliver(alloc, keeper, off, frame);
    Ok(Some(Delivered { off, fin, answer }))
}

/// Reads the next frame, delivers it and writes its line if it is told. None where the input has ended.
fn import_frame<K: BlobKeeper, R: Source, T: Teller, S: Sink>(
    alloc: Global,
    keeper: &mut K,
    framer: &mut Framer,
    piece: &mut Piece,
    reader: &mut R,
    teller: &T,
    out: &mut S,
) -> Result<Option<Delivered>, ImportFault>
    requires { framer.old.rest ≡ [] }
    ensures step { FrameStep framer.old framer.new (input_behind R.Source piece.old piece.new reader.old reader.new) (output (T.tells teller.now) S.Sink out.old out.new)
        (keeper.new ≡ keeper.old) (TakesOne K.BlobReader keeper.old keeper.new) result }
    ensures spent { IfErr result (λ fault. fault ≡ ImportFault.Stream Stop.ReadFailed → piece.new ≡ []) }
{
    match read_frame(framer, piece, reader) {
        Ok(()) => {}
        Err(stop) => return Err(ImportFault::Stream(stop)),
    }
    let blob = match deliver_waiting(alloc, keeper, framer) {
        Ok(Some(blob)) => blob,
        Ok(None) => return Ok(None),
        Err(fault) => return Err(ImportFault::Stream(Stop::Frame(fault))),
    };
    if let Answer::Fault(fault) = blob.answer {
        return Err(ImportFault::Store(fault));
    }
    match write_answer(out, teller, blob.off, &blob.answer) {
        Ok(()) => Ok(Some(blob)),
        Err(_) => Err(ImportFault::WriteFailed),
    }
}

/// What is said at the end of an input that stood at `from` at its start.
fn end_of(from: u64, summary: Summary) -> Result<Summary, ImportStop>
    ensures { result ≡ ended_at from summary }
{
    if from == 0 && summary.next == 0 {
        return Err(ImportStop {
            fault: ImportFault::Stream(Stop::NoHeaderFirst),
            at: 0,
        });
    }
    Ok(summary)
}

/// Imports the frames of a reader that stands at the offset `from`, in bytes and at most 2^62, each with one line if the
/// teller says so: `OFFSET stored COUNT`, `OFFSET held`, or `fault NUMBER NAME at OFFSET` for a blob that is bad or refused,
/// and goes on. At `Ok` nothing is left in the reader. It stops, with the offset of the frame that was being read or delivered:
///
/// - with `Stream` where the frames end early: at a fault of one, with `NoHeaderFirst` where the input is empty and `from`
///   is 0, with `ReadFailed` where the reader has failed, and with `Memory` where memory was refused to read;
/// - with `Store` where a call of the store has failed or memory was refused in a delivery, and with no line for that frame;
/// - with `WriteFailed` where the output has failed;
/// - with `BlobLimit` where `max_blobs` frames were delivered and a further byte came.
///
/// The blobs that were answered before a stop stay. Each frame that isn't answered `stored` leaves the tables, whatever rows
/// they have, where the store can go on.
///
/// Over the bytes of a whole reader, from 0, `Ok` says that they are a file; and where the store held nothing but
/// entries of that file and no blob was bad, what it holds now tiles the file.
pub fn import_stream<K: BlobKeeper, R: Source, T: Teller, S: Sink>(
    alloc: Global,
    keeper: &mut K,
    reader: &mut R,
    from: u64,
    max_blobs: u32,
    teller: &T,
    out: &mut S,
) -> Result<Summary, ImportStop>
    requires { from ≤ MAX_OFFSET }
    ensures streams { Streams from max_blobs (input R.Source reader.old reader.new) (output (T.tells teller.now) S.Sink out.old out.new) (Takes K.BlobReader keeper.old keeper.new) result }
    ensures one_file { (file : List ℕ) (held : HeldMap) → R.bytes_left reader.old ≡ Some file → from ≡ 0 → K.holds keeper.old held → K.is_honest keeper.new
        → IfOk result (λ summary. ImportsFile (K.holds keeper.new) file held summary) }

    // Into a store that holds nothing, from any offset: the bytes are a row of frames, and what is held is a run of them.
    ensures part { (piece : List ℕ) → R.bytes_left reader.old ≡ Some piece → K.holds keeper.old empty → K.is_honest keeper.new
        → IfOk result (λ _. ImportsPart (K.holds keeper.new) from piece) }
{
    let mut summary = Summary {
        stored: 0,
        held: 0,
        bad: 0,
        refused: 0,
        next: from,
    };
    let Ok(mut piece) = Piece::new(alloc) else {
        return Err(ImportStop {
            fault: ImportFault::Stream(Stop::Memory),
            at: from,
        });
    };
    let mut framer = Framer::new(alloc, from);
    for _blobs in 0..max_blobs {
        match import_frame(alloc, keeper, &mut framer, &mut piece, reader, teller, out) {
            Ok(Some(blob)) => summary.add(&blob.answer, blob.fin),
            Ok(None) => return end_of(from, summary),
            Err(fault) => {
                return Err(ImportStop {
                    fault,
                    at: summary.next,
                });
            }
        }
    }
    match has_more(&mut piece, reader) {
        Ok(false) => end_of(from, summary),
        Ok(true) => Err(ImportStop {
            fault: ImportFault::BlobLimit,
            at: summary.next,
        }),
        Err(_) => Err(ImportStop {
            fault: ImportFault::Stream(Stop::ReadFailed),
            at: summary.next,
        }),
    }
}
