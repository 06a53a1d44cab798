//! The lines of answered blobs.

ghost use Rattle.std.specs.Prelude.{OnOk, OnErr, IsTrue};
ghost use Rattle.std.specs.Io.KnownBytes.{Appends};
ghost use Rattle.osm_value.specs.Sink.{AppendsFront};
ghost use Rattle.osm_value.specs.Printing.{Prints};
ghost use Rattle.osm_import.specs.Lines.{answer_line, stored_line, held_line, told_line};

use super::teller::Teller;
use crate::answer::Answer;
use osm_reading::put_fault_at;
use osm_value::{Sink, put, put_digits};

/// Writes `OFFSET stored COUNT`.
fn put_stored<S: Sink>(out: &mut S, off: u64, count: u64)
    ensures { Prints S.Sink out.old out.new (stored_line off count) }
{
    put_digits(out, off);
    put(out, b" stored ");
    put_digits(out, count);
    put(out, b"\n");
}

/// Writes `OFFSET held`.
fn put_held<S: Sink>(out: &mut S, off: u64)
    ensures { Prints S.Sink out.old out.new (held_line off) }
{
    put_digits(out, off);
    put(out, b" held\n");
}

/// Writes the line of an answered blob, and none for a fault of the store.
fn put_answer<S: Sink>(out: &mut S, off: u64, answer: &Answer)
    ensures { Prints S.Sink out.old out.new (answer_line off answer.now) }
{
    match answer {
        Answer::Stored(count) => put_stored(out, off, *count),
        Answer::AlreadyHeld => put_held(out, off),
        Answer::Bad(fault) => put_fault_at(out, fault.number(), fault.name(), off),
        Answer::Refused(conflict) => put_fault_at(out, conflict.number(), conflict.name(), off),
        Answer::Fault(_) => {}
    }
}

/// A write that failed.
#[derive(Drop)]
pub(super) struct NotWritten;

/// Writes the line of an answered blob if it is told, and none for a fault of the store.
pub(super) fn write_answer<T: Teller, S: Sink>(
    out: &mut S,
    teller: &T,
    off: u64,
    answer: &Answer,
) -> Result<(), NotWritten>
    ensures line { OnOk result (Appends (S.written out.old) (S.written out.new) (told_line (T.tells teller.now) off answer.now)) }
    ensures front { OnErr result (AppendsFront (S.written out.old) (S.written out.new) (told_line (T.tells teller.now) off answer.now)) }
    ensures failed { OnErr result (IsTrue (S.has_failed out.new)) }
{
    if !teller.tells(answer) {
        return Ok(());
    }
    put_answer(out, off, answer);
    if out.failed() {
        return Err(NotWritten);
    }
    Ok(())
}
