//! The commands `status` and `export` on several stores that hold blobs of one file.

ghost use Rattle.std.specs.Prelude.{◌≡◌, ◌≤◌, List, IfOk, IfErr, length};
ghost use Rattle.osm_value.specs.Printing.{Prints};
ghost use Rattle.osm_rows.specs.Held.{HeldMap};
ghost use Rattle.osm_parts.specs.Opening.{KeepsMaps, OnlyOpens};
ghost use Rattle.osm_parts.specs.PartsFaults.{IsOfMaps, PartsFaultHasCause};
ghost use Rattle.pbfrow_commands.specs.InParts.{parts_fault_line, TellsOfUnion, TellsParts, TellsUnionExport};
ghost use Rattle.pbfrow_commands.specs.Status.{IsSurvey, TellsStatus};
ghost use Rattle.pbfrow_commands.specs.Telling.{telling};

use crate::export::finish;
use crate::report::put_store_fault;
use crate::status::{Holdings, holdings_of, put_holdings};
use osm_parts::{
    Openings, PartsFault, export_parts_as_lines, export_parts_as_pbf, extents_of_parts, read_parts,
};
use osm_rows::BlobReader;
use osm_value::{Form, Sink};
use pbfrow_reading::report::put_fault_at;
use std::alloc::Global;

/// Writes the line of what keeps stores from being read as one.
pub(crate) fn put_parts_fault<S: Sink>(out: &mut S, fault: PartsFault)
    ensures { Prints S.Sink out.old out.new (parts_fault_line fault) }
{
    match fault {
        PartsFault::Interleaved(off) => put_fault_at(out, fault.number(), fault.name(), off),
        PartsFault::Refused(_, off) => put_fault_at(out, fault.number(), fault.name(), off),
        PartsFault::Store(fault) => put_store_fault(out, fault),
    }
}

/// What `count` stores hold together, read of one after the other.
fn survey_parts<K: BlobReader + Drop, O: Openings<K>>(
    alloc: Global,
    openings: &mut O,
    count: u64,
    size: Option<u64>,
) -> Result<Holdings, PartsFault>
    ensures told { (maps : List HeldMap) → O.holds openings.old maps → O.is_honest openings.new → length maps ≡ count → IfOk result (λ holdings. TellsOfUnion (λ whole. IsSurvey whole size holdings) maps) }
    ensures fault { (maps : List HeldMap) → O.holds openings.old maps → O.is_honest openings.new → length maps ≡ count → IfErr result (IsOfMaps maps) }
    ensures opens { OnlyOpens O.holds O.is_honest O.is_open openings.old result openings.new }
    ensures cause { IfErr result (PartsFaultHasCause (O.failures openings.old) (O.failures openings.new)) }
{
    let parts = read_parts(alloc, openings, count, false)?;
    let extents = extents_of_parts(alloc, &parts)?;
    let holdings = holdings_of(alloc, &extents, size)?;
    Ok(holdings)
}

/// Writes what `status` writes of one store that holds the blobs of all `count` stores, each once, which are opened one
/// after the other; or the line of a fault: 63 `Differs` or 64 `Overlap` with the offset of a blob that another is in the
/// way of, 71 `Interleaved` with that of a blob between those of another store, if there are more than twice as many runs
/// as stores, or a fault of a store. Answers the exit status: 0 if everything was written, and 1 if there was a fault or the output
/// failed. What the stores hold stays.
pub fn status_parts<K: BlobReader + Drop, O: Openings<K>, S: Sink>(
    alloc: Global,
    openings: &mut O,
    count: u64,
    size: Option<u64>,
    out: &mut S,
) -> u8
    ensures told { (maps : List HeldMap) → O.holds openings.old maps → O.is_honest openings.new → length maps ≡ count
        → TellsParts (TellsStatus size) maps (telling O.failures S.Sink openings.old openings.new out.old out.new result) }
    ensures keeps { KeepsMaps O.holds O.is_honest O.is_open openings.old openings.new }
    ensures bound { result ≤ 1 }
{
    match survey_parts(alloc, openings, count, size) {
        Ok(holdings) => put_holdings(out, &holdings),
        Err(fault) => {
            put_parts_fault(out, fault);
            1
        }
    }
}

/// Writes what `export` writes of one store that holds the blobs of all `count` stores, each once, with the same refusals;
/// or the line of a fault, before any byte: those of `status_parts`. Each store is opened once for its extents, since a
/// refusal comes before any byte, and then once for each run of its blobs, one after the other. Answers the exit status: 0 if everything was written, else 1. What the
/// stores hold stays.
pub fn export_parts<K: BlobReader + Drop, O: Openings<K>, S: Sink>(
    alloc: Global,
    openings: &mut O,
    count: u64,
    size: Option<u64>,
    partial: bool,
    form: Form,
    out: &mut S,
) -> u8
    ensures told { (maps : List HeldMap) → O.holds openings.old maps → O.is_honest openings.new → length maps ≡ count
        → TellsParts (TellsUnionExport form size partial maps) maps (telling O.failures S.Sink openings.old openings.new out.old out.new result) }
    ensures keeps { KeepsMaps O.holds O.is_honest O.is_open openings.old openings.new }
    ensures bound { result ≤ 1 }
{
    let asks_history = form == Form::Pbf;
    let parts = match read_parts(alloc, openings, count, asks_history) {
        Ok(parts) => parts,
        Err(fault) => {
            put_parts_fault(out, fault);
            return 1;
        }
    };
    match form {
        Form::Lines => {
            let answer = export_parts_as_lines(alloc, openings, &parts, size, partial, out);
            finish(out, answer)
        }
        Form::Pbf => {
            let answer = export_parts_as_pbf(alloc, openings, &parts, size, partial, out);
            finish(out, answer)
        }
    }
}
