//! The command `export`: the elements of a store.

ghost use Rattle.std.specs.Prelude.{◌≡◌, ◌≤◌, Err};
ghost use Rattle.osm_rows.specs.Calls.{OfHeld};
ghost use Rattle.osm_import.specs.Stores.{Stays};
ghost use Rattle.pbfrow_commands.specs.Exporting.{EndsExport, TellsExport};
ghost use Rattle.pbfrow_commands.specs.Telling.{telling};

use osm_import::{ExportFault, export_lines, export_pbf, put_fault_at, put_plain_fault};
use osm_rows::BlobReader;
use osm_value::{Form, Sink};
use std::alloc::Global;

/// Writes the line of the fault at which an export stopped. If the output has failed, nothing is written.
fn put_export_fault<S: Sink>(out: &mut S, fault: ExportFault)
    ensures ends { EndsExport (S.written out.old) (S.written out.new) (S.has_failed out.new) 1 (Err fault) }
    ensures kept { fault ≡ ExportFault.WriteFailed → S.has_failed out.new ≡ S.has_failed out.old }
{
    match fault {
        ExportFault::WriteFailed => {}
        ExportFault::Miscounted(off) => put_fault_at(out, fault.number(), fault.name(), off),
        fault => put_plain_fault(out, fault.number(), fault.name()),
    }
}

/// Writes what follows the exported text, and answers the exit status.
pub(crate) fn finish<S: Sink>(out: &mut S, answer: Result<(), ExportFault>) -> u8
    ensures ends { EndsExport (S.written out.old) (S.written out.new) (S.has_failed out.new) result answer }
    ensures kept { answer ≡ Err ExportFault.WriteFailed → S.has_failed out.new ≡ S.has_failed out.old }
    ensures bound { result ≤ 1 }
{
    match answer {
        Ok(()) => 0,
        Err(fault) => {
            put_export_fault(out, fault);
            1
        }
    }
}

/// Writes the elements of a store as lines or as a PBF file, or the line of the fault at which it stopped. The file has
/// `size` bytes or, if no size is given, ends with the last blob held. If blobs of it are missing, nothing is exported,
/// unless the export is `partial`. Answers the exit status: 0 if everything was written, else 1.
pub fn export<K: BlobReader, S: Sink>(
    alloc: Global,
    store: &mut K,
    size: Option<u64>,
    partial: bool,
    form: Form,
    out: &mut S,
) -> u8
    ensures told { OfHeld K.BlobReader store.old store.new (λ held. TellsExport form size partial held (telling K.failures S.Sink store.old store.new out.old out.new result)) }
    ensures stays { Stays K.BlobReader store.old store.new }
    ensures bound { result ≤ 1 }
{
    match form {
        Form::Lines => {
            let answer = export_lines(alloc, store, size, partial, out);
            finish(out, answer)
        }
        Form::Pbf => {
            let answer = export_pbf(alloc, store, size, partial, out);
            finish(out, answer)
        }
    }
}
