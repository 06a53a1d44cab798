//! The line of a fault of the store, how a command ends with it, and the last line of an import.

ghost use Rattle.std.specs.Prelude.{◌≡◌};
ghost use Rattle.osm_value.specs.Printing.{Prints};
ghost use Rattle.pbfrow_commands.specs.CommandLines.{store_fault_line, summary_line};

use osm_import::{Summary, put_plain_fault};
use osm_rows::StoreFault;
use osm_value::{Sink, put};
use pbfrow_reading::check::put_total;

/// Writes the line of a fault of the store.
pub fn put_store_fault<S: Sink>(out: &mut S, fault: StoreFault)
    ensures { Prints S.Sink out.old out.new (store_fault_line fault) }
{
    put_plain_fault(out, fault.number(), fault.name());
}

/// Writes the line of a fault of a database, and answers the exit status, 1.
pub fn refuse_store<S: Sink>(out: &mut S, fault: StoreFault) -> u8
    ensures line { Prints S.Sink out.old out.new (store_fault_line fault) }
    ensures status { result ≡ 1 }
{
    put_store_fault(out, fault);
    1
}

/// Writes `blobs stored STORED held HELD bad BAD refused REFUSED`.
pub(crate) fn put_summary<S: Sink>(out: &mut S, summary: &Summary)
    ensures { Prints S.Sink out.old out.new (summary_line summary.now) }
{
    put_total(out, b"blobs stored ", summary.stored);
    put_total(out, b" held ", summary.held);
    put_total(out, b" bad ", summary.bad);
    put_total(out, b" refused ", summary.refused);
    put(out, b"\n");
}
