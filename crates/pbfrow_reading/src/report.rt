//! The lines of a fault at an offset and of refused memory.

ghost use Rattle.std.specs.Prelude.{◌≡◌};
ghost use Rattle.osm_value.specs.Printing.{Prints};
ghost use Rattle.pbfrow_reading.specs.CommandLines.{memory_line};

pub use osm_reading::put_fault_at;
use osm_reading::{Stop, put_plain_fault};
use osm_value::Sink;

/// Writes the line of refused memory, with the offset where the command has one, and answers the exit status, 1. The line
/// itself takes no memory.
pub fn refuse_memory<S: Sink>(out: &mut S, at: Option<u64>) -> u8
    ensures line { Prints S.Sink out.old out.new (memory_line at) }
    ensures status { result ≡ 1 }
{
    let fault = Stop::Memory;
    match at {
        Some(off) => put_fault_at(out, fault.number(), fault.name(), off),
        None => put_plain_fault(out, fault.number(), fault.name()),
    }
    1
}
