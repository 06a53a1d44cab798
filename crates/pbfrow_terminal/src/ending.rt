//! The exit status at the end of a command.

ghost use Rattle.std.specs.Prelude.{◌≡◌, ◌≤◌, ◌⊎◌, true, []};
ghost use Rattle.std.specs.Io.Buffered.{writer_buffer};
ghost use Rattle.std.specs.Io.KnownBytes.{Keeps};

use crate::meter::Meter;
use osm_value::Outlet;
use std::io::{BufWriter, Write};

/// The exit status if a fault was printed or the output couldn't be written.
pub const FAULTY: u8 = 1;

/// Passes on what the output holds back, and erases the progress line. Answers the exit status that is given, or `FAULTY`
/// where that fails.
pub fn end<W: Write + Drop>(out: &mut Outlet<BufWriter<W>>, meter: &Meter, status: u8) -> u8
    // the status stays, and nothing is held back, unless the output has failed by now
    ensures told { ((result ≡ status) × (out.new.has_failed ≡ out.old.has_failed) × (writer_buffer out.new.writer ≡ []))
        ⊎ ((result ≡ 1) × (out.new.has_failed ≡ true)) }
    ensures kept { Keeps (⟦<BufWriter<W> as Write>⟧.contents out.old.writer) (⟦<BufWriter<W> as Write>⟧.contents out.new.writer) }
    ensures bound { status ≤ 1 → result ≤ 1 }
{
    let flushed = out.flush_all();
    meter.erase();
    match flushed {
        Ok(()) => status,
        Err(_) => FAULTY,
    }
}
