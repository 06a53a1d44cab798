//! Any writer as a sink.

ghost use Rattle.std.specs.Prelude.{◌≡◌, false, ◌||◌, OnOk, []};
ghost use Rattle.std.specs.Result.{is_err};
ghost use Rattle.std.specs.Io.Buffered.{writer_buffer};
ghost use Rattle.std.specs.Io.KnownBytes.{Keeps};
ghost use Rattle.osm_value.specs.Outlet.{OutletValue};

use crate::sink::{Sink, SinkFailed};
use std::io::{BufWriter, Write};
use std::marker::Model;

/// A sink that writes to a writer. Lines are written in small pieces: give it a `BufWriter`.
#[derive(Drop)]
pub struct Outlet<W> {
    writer: W,
    has_failed: bool,
}

impl<W> Model for Outlet<W> {
    ghost Value = { OutletValue W };

    ghost view = { λ o. record { writer = o.writer; has_failed = o.has_failed } };
}

impl<W: Write> Outlet<W> {
    /// A sink of this writer, which hasn't failed. It writes nothing.
    pub fn new(writer: W) -> Outlet<W>
        ensures { result ≡ record { writer = writer; has_failed = false } }
    {
        Outlet {
            writer,
            has_failed: false,
        }
    }

    /// Passes on what the writer holds back. `SinkFailed` where the writer's flush fails, which counts as a write that
    /// failed. An earlier failure is no error here: `failed` still tells it.
    pub fn flush(&mut self) -> Result<(), SinkFailed>
        ensures kept { Keeps (W.contents self.old.writer) (W.contents self.new.writer) }
        ensures failed { self.new.has_failed ≡ (self.old.has_failed || is_err result) }
    {
        if self.writer.flush().is_err() {
            self.has_failed = true;
            return Err(SinkFailed);
        }
        Ok(())
    }

    /// The writer, as it is: nothing is flushed.
    pub fn into_inner(self) -> W
        ensures { result ≡ self.writer }
    {
        let Outlet { writer, .. } = self;
        writer
    }
}

impl<W: Write + Drop> Outlet<BufWriter<W>> {
    /// The same of a buffered writer, whose buffer is empty then, unless it failed.
    pub fn flush_all(&mut self) -> Result<(), SinkFailed>
        ensures kept { Keeps (⟦<BufWriter<W> as Write>⟧.contents self.old.writer) (⟦<BufWriter<W> as Write>⟧.contents self.new.writer) }
        ensures failed { self.new.has_failed ≡ (self.old.has_failed || is_err result) }
        ensures empty { OnOk result (writer_buffer self.new.writer ≡ []) }
    {
        if self.writer.flush().is_err() {
            self.has_failed = true;
            return Err(SinkFailed);
        }
        Ok(())
    }
}

impl<W: Write> Sink for Outlet<W> {
    ghost written = { λ o. W.contents o.writer };

    ghost has_failed = { λ o. o.has_failed };

    fn write(&mut self, piece: &[u8]) -> Result<usize, SinkFailed> {
        match self.writer.write(piece) {
            Ok(taken) => {
                self.has_failed |= taken == 0 && !piece.is_empty();
                Ok(taken)
            }
            Err(_) => {
                self.has_failed = true;
                Err(SinkFailed)
            }
        }
    }

    fn failed(&self) -> bool {
        self.has_failed
    }
}
