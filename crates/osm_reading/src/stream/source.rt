//! A reader that remembers whether it has failed.

ghost use Rattle.std.specs.Prelude.{◌≡◌, Bool, false, ◌||◌, Option, List, ℕ};
ghost use Rattle.std.specs.Result.{is_err};
ghost use Rattle.std.specs.Io.{ReadsAtMost};
ghost use Rattle.std.specs.Io.KnownBytes.{ReadConsumes};
ghost use Rattle.osm_reading.specs.Inlets.{InletValue};

use std::io::Read;
use std::marker::Model;
use thiserror::Error;

/// A read that failed.
#[derive(Clone, Copy, Debug, PartialEq, Eq, Error)]
#[error("a read failed")]
pub struct SourceFailed;

/// What gives bytes, and remembers whether a read has failed.
pub trait Source {
    /// The bytes left, where the reader tells them.
    ghost bytes_left: { Self → Option (List ℕ) };

    /// Whether a read so far failed. The end of the input is no failure.
    ghost has_failed: { Self → Bool };

    /// Reads some bytes into the buffer, and says how many; none only at the end of the input or where the buffer is
    /// empty. `SourceFailed` where the read fails, and then nothing was taken of the input.
    fn read(&mut self, buffer: &mut [u8]) -> Result<usize, SourceFailed>
        ensures within { ReadsAtMost result buffer.new }
        ensures consumed { ReadConsumes (bytes_left self.old) (bytes_left self.new) result buffer.new }
        ensures failed { has_failed self.new ≡ (has_failed self.old || is_err result) };

    /// Whether a read so far failed.
    fn failed(&self) -> bool
        ensures { result ≡ has_failed self.now };
}

/// A source that reads from a reader. An interrupted read is a failure too.
#[derive(Drop)]
pub struct Inlet<R> {
    reader: R,
    has_failed: bool,
}

impl<R> Model for Inlet<R> {
    ghost Value = { InletValue R };

    ghost view = { λ i. record { reader = i.reader; has_failed = i.has_failed } };
}

impl<R: Read> Inlet<R> {
    /// A source of this reader, which hasn't failed. It reads nothing.
    pub fn new(reader: R) -> Inlet<R>
        ensures { result ≡ record { reader = reader; has_failed = false } }
    {
        Inlet {
            reader,
            has_failed: false,
        }
    }
}

impl<R: Read> Source for Inlet<R> {
    ghost bytes_left = { λ inlet. R.remaining inlet.reader };

    ghost has_failed = { λ inlet. inlet.has_failed };

    fn read(&mut self, buffer: &mut [u8]) -> Result<usize, SourceFailed> {
        match self.reader.read(buffer) {
            Ok(count) => Ok(count),
            Err(_) => {
                self.has_failed = true;
                Err(SourceFailed)
            }
        }
    }

    fn failed(&self) -> bool {
        self.has_failed
    }
}
