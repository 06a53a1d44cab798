//! A writer that remembers whether it has failed.

ghost use Rattle.std.specs.Prelude.{◌≡◌, ℕ, ◌≤◌, List, length, Option, Bool, ◌||◌, IfOk};
ghost use Rattle.std.specs.Io.KnownBytes.{WriteAppends};
ghost use Rattle.osm_value.specs.Sink.{stopped};

use thiserror::Error;

/// A write that failed.
#[derive(Clone, Copy, Debug, PartialEq, Eq, Error)]
#[error("a write failed")]
pub struct SinkFailed;

/// What takes bytes, and remembers whether a write has failed.
pub trait Sink {
    /// The bytes held, where the writer tells them.
    ghost written: { Self → Option (List ℕ) };

    /// Whether a write so far failed, or took nothing of a piece that isn't empty.
    ghost has_failed: { Self → Bool };

    /// Takes some bytes of the piece's front, and says how many. `SinkFailed` where the write fails, and then it takes
    /// none. To take none of a piece that isn't empty is a failure, too, which `failed` tells from then on.
    fn write(&mut self, piece: &[u8]) -> Result<usize, SinkFailed>
        ensures taken { WriteAppends (written self.old) (written self.new) result piece.now }
        ensures within { IfOk result (λ n. n ≤ length piece.now) }
        ensures failed { has_failed self.new ≡ (has_failed self.old || stopped result piece.now) };

    /// Whether a write so far failed, or took nothing of a piece that isn't empty.
    fn failed(&self) -> bool
        ensures { result ≡ has_failed self.now };
}
