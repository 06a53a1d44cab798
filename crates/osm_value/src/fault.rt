//! Why a line isn't written.

ghost use Rattle.std.specs.Prelude.{◌≡◌};
ghost use Rattle.osm_value.specs.Fault.{number_of, name_of};

use thiserror::Error;

/// Why an element's line isn't written.
#[derive(Clone, Copy, Debug, PartialEq, Eq, Error)]
pub enum LineFault {
    #[error("a write failed")]
    WriteFailed,
}

impl LineFault {
    /// The number of this fault, 24. The program has no message of it.
    pub fn number(self) -> u8
        ensures { result ≡ number_of self }
    {
        match self {
            LineFault::WriteFailed => 24,
        }
    }

    /// The name of this fault, `WriteFailed`. The program has no message of it.
    pub fn name(self) -> &'static str
        ensures { result.now ≡ name_of self }
    {
        match self {
            LineFault::WriteFailed => "WriteFailed",
        }
    }
}
