//! Why the frames of a source end early.

ghost use Rattle.std.specs.Prelude.{◌≡◌};
ghost use Rattle.osm_reading.specs.StopFaults.{stop_number_of, stop_name_of};

use pbf_frame::FrameFault;
use thiserror::Error;

/// Why the frames of a source end early.
#[derive(Clone, Copy, Debug, PartialEq, Eq, Error)]
pub enum Stop {
    /// The input isn't a sequence of frames.
    #[error("{0}")]
    Frame(FrameFault),
    /// The input has no byte, and was read from offset 0.
    #[error("the input has no first blob")]
    NoHeaderFirst,
    /// It comes only where the source has failed.
    #[error("a read failed")]
    ReadFailed,
    #[error("memory was refused")]
    Memory,
}

impl Stop {
    /// The number that this fault has in every message of the program: 61, 65, 68, or that of the frame's fault.
    pub fn number(self) -> u8
        ensures { result ≡ stop_number_of self }
    {
        match self {
            Stop::Frame(fault) => fault.number(),
            Stop::NoHeaderFirst => 61,
            Stop::ReadFailed => 68,
            Stop::Memory => 65,
        }
    }

    /// The name that this fault has in every message of the program.
    pub fn name(self) -> &'static str
        ensures { result.now ≡ stop_name_of self }
    {
        match self {
            Stop::Frame(fault) => fault.name(),
            Stop::NoHeaderFirst => "NoHeaderFirst",
            Stop::ReadFailed => "ReadFailed",
            Stop::Memory => "Memory",
        }
    }
}

/// Why the frames of a source end early, and the offset, in bytes, of the frame that was being read then.
#[derive(Clone, Copy, Debug, PartialEq, Eq, Error)]
#[error("{fault} (at {at})")]
pub struct StreamFault {
    pub fault: Stop,
    pub at: u64,
}

impl StreamFault {
    /// The number that this fault has in every message of the program.
    pub fn number(self) -> u8
        ensures { result ≡ stop_number_of self.fault }
    {
        self.fault.number()
    }

    /// The name that this fault has in every message of the program.
    pub fn name(self) -> &'static str
        ensures { result.now ≡ stop_name_of self.fault }
    {
        self.fault.name()
    }
}
