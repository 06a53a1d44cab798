//! Why an import stops.

ghost use Rattle.std.specs.Prelude.{◌≡◌};
ghost use Rattle.osm_import.specs.ImportFaults.{import_number_of, import_name_of};

use osm_reading::Stop;
use osm_rows::StoreFault;
use thiserror::Error;

/// Why an import stops.
#[derive(Clone, Copy, Debug, PartialEq, Eq, Error)]
pub enum ImportFault {
    /// The frames of the input end early, or there are none.
    #[error("{0}")]
    Stream(Stop),
    /// It comes only where the sink has failed.
    #[error("a write failed")]
    WriteFailed,
    /// A call of the store has failed, or memory was refused in a delivery.
    #[error("{0}")]
    Store(StoreFault),
    /// The input has bytes behind the last blob that was asked for.
    #[error("the input has more blobs")]
    BlobLimit,
}

impl ImportFault {
    /// The number that this fault has in every message of the program: 24, 69, or that of the input's or the store's
    /// fault.
    pub fn number(self) -> u8
        ensures { result ≡ import_number_of self }
    {
        match self {
            ImportFault::Stream(stop) => stop.number(),
            ImportFault::WriteFailed => 24,
            ImportFault::Store(fault) => fault.number(),
            ImportFault::BlobLimit => 69,
        }
    }

    /// The name that this fault has in every message of the program.
    pub fn name(self) -> &'static str
        ensures { result.now ≡ import_name_of self }
    {
        match self {
            ImportFault::Stream(stop) => stop.name(),
            ImportFault::WriteFailed => "WriteFailed",
            ImportFault::Store(fault) => fault.name(),
            ImportFault::BlobLimit => "BlobLimit",
        }
    }
}

/// Why an import stops, and the offset, in bytes, of the frame that was being read or delivered then.
#[derive(Clone, Copy, Debug, PartialEq, Eq, Error)]
#[error("{fault} (at {at})")]
pub struct ImportStop {
    pub fault: ImportFault,
    pub at: u64,
}
