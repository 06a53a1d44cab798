//! What is wrong with a delivery.

ghost use Rattle.std.specs.Prelude.{◌≡◌};
ghost use Rattle.osm_reading.specs.Faults.{number_of, name_of};

use osm_block::{BlockFault, HeaderFault};
use pbf_frame::{BlobFault, FrameFault};
use thiserror::Error;

/// What is wrong with a delivery: the first fault, in the order of the variants, that stands. A frame that would end
/// above 2^62 is its frame's `OffsetTooLarge`.
#[derive(Clone, Copy, Debug, PartialEq, Eq, Error)]
pub enum Fault {
    /// The bytes are no whole frame, or it would end above 2^62.
    #[error("{0}")]
    Frame(FrameFault),
    /// The frame at offset 0 isn't an OSMHeader.
    #[error("the first blob is no OSMHeader")]
    NoHeaderFirst,
    /// The offset isn't 0.
    #[error("an OSMHeader stands behind the first blob")]
    HeaderNotFirst,
    /// The blob of an OSMHeader or of an OSMData gives no raw payload.
    #[error("{0}")]
    Blob(BlobFault),
    /// The header block of an OSMHeader is refused.
    #[error("{0}")]
    Header(HeaderFault),
    /// The block of an OSMData can't be read.
    #[error("{0}")]
    Block(BlockFault),
}

impl Fault {
    /// The number that this fault has in every message of the program: 61, 62, or that of the part at fault.
    pub fn number(self) -> u8
        ensures { result ≡ number_of self }
    {
        match self {
            Fault::Frame(fault) => fault.number(),
            Fault::NoHeaderFirst => 61,
            Fault::HeaderNotFirst => 62,
            Fault::Blob(fault) => fault.number(),
            Fault::Header(fault) => fault.number(),
            Fault::Block(fault) => fault.number(),
        }
    }

    /// The name that this fault has in every message of the program.
    pub fn name(self) -> &'static str
        ensures { result.now ≡ name_of self }
    {
        match self {
            Fault::Frame(fault) => fault.name(),
            Fault::NoHeaderFirst => "NoHeaderFirst",
            Fault::HeaderNotFirst => "HeaderNotFirst",
            Fault::Blob(fault) => fault.name(),
            Fault::Header(fault) => fault.name(),
            Fault::Block(fault) => fault.name(),
        }
    }
}
