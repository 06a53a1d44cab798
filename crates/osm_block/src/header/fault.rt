//! Why a header block is refused.

ghost use Rattle.std.specs.Prelude.{◌≡◌};
ghost use Rattle.osm_block.specs.HeaderBlock.{number_of, name_of};

use pbf_wire::WireFault;
use thiserror::Error;

/// Why a header block is refused: the first fault in the order of the numbers.
#[derive(Clone, Copy, Debug, PartialEq, Eq, Error)]
pub enum HeaderFault {
    #[error("the header block or a bounding box is no field list: {0}")]
    HeaderBlockWire(WireFault),
    #[error("the bounding box lacks a side")]
    BBoxIncomplete,
    #[error("a text of the header block isn't UTF-8")]
    HeaderTextNotUtf8,
    /// The index of the feature among the required ones, from 0.
    #[error("required feature {0} isn't known")]
    UnknownFeature(usize),
}

impl HeaderFault {
    /// The number that this fault has in every message of the program, 30 to 33.
    pub fn number(self) -> u8
        ensures { result ≡ number_of self }
    {
        match self {
            HeaderFault::HeaderBlockWire(_) => 30,
            HeaderFault::BBoxIncomplete => 31,
            HeaderFault::HeaderTextNotUtf8 => 32,
            HeaderFault::UnknownFeature(_) => 33,
        }
    }

    /// The name that this fault has in every message of the program.
    pub fn name(self) -> &'static str
        ensures { result.now ≡ name_of self }
    {
        match self {
            HeaderFault::HeaderBlockWire(_) => "HeaderBlockWire",
            HeaderFault::BBoxIncomplete => "BBoxIncomplete",
            HeaderFault::HeaderTextNotUtf8 => "HeaderTextNotUtf8",
            HeaderFault::UnknownFeature(_) => "UnknownFeature",
        }
    }
}
