//! Why a block can't be read.

ghost use Rattle.std.specs.Prelude.{◌≡◌};
ghost use Rattle.osm_block.specs.Fault.{number_of, name_of, error_number_of, error_name_of};
ghost use Rattle.osm_block.specs.declared.fault.BlockError.TheVariants.{Memory, Fault};
ghost use Rattle.osm_block.specs.declared.fault.BlockFault.TheVariants.{BlockWire};

use pbf_wire::WireFault;
use std::alloc::{AllocError, AllocFailed};
use thiserror::Error;

/// Why a primitive block can't be read: the first that applies, of the block, then of its groups and
/// of their messages in order.
#[derive(Clone, Copy, Debug, PartialEq, Eq, Error)]
pub enum BlockFault {
    #[error("a message of the block is no field list or a packed array no row of numbers: {0}")]
    BlockWire(WireFault),
    #[error("the block has no string table")]
    NoStringTable,
    #[error("a text of the string table is not UTF-8")]
    TextNotUtf8,
    #[error("a text of the string table holds U+0000")]
    TextHasNul,
    #[error("a granularity is below 1")]
    BadGranularity,
    #[error("a group has elements of several kinds")]
    MixedGroup,
    #[error("an element has no id or a node no place")]
    Missing,
    #[error("arrays of one message differ in length")]
    LengthsDiffer,
    #[error("the string table has no text at an index")]
    BadIndex,
    #[error("a sum of differences does not fit 64 bits")]
    SumTooLarge,
    #[error("a number of an element is outside its range")]
    OutOfRange,
    #[error("the tags of dense nodes are not one row for each node")]
    TagsUneven,
    #[error("a member is no node, way or relation")]
    BadMemberType,
}

impl BlockFault {
    /// The number that this fault has in every message of the program: 40 to 52.
    pub fn number(self) -> u8
        ensures { result ≡ number_of self }
    {
        match self {
            BlockFault::BlockWire(_) => 40,
            BlockFault::NoStringTable => 41,
            BlockFault::TextNotUtf8 => 42,
            BlockFault::TextHasNul => 43,
            BlockFault::BadGranularity => 44,
            BlockFault::MixedGroup => 45,
            BlockFault::Missing => 46,
            BlockFault::LengthsDiffer => 47,
            BlockFault::BadIndex => 48,
            BlockFault::SumTooLarge => 49,
            BlockFault::OutOfRange => 50,
            BlockFault::TagsUneven => 51,
            BlockFault::BadMemberType => 52,
        }
    }

    /// The name that this fault has in every message of the program.
    pub fn name(self) -> &'static str
        ensures { result.now ≡ name_of self }
    {
        match self {
            BlockFault::BlockWire(_) => "BlockWire",
            BlockFault::NoStringTable => "NoStringTable",
            BlockFault::TextNotUtf8 => "TextNotUtf8",
            BlockFault::TextHasNul => "TextHasNul",
            BlockFault::BadGranularity => "BadGranularity",
            BlockFault::MixedGroup => "MixedGroup",
            BlockFault::Missing => "Missing",
            BlockFault::LengthsDiffer => "LengthsDiffer",
            BlockFault::BadIndex => "BadIndex",
            BlockFault::SumTooLarge => "SumTooLarge",
            BlockFault::OutOfRange => "OutOfRange",
            BlockFault::TagsUneven => "TagsUneven",
            BlockFault::BadMemberType => "BadMemberType",
        }
    }
}

/// A fault of the block, or that memory was refused.
#[derive(Clone, Copy, Debug, PartialEq, Eq, Error)]
pub enum BlockError {
    #[error("out of memory")]
    Memory,
    #[error("{0}")]
    Fault(BlockFault),
}

impl BlockError {
    /// The number that this error has in every message of the program: 65, or that of the fault.
    pub fn number(self) -> u8
        ensures { result ≡ error_number_of self }
    {
        match self {
            BlockError::Memory => 65,
            BlockError::Fault(fault) => fault.number(),
        }
    }

    /// The name that this error has in every message of the program.
    pub fn name(self) -> &'static str
        ensures { result.now ≡ error_name_of self }
    {
        match self {
            BlockError::Memory => "Memory",
            BlockError::Fault(fault) => fault.name(),
        }
    }
}

impl From<WireFault> for BlockError {
    ghost from_gives = { λ f e. e ≡ Fault (BlockWire f) };

    fn from(fault: WireFault) -> BlockError {
        BlockError::Fault(BlockFault::BlockWire(fault))
    }
}

impl From<BlockFault> for BlockError {
    ghost from_gives = { λ f e. e ≡ Fault f };

    fn from(fault: BlockFault) -> BlockError {
        BlockError::Fault(fault)
    }
}

impl From<AllocError> for BlockError {
    ghost from_gives = { λ _ e. e ≡ Memory };

    fn from(_e: AllocError) -> BlockError {
        BlockError::Memory
    }
}

impl<T: Drop> From<AllocFailed<T>> for BlockError {
    ghost from_gives = { λ _ e. e ≡ Memory };

    fn from(_e: AllocFailed<T>) -> BlockError {
        BlockError::Memory
    }
}
