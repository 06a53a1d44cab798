//! Why a block isn't written.

ghost use Rattle.std.specs.Prelude.{◌≡◌};
ghost use Rattle.osm_write.specs.declared.fault.WriteFault.TheVariants.{Memory};
ghost use Rattle.osm_write.specs.Fault.{number_of, name_of};

use std::alloc::AllocError;
use thiserror::Error;

/// Why a block isn't written.
#[derive(Clone, Copy, Debug, PartialEq, Eq, Error)]
pub enum WriteFault {
    #[error("the block would have more than 33554431 bytes")]
    BlockTooLarge,
    #[error("memory was refused")]
    Memory,
}

impl WriteFault {
    /// The number that this fault has in every message of the program: 53 or 65.
    pub fn number(self) -> u8
        ensures { result ≡ number_of self }
    {
        match self {
            WriteFault::BlockTooLarge => 53,
            WriteFault::Memory => 65,
        }
    }

    /// The name that this fault has in every message of the program.
    pub fn name(self) -> &'static str
        ensures { result.now ≡ name_of self }
    {
        match self {
            WriteFault::BlockTooLarge => "BlockTooLarge",
            WriteFault::Memory => "Memory",
        }
    }
}

impl From<AllocError> for WriteFault {
    ghost from_gives = { λ _ e. e ≡ Memory };

    fn from(_: AllocError) -> Self {
        WriteFault::Memory
    }
}
