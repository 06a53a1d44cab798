//! Why an export ends early.

ghost use Rattle.std.specs.Prelude.{◌≡◌};
ghost use Rattle.osm_rows.specs.declared.fault.StoreFault.TheVariants.{Memory};
ghost use Rattle.osm_import.specs.declared.export.fault.ExportFault.TheVariants.{Store};
ghost use Rattle.osm_import.specs.ExportFaults.{export_number_of, export_name_of};

use osm_rows::StoreFault;
use std::alloc::AllocError;
use thiserror::Error;

/// Why an export ends early. The first two come before any byte.
#[derive(Clone, Copy, Debug, PartialEq, Eq, Error)]
pub enum ExportFault {
    /// The first gap in what is held; (0, 0) where nothing is held and the size is 0.
    #[error("the bytes from {0} to {1} aren't held")]
    Incomplete(u64, u64),
    /// The greatest end of what is held is past the size.
    #[error("what is held ends at {0}, past the size")]
    PastEnd(u64),
    /// It comes only where the sink has failed.
    #[error("a write failed")]
    WriteFailed,
    /// An element whose block alone has more than 33,554,431 bytes. It comes from exports as PBF alone.
    #[error("an element is too large for a block")]
    BlockTooLarge,
    /// The blob at this offset has other than as many elements as its row says, or a row that no element has. Nothing of it
    /// is written.
    #[error("the rows at {0} aren't those of the blob that was put there")]
    Miscounted(u64),
    /// A call of the store has failed, or memory was refused.
    #[error("{0}")]
    Store(StoreFault),
}

impl ExportFault {
    /// The number that this fault has in every message of the program: 67, 70, 24, 53, 66, or that of the store's fault.
    pub fn number(self) -> u8
        ensures { result ≡ export_number_of self }
    {
        match self {
            ExportFault::Incomplete(_, _) => 67,
            ExportFault::PastEnd(_) => 70,
            ExportFault::WriteFailed => 24,
            ExportFault::BlockTooLarge => 53,
            ExportFault::Miscounted(_) => 66,
            ExportFault::Store(fault) => fault.number(),
        }
    }

    /// The name that this fault has in every message of the program.
    pub fn name(self) -> &'static str
        ensures { result.now ≡ export_name_of self }
    {
        match self {
            ExportFault::Incomplete(_, _) => "Incomplete",
            ExportFault::PastEnd(_) => "PastEnd",
            ExportFault::WriteFailed => "WriteFailed",
            ExportFault::BlockTooLarge => "BlockTooLarge",
            ExportFault::Miscounted(_) => "NotThisStore",
            ExportFault::Store(fault) => fault.name(),
        }
    }
}

impl From<StoreFault> for ExportFault {
    ghost from_gives = { λ fault e. e ≡ Store fault };

    fn from(fault: StoreFault) -> ExportFault {
        ExportFault::Store(fault)
    }
}

impl From<AllocError> for ExportFault {
    ghost from_gives = { λ _ e. e ≡ Store Memory };

    fn from(_: AllocError) -> ExportFault {
        ExportFault::Store(StoreFault::Memory)
    }
}
