//! Why several stores aren't read as one map.

ghost use Rattle.std.specs.Prelude.{◌≡◌};
ghost use Rattle.osm_rows.specs.declared.fault.StoreFault.TheVariants.{Memory};
ghost use Rattle.osm_parts.specs.declared.fault.PartsFault.TheVariants.{Store};
ghost use Rattle.osm_parts.specs.PartsFaults.{parts_number_of, parts_name_of};

use osm_import::Conflict;
use osm_rows::StoreFault;
use std::alloc::{AllocError, AllocFailed};
use thiserror::Error;

/// Why several stores aren't read as the parts of one map.
#[derive(Clone, Copy, Debug, PartialEq, Eq, Error)]
pub enum PartsFault {
    /// Where a blob of one store begins that lies between the blobs of another, if there are too many such.
    #[error("the blob at {0} lies between those of another store")]
    Interleaved(u64),
    /// What one store holds is in the way of another's blob, and where the later of both begins.
    #[error("{0} (at {1})")]
    Refused(Conflict, u64),
    /// An opening or a read of a store has failed, or memory was refused.
    #[error("{0}")]
    Store(StoreFault),
}

impl PartsFault {
    /// The number that this fault has in every message of the program: 71, or that of the conflict or of the store's fault.
    pub fn number(self) -> u8
        ensures { result ≡ parts_number_of self }
    {
        match self {
            PartsFault::Interleaved(_) => 71,
            PartsFault::Refused(conflict, _) => conflict.number(),
            PartsFault::Store(fault) => fault.number(),
        }
    }

    /// The name that this fault has in every message of the program.
    pub fn name(self) -> &'static str
        ensures { result.now ≡ parts_name_of self }
    {
        match self {
            PartsFault::Interleaved(_) => "Interleaved",
            PartsFault::Refused(conflict, _) => conflict.name(),
            PartsFault::Store(fault) => fault.name(),
        }
    }
}

impl From<StoreFault> for PartsFault {
    ghost from_gives = { λ fault e. e ≡ Store fault };

    fn from(fault: StoreFault) -> PartsFault {
        PartsFault::Store(fault)
    }
}

impl From<AllocError> for PartsFault {
    ghost from_gives = { λ _ e. e ≡ Store Memory };

    fn from(_: AllocError) -> PartsFault {
        PartsFault::Store(StoreFault::Memory)
    }
}

impl<T: Drop> From<AllocFailed<T>> for PartsFault {
    ghost from_gives = { λ _ e. e ≡ Store Memory };

    fn from(_: AllocFailed<T>) -> PartsFault {
        PartsFault::Store(StoreFault::Memory)
    }
}
