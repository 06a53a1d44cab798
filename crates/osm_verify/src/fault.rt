//! Why stores can't be compared with a file.

ghost use Rattle.std.specs.Prelude.{◌≡◌};
ghost use Rattle.osm_rows.specs.declared.fault.StoreFault.TheVariants.{Memory};
ghost use Rattle.osm_parts.specs.declared.fault.PartsFault.TheVariants.{Store};
ghost use Rattle.osm_verify.specs.declared.fault.AuditFault.TheVariants.{Parts};

use osm_parts::PartsFault;
use osm_rows::StoreFault;
use std::alloc::{AllocError, AllocFailed};
use thiserror::Error;

/// Why stores can't be compared with a file.
#[derive(Clone, Copy, Debug, PartialEq, Eq, Error)]
pub enum AuditFault {
    /// Where a read of the file has failed.
    #[error("a read of the file has failed at {0}")]
    Unread(u64),
    /// Why the stores can't be read as one map.
    #[error("{0}")]
    Parts(PartsFault),
}

impl From<PartsFault> for AuditFault {
    ghost from_gives = { λ fault e. e ≡ Parts fault };

    fn from(fault: PartsFault) -> AuditFault {
        AuditFault::Parts(fault)
    }
}

impl From<StoreFault> for AuditFault {
    ghost from_gives = { λ fault e. e ≡ Parts (Store fault) };

    fn from(fault: StoreFault) -> AuditFault {
        AuditFault::Parts(PartsFault::Store(fault))
    }
}

impl From<AllocError> for AuditFault {
    ghost from_gives = { λ _ e. e ≡ Parts (Store Memory) };

    fn from(_: AllocError) -> AuditFault {
        AuditFault::Parts(PartsFault::Store(StoreFault::Memory))
    }
}

impl<T: Drop> From<AllocFailed<T>> for AuditFault {
    ghost from_gives = { λ _ e. e ≡ Parts (Store Memory) };

    fn from(_: AllocFailed<T>) -> AuditFault {
        AuditFault::Parts(PartsFault::Store(StoreFault::Memory))
    }
}
