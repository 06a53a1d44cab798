//! Why elements aren't counted.

ghost use Rattle.std.specs.Prelude.{◌≡◌};
ghost use Rattle.osm_rows.specs.declared.fault.StoreFault.TheVariants.{Memory};
ghost use Rattle.pbfrow_counts.specs.declared.fault.CountFault.TheVariants.{Store};
ghost use Rattle.pbfrow_counts.specs.Counting.{count_number_of, count_name_of};

use osm_rows::StoreFault;
use std::alloc::AllocError;
use thiserror::Error;

/// Why the elements of a store aren't counted.
#[derive(Clone, Copy, Debug, PartialEq, Eq, Error)]
pub enum CountFault {
    /// The blob at this offset has other than as many elements as its row says, or a row that no element has.
    #[error("the rows at {0} aren't those of the blob that was put there")]
    Miscounted(u64),
    /// A call of the store has failed, or memory was refused.
    #[error("{0}")]
    Store(StoreFault),
}

impl CountFault {
    /// The number that this fault has in every message of the program: 66, or that of the store's fault.
    pub fn number(self) -> u8
        ensures { result ≡ count_number_of self }
    {
        match self {
            CountFault::Miscounted(_) => 66,
            CountFault::Store(fault) => fault.number(),
        }
    }

    /// The name that this fault has in every message of the program.
    pub fn name(self) -> &'static str
        ensures { result.now ≡ count_name_of self }
    {
        match self {
            CountFault::Miscounted(_) => "NotThisStore",
            CountFault::Store(fault) => fault.name(),
        }
    }
}

impl From<StoreFault> for CountFault {
    ghost from_gives = { λ fault e. e ≡ Store fault };

    fn from(fault: StoreFault) -> CountFault {
        CountFault::Store(fault)
    }
}

impl From<AllocError> for CountFault {
    ghost from_gives = { λ _ e. e ≡ Store Memory };

    fn from(_: AllocError) -> CountFault {
        CountFault::Store(StoreFault::Memory)
    }
}
