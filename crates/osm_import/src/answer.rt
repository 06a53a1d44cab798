//! What a delivery is answered with.

ghost use Rattle.std.specs.Prelude.{◌≡◌};
ghost use Rattle.osm_import.specs.Faults.{conflict_number_of, conflict_name_of};

use osm_reading::Fault;
use osm_rows::StoreFault;
use thiserror::Error;

/// Why a good blob is refused.
#[derive(Clone, Copy, Debug, PartialEq, Eq, Error)]
pub enum Conflict {
    /// The offset is held with another SHA-256.
    #[error("another blob is held at this offset")]
    Differs,
    /// The offset isn't held, but a held blob has a byte of this one's extent.
    #[error("the blob's extent meets that of a held one")]
    Overlap,
}

impl Conflict {
    /// The number that this fault has in every message of the program: 63 or 64.
    pub fn number(self) -> u8
        ensures { result ≡ conflict_number_of self }
    {
        match self {
            Conflict::Differs => 63,
            Conflict::Overlap => 64,
        }
    }

    /// The name that this fault has in every message of the program.
    pub fn name(self) -> &'static str
        ensures { result.now ≡ conflict_name_of self }
    {
        match self {
            Conflict::Differs => "Differs",
            Conflict::Overlap => "Overlap",
        }
    }
}

/// What a delivery is answered with. `AlreadyHeld`, `Bad` and `Refused` have changed nothing. After a `Fault` the store
/// holds what it held where it can go on; where it has to be opened again, it then holds that, or that with this blob
/// whole.
#[derive(Clone, Copy, Debug, PartialEq, Eq)]
pub enum Answer {
    /// The blob is held now, with so many elements.
    Stored(u64),
    /// This blob was held already.
    AlreadyHeld,
    /// The delivery isn't good.
    Bad(Fault),
    /// The delivery is good, but what is held is in its way.
    Refused(Conflict),
    /// A call of the store has failed, or memory was refused. The store may have to be opened again, and may hold the
    /// blob then.
    Fault(StoreFault),
}
