//! Why a call of a store fails.

ghost use Rattle.std.specs.Prelude.{◌≡◌};
ghost use Rattle.osm_rows.specs.declared.fault.StoreFault.TheVariants.{Memory};
ghost use Rattle.osm_rows.specs.Faults.{fault_of, fault_of_code, fault_over_unknown, fault_of_unknown_code, number_of, name_of, NamesNoVersion};

use sqlite::{Error as SqlError, ErrorCode};
use std::alloc::{AllocError, AllocFailed};
use thiserror::Error;

/// Why a call of a store fails.
#[derive(Clone, Copy, Debug, PartialEq, Eq, Error)]
pub enum StoreFault {
    #[error("memory was refused")]
    Memory,
    #[error("the database would be too large")]
    Full,
    #[error("the step limit was reached")]
    Interrupted,
    #[error("the disk or the database failed")]
    Disk,
    #[error("the database isn't a store of this version: {0:?}")]
    NotThisStore(Option<i64>),
}

impl StoreFault {
    /// The number that this fault has in every message of the program.
    pub fn number(self) -> u8
        ensures { result ≡ number_of self }
    {
        match self {
            StoreFault::Memory | StoreFault::Full | StoreFault::Interrupted | StoreFault::Disk =>
                65,
            StoreFault::NotThisStore(_) => 66,
        }
    }

    /// The name that this fault has in every message of the program.
    pub fn name(self) -> &'static str
        ensures { result.now ≡ name_of self }
    {
        match self {
            StoreFault::Memory => "Memory",
            StoreFault::Full => "Full",
            StoreFault::Interrupted => "Interrupted",
            StoreFault::Disk => "Disk",
            StoreFault::NotThisStore(_) => "NotThisStore",
        }
    }
}

impl From<AllocError> for StoreFault {
    ghost from_gives = { λ _ e. e ≡ Memory };

    fn from(_: AllocError) -> Self {
        StoreFault::Memory
    }
}

impl<T: Drop> From<AllocFailed<T>> for StoreFault {
    ghost from_gives = { λ _ e. e ≡ Memory };

    fn from(_: AllocFailed<T>) -> Self {
        StoreFault::Memory
    }
}

impl From<SqlError> for StoreFault {
    ghost from_gives = { λ error fault. fault ≡ fault_of error };

    fn from(error: SqlError) -> Self {
        match error {
            SqlError::SqliteFailure(code) => fault_of_code(code),
            _ => StoreFault::Disk,
        }
    }
}

fn fault_of_code(code: ErrorCode) -> StoreFault
    ensures exact { result ≡ fault_of_code code }
    ensures unnamed { NamesNoVersion result }
{
    match code {
        ErrorCode::OutOfMemory => StoreFault::Memory,
        ErrorCode::DiskFull | ErrorCode::TooBig | ErrorCode::SchemaTooBig | ErrorCode::NoRowid =>
            StoreFault::Full,
        ErrorCode::OperationInterrupted => StoreFault::Interrupted,
        _ => StoreFault::Disk,
    }
}

/// What an error means where it isn't known whose tables the database has.
pub fn fault_over_unknown(error: SqlError) -> StoreFault
    ensures exact { result ≡ fault_over_unknown error }
    ensures unnamed { NamesNoVersion result }
{
    match error {
        SqlError::SqliteFailure(code) => fault_of_unknown_code(code),
        _ => StoreFault::NotThisStore(None),
    }
}

fn fault_of_unknown_code(code: ErrorCode) -> StoreFault
    ensures exact { result ≡ fault_of_unknown_code code }
    ensures unnamed { NamesNoVersion result }
{
    match code {
        ErrorCode::OutOfMemory
        | ErrorCode::DiskFull
        | ErrorCode::TooBig
        | ErrorCode::SchemaTooBig
        | ErrorCode::NoRowid
        | ErrorCode::OperationInterrupted
        | ErrorCode::SystemIoFailure
        | ErrorCode::DatabaseCorrupt
        | ErrorCode::DatabaseBusy
        | ErrorCode::CannotOpen
        | ErrorCode::Closed => fault_of_code(code),
        _ => StoreFault::NotThisStore(None),
    }
}
