//! Why a database can't be opened.

ghost use Rattle.std.specs.Prelude.{◌≡◌};
ghost use Rattle.pbfrow_files.specs.declared.fault.OpenFault.TheVariants.{Memory};
ghost use Rattle.pbfrow_files.specs.Fault.{fault_of, fault_of_open, unless_locked};

use sqlite_std_file::OpenError;
use std::alloc::AllocError;
use std::fs::TryLockError;
use std::io;
use std::io::ErrorKind;
use thiserror::Error;

/// Why a database can't be opened.
#[derive(Clone, Copy, Debug, Drop, Error)]
pub enum OpenFault {
    /// Nothing has this name.
    #[error("no such file")]
    Missing,
    /// What has this name is a folder, a pipe, a device or the like; or it is a link where the file has to stand itself.
    #[error("not a regular file")]
    NotAFile,
    /// Another name leads to the same file. Its log would not be found by that name.
    #[error("it has more than one name (a hard link)")]
    ManyNames,
    /// This process may not read it, or may not write it.
    #[error("permission denied")]
    Denied,
    /// Another program, or this one, has it locked.
    #[error("in use by another program")]
    Busy,
    /// SQLite left a rollback journal, which only it can play back.
    #[error("a rollback journal stands beside it: open it with sqlite3 first")]
    HotJournal,
    /// Memory was refused.
    #[error("out of memory")]
    Memory,
    /// Any other error of the system.
    #[error(transparent)]
    Io(io::Error),
}

impl From<io::Error> for OpenFault {
    ghost from_gives = { λ error fault. fault ≡ fault_of error };

    fn from(error: io::Error) -> OpenFault {
        match error.kind() {
            ErrorKind::NotFound => OpenFault::Missing,
            ErrorKind::PermissionDenied => OpenFault::Denied,
            ErrorKind::WouldBlock => OpenFault::Busy,
            ErrorKind::OutOfMemory => OpenFault::Memory,
            _ => OpenFault::Io(error),
        }
    }
}

impl From<AllocError> for OpenFault {
    ghost from_gives = { λ _ fault. fault ≡ Memory };

    fn from(_error: AllocError) -> OpenFault {
        OpenFault::Memory
    }
}

/// Refuses a file that another program has locked. Where its file system has no such locks, that can't be told, and the file is
/// taken.
pub(crate) fn unless_locked(outcome: Result<(), TryLockError>) -> Result<(), OpenFault>
    ensures { result ≡ unless_locked outcome }
{
    match outcome {
        Err(TryLockError::WouldBlock) => Err(OpenFault::Busy),
        Err(TryLockError::Error(_)) => Ok(()),
        Ok(()) => Ok(()),
    }
}

impl From<OpenError> for OpenFault {
    ghost from_gives = { λ error fault. fault ≡ fault_of_open error };

    fn from(error: OpenError) -> OpenFault {
        match error {
            OpenError::OutOfMemory => OpenFault::Memory,
            OpenError::Busy => OpenFault::Busy,
            OpenError::HotJournal => OpenFault::HotJournal,
            OpenError::Io(error) => {
                // the system's own errors have a number, and the refusal of a file for its names has none
                if error.kind() == ErrorKind::Unsupported && error.raw_os_error().is_none() {
                    OpenFault::ManyNames
                } else {
                    error.into()
                }
            }
        }
    }
}
