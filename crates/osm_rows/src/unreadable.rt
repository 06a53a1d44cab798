//! What it means that a column doesn't read as wanted.

ghost use Rattle.std.specs.Prelude.{◌≡◌};
ghost use Rattle.osm_rows.specs.Faults.{NamesNoVersion};
ghost use Rattle.osm_rows.specs.Load.Unread.{unread_fault};

use crate::fault::StoreFault;
use sqlite::{Error as SqlError, ErrorCode};

/// What a column that doesn't read as wanted means: a row of no map, or that memory was refused.
pub fn unread(error: SqlError) -> StoreFault
    ensures exact { result ≡ unread_fault error }
    ensures unnamed { NamesNoVersion result }
{
    match error {
        SqlError::SqliteFailure(ErrorCode::OutOfMemory) => StoreFault::Memory,
        _ => StoreFault::NotThisStore(None),
    }
}
