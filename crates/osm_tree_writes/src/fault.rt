//! What a failure of the trees means for the store.

ghost use Rattle.std.specs.Prelude.{◌≡◌};
ghost use Rattle.osm_rows.specs.Keeping.{IsForeign};
ghost use Rattle.osm_tree_writes.specs.Faults.{fault_of};

use osm_rows::StoreFault;
use sqlite_trees::error::StoreError;

/// What a failure of the trees means for the store: memory was refused, there was no room, or the disk failed.
pub fn fault_of(error: StoreError) -> StoreFault
    ensures told { result ≡ fault_of error }
    ensures ours { ¬ (IsForeign result) }
{
    match error {
        StoreError::OutOfMemory => StoreFault::Memory,
        StoreError::Full | StoreError::Unstorable => StoreFault::Full,
        StoreError::Io | StoreError::Corrupt | StoreError::Broken => StoreFault::Disk,
    }
}
