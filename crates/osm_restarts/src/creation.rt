//! That what a crash leaves of a store that is being made may be opened.

ghost use Rattle.std.specs.Prelude.{◌≡◌, ℕ, false, List, MatchResult};
ghost use Rattle.sqlite.specs.Held.{state};
ghost use Rattle.sqlite_store.specs.FileStore.{recovers};
ghost use Rattle.osm_import.specs.Files.{AreFrames};
ghost use Rattle.osm_restarts.specs.Further.{BeginsAfter};
ghost use Rattle.osm_restarts.specs.Left.{LeavesNoTree, MayBeOpened};

use osm_rows::StoreFault;
use osm_sql_store::TableStore;
use sqlite::Connection;
use sqlite_disk::Disk;
use sqlite_store::FileStore;
use sqlite_trees::store::Store;

/// A store that was made in a database of files, or the connection where that failed.
pub type Made<D> = Result<TableStore<FileStore<D>>, (StoreFault, Connection<FileStore<D>>)>;

/// Makes a store in a database of files that lists no tree, nor does what a crash before may have left of it. At any moment of
/// that, and behind it, a crash leaves files of which the opening that looks at no other page may presume what it presumes. If
/// either opening finds a store there (`after`), that holds no blob, and a history of deliveries begins with it, as with the
/// store that was made: no crash leaves a part of one.
pub fn create_before_a_restart<D: Disk, E: Disk>(
    connection: Connection<FileStore<D>>,
    after: &FileStore<E>,
) -> Made<D>
    requires { (state ⟦<FileStore<D> as Store>⟧ connection).in_transaction ≡ false }
    ensures opens { LeavesNoTree (recovers connection.store)
        → MatchResult result (λ made. MayBeOpened made.connection.store) (λ refused. MayBeOpened refused.1.store) }
    ensures begins { LeavesNoTree (recovers connection.store) → (frames : List (List ℕ)) → AreFrames frames
        → MatchResult result (λ made. BeginsAfter made.connection.store frames after.now) (λ refused. BeginsAfter refused.1.store frames after.now) }
{
    let _after = after;
    match TableStore::create(connection) {
        Ok(store) => Ok(store),
        Err(refusal) => Err(refusal),
    }
}
