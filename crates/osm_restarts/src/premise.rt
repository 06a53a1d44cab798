//! That what is left of a store meets the premise of its opening.

ghost use Rattle.sqlite_trees.specs.Tree.{Trees};
ghost use Rattle.sqlite_store.specs.FileStore.{recovers};
ghost use Rattle.sqlite_wal.specs.Recovery.{Image};
ghost use Rattle.osm_openings.specs.Presumed.{ArePresumedTables};
ghost use Rattle.osm_restarts.specs.Left.{ListsAStore, MayCrashTo};

use sqlite_disk::Disk;
use sqlite_store::FileStore;

/// Whatever a crash may leave of the files of a store, its opening may presume of them what it presumes, as long as no pages
/// end in sums, and what is left lists no tree at all, as that of a store that was being made; or the trees of a store and
/// nothing else; or each other tree as its row asks (`ListsAsAsked`), as that of a store that an opening gave over a database
/// with the user's own tables, indexes, views and triggers. What a store lists it lists between any two calls and where one was
/// broken off, since each call keeps it so (`ListsAlways`).
pub fn what_is_left_may_be_opened<D: Disk>(store: &FileStore<D>)
    ensures { ((db : Trees) → recovers store.now db → ListsAStore db) → (image : Image) → MayCrashTo image store.now → ArePresumedTables image }
{
    let _store = store;
}
