//! The trees of files, opened by their list or by SQL, and what stands in the way.

ghost use Rattle.std.specs.Prelude.{◌≡◌, false, IsTrue, IfOk, IfSome};
ghost use Rattle.sqlite.specs.Files.{IsBlankAs, file_state, image_of};
ghost use Rattle.sqlite.specs.Held.{IsNew};
ghost use Rattle.sqlite.specs.State.{HasCleanDisk};
ghost use Rattle.sqlite_trees.specs.View.{IsClean, IsQuiet};
ghost use Rattle.sqlite_store.specs.FileStore.{view, faults, recovers, is_shielded};
ghost use Rattle.sqlite_wal.specs.Files.{seen_image};
ghost use Rattle.osm_openings.specs.Opened.{IsOpened};
ghost use Rattle.osm_openings.specs.Presumed.{ArePresumedTables};
ghost use Rattle.osm_databases.specs.Checked.{IsOfVersion};

use crate::reason::{Reason, Refusal};
use osm_openings::{Obstruction, find_obstacle, open_checked_tables, open_tables};
use osm_rows::StoreFault;
use pbfrow_files::OpenFault;
use sqlite::{Connection, Error as SqlError, ErrorCode};
use sqlite_disk::{Disk, Files};
use sqlite_pager::Options;
use sqlite_store::FileStore;
use sqlite_trees::store::Store;
use std::hash::{BuildHasher, RandomState};

/// How many pages the log of a database grows to before they are copied into it: 64 MiB. Each blob waits for the disk once,
/// and each copy several times, so one copy serves many blobs.
const CHECKPOINT_FRAMES: usize = 16_384;

/// How many pages of a database are kept in memory, each of 4,096 bytes.
#[derive(Clone, Copy, Debug)]
pub struct KeptPages {
    /// Of those that were read.
    pub read: usize,
    /// Of those that were changed, before they go to the log. The fewer, the oftener a page goes there, and what is kept in
    /// memory of the log grows with it.
    pub changed: usize,
}

/// The pages of a database that is written to, checked as a whole or opened by SQL: many, since the entries of an index may be
/// sought in any order.
pub const MANY_PAGES: KeptPages = KeptPages {
    read: 2_000,
    changed: 2_000,
};

/// The pages of one that is only asked, since its trees are read from some place on, and of one that others are merged into,
/// since a merge also holds the rows of a blob, and its elements.
pub const FEW_PAGES: KeptPages = KeptPages {
    read: 100,
    changed: 250,
};

/// How a database is opened, of which at most these pages are kept in memory.
fn options(rt: &HostRuntime, pages: KeptPages) -> Result<Options, Refusal> {
    let random = match RandomState::new(rt) {
        Ok(random) => random,
        Err(error) => return Err(OpenFault::Io(error).into()),
    };
    let mut options = Options::new(random.hash_one(&0u8));
    options.cache_pages = pages.read;
    options.spill_pages = pages.changed;
    options.checkpoint_frames = CHECKPOINT_FRAMES;
    Ok(options)
}

/// The trees of files that are a database of this version, of which at most these pages are kept in memory. They are what the
/// files' bytes read as, if these are those of a sound database, and nothing is written beyond the last commit.
pub fn trees_in<D: Disk + Drop>(
    rt: &HostRuntime,
    files: Files<D>,
    pages: KeptPages,
) -> Result<Option<FileStore<D>>, Refusal>
    requires log { IsTrue (D.Disk.is_usable files.log) }
    requires db { IsTrue (D.Disk.is_usable files.db) }
    requires presumed { ArePresumedTables (seen_image D.Disk files.log files.db) }
    ensures version { IfOk result (λ found. IfSome found (λ store. IsClean (view store) → IsOfVersion (view store))) }
    ensures opened { IfOk result (λ found. IfSome found (λ store. IsClean (view store) → IsOpened (seen_image D.Disk files.log files.db) (view store))) }
{
    let options = options(rt, pages)?;
    match open_tables(rt.alloc(), files, options) {
        Ok(found) => Ok(found),
        Err(refused) => Err(refused.into()),
    }
}

/// The same, with a look at each page and each tree, so that nothing is presumed of the files.
pub fn checked_trees_in<D: Disk + Drop>(
    rt: &HostRuntime,
    files: Files<D>,
    pages: KeptPages,
) -> Result<Option<FileStore<D>>, Refusal>
    requires log { IsTrue (D.Disk.is_usable files.log) }
    requires db { IsTrue (D.Disk.is_usable files.db) }
    ensures version { IfOk result (λ found. IfSome found (λ store. IsClean (view store) → IsOfVersion (view store))) }
    ensures opened { IfOk result (λ found. IfSome found (λ store. IsClean (view store) → IsOpened (seen_image D.Disk files.log files.db) (view store))) }
{
    let options = options(rt, pages)?;
    match open_checked_tables(rt.alloc(), files, options) {
        Ok(found) => Ok(found),
        Err(refused) => Err(refused.into()),
    }
}

/// Files, opened by SQL, of which at most these pages are kept in memory. The pages of a database that is made in files where
/// there was none end in no sums.
pub fn connection_in<D: Disk + Drop>(
    rt: &HostRuntime,
    files: Files<D>,
    pages: KeptPages,
) -> Result<Connection<FileStore<D>>, Refusal>
    requires log { IsTrue (D.Disk.is_usable files.log) }
    requires db { IsTrue (D.Disk.is_usable files.db) }
    ensures fresh { IfOk result IsNew }
    ensures plain { IfOk result (λ connection. HasCleanDisk (file_state connection) → IsBlankAs false (image_of D.Disk files) → (view connection.store).has_sums ≡ false) }
{
    let options = options(rt, pages)?;
    match Connection::open_files(rt.alloc(), files, options) {
        Ok(connection) => Ok(connection),
        Err((error, _)) => Err(sql_refusal(error)),
    }
}

/// Why SQL doesn't open a database: memory was refused, or any other cause.
fn sql_refusal(error: SqlError) -> Refusal {
    match error {
        SqlError::SqliteFailure(ErrorCode::OutOfMemory) => StoreFault::Memory.into(),
        _ => Refusal {
            fault: StoreFault::Disk,
            reason: Reason::Sql(error),
        },
    }
}

/// What stands in the way of files, if that can be told.
pub fn obstacle_in<D: Disk + Drop>(rt: &HostRuntime, files: Files<D>) -> Option<Obstruction>
    requires log { IsTrue (D.Disk.is_usable files.log) }
    requires db { IsTrue (D.Disk.is_usable files.db) }
{
    let options = options(rt, FEW_PAGES).ok()?;
    find_obstacle(rt.alloc(), files, options).ok()?
}

/// Takes back what isn't committed, and copies the log into the database, if it can be copied. What was committed stays so, and
/// whatever a crash leaves then, it could leave before.
pub fn copy_log<D: Disk>(trees: &mut FileStore<D>)
    ensures committed { IsTrue (view trees.new).is_open → (view trees.new).committed ≡ (view trees.old).committed }
    ensures undone { IsTrue (view trees.new).is_open → (view trees.new).trees ≡ (view trees.old).committed }
    ensures quiet { IsQuiet view faults recovers is_shielded trees.old trees.new }
{
    trees.rollback();
    let _copied = trees.checkpoint();
}

/// Copies the log into the database, if it can be copied, and closes both files.
pub fn close_files<D: Disk + Drop>(mut trees: FileStore<D>) {
    copy_log(&mut trees);
}
