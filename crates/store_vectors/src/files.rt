//! Databases in files.

use sqlite::{Connection, FileStore, Files, Options};
use sqlite_disk::Disk;
use std::alloc::Global;

/// Few pages in memory, and each log is copied before the next commit, so that each call of a store makes many calls
/// of both files.
pub const OPTIONS: Options = Options {
    cache_pages: 8,
    spill_pages: 2,
    checkpoint_frames: 1,
    seed: 7,
};

/// The database in these files; or the files, where one of them stops or can't be used.
pub fn opened<D: Disk + Drop>(
    alloc: Global,
    files: Files<D>,
    cache_pages: usize,
) -> Result<Connection<FileStore<D>>, Files<D>> {
    if !files.may_be_used() {
        return Err(files);
    }
    let options = Options {
        cache_pages,
        ..OPTIONS
    };
    match Connection::open_files(alloc, files, options) {
        Ok(database) => Ok(database),
        Err((_, left)) => Err(left.into_files()),
    }
}
