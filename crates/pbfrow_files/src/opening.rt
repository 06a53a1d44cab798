//! Opens a database file and its log.

ghost use Rattle.std.specs.Prelude.{◌≡◌, true, false, IsTrue, IfOk, OnOk, IfErr};
ghost use Rattle.std.specs.Fs.{file_type, IsFile};
ghost use Rattle.sqlite_std_file.specs.File.{IsFresh as IsFreshHost};
ghost use Rattle.sqlite_wal.specs.Files.{seen_image, image_at};
ghost use Rattle.pbfrow_files.specs.Fault.{unless_missing, RefusesFile};
ghost use Rattle.pbfrow_files.specs.File.{file_is_usable, IsFresh};
ghost use Rattle.pbfrow_files.specs.Guarded.{disk_of};

use crate::fault::{OpenFault, unless_locked};
use crate::guarded::Guarded;
use crate::kernel_locks::is_locked_out;
use crate::read_only::ReadOnly;
use crate::{ReadFrom, WriteFrom};
use sqlite_disk::{Disk, Files, Modelled, Start};
use std::fs;
use std::fs::Metadata;
use std::hash::{BuildHasher, RandomState};
use std::io::{ErrorKind, Read};
use std::os::fd::AsRawFd;
use std::os::unix::fs::MetadataExt;

/// The descriptors of the standard streams end with this one.
const LAST_STANDARD: i32 = 2;

/// Opens the log and the database file at `path` to read them alone. A log that is missing is as an empty one. Nothing is
/// made or written on the disk, and what is written to the files is kept in memory (`ReadOnly`). Others may read the
/// database beside this, and `open_to_write` is kept out until the database is dropped. A lock by which another program
/// writes it is noticed where the kernel lists it; SQLite, which may begin to write later, is not kept out. `S` stands for
/// what the files hold. Its value is used up, so that code over any `S` opens one pair. The key of their digests is drawn
/// at random. Fails where either is no regular file with one name, where it can't be read or is being written, and where a
/// rollback journal is to be played back first.
pub fn open_to_read<S: Start>(
    rt: &HostRuntime,
    path: &str,
    _start: S,
) -> Result<Files<ReadFrom<S>>, OpenFault>
    ensures log { IfOk result (λ files. IsTrue (file_is_usable S.Start files.log)) }
    ensures db { IfOk result (λ files. IsTrue (file_is_usable S.Start files.db)) }
    ensures fresh { IfOk result (λ files. IsFresh true files.log × IsFresh false files.db) }
    ensures image { IfOk result (λ files. seen_image ⟦<ReadFrom<S> as Disk>⟧ files.log files.db ≡ image_at S.Start) }
{
    // As in SQLite, the files lie where a link leads, and no link is followed after that.
    let real = fs::canonicalize(rt, path)?;
    let db = open_shared(rt, real.as_str())?;
    // Only now, since the journal of a program that is writing is not one to be played back, and that program is refused.
    let journal = format!(in rt.alloc(); "{}-journal", real.as_str())?;
    if has_hot_journal(rt, journal.as_str())? {
        return Err(OpenFault::HotJournal);
    }
    let log_path = format!(in rt.alloc(); "{}-wal", real.as_str())?;
    let log = if_there(open_regular(rt, log_path.as_str()))?;
    let key = RandomState::new(rt)?.hash_one(&0u8);
    let log = match log {
        Some(file) => ReadOnly::over(rt.alloc(), file, key)?,
        None => ReadOnly::missing(rt.alloc(), key)?,
    };
    let db = ReadOnly::over(rt.alloc(), db, key)?;
    Ok(Files {
        log: Modelled::new(log, true, key),
        db: Modelled::new(db, false, key),
    })
}

/// Opens the log and the database file at `path` to write them, and makes those that are missing, as
/// `sqlite_std_file::open` does, whose errors it names. SQLite finds the database locked until it is dropped, and
/// `open_to_read` and `open_to_write` find it busy. It is busy itself where one of these has the database, or any SQLite
/// holds a lock on it. What is there and is no regular file is refused before anything is opened, since opening a pipe
/// would wait.
pub fn open_to_write<S: Start>(
    rt: &HostRuntime,
    path: &str,
    start: S,
) -> Result<Files<WriteFrom<S>>, OpenFault>
    ensures log { IfOk result (λ files. IsTrue (⟦<WriteFrom<S> as Disk>⟧.is_usable files.log)) }
    ensures db { IfOk result (λ files. IsTrue (⟦<WriteFrom<S> as Disk>⟧.is_usable files.db)) }
    ensures fresh { IfOk result (λ files. IsFreshHost true (disk_of files.log) × IsFreshHost false (disk_of files.db)) }
    ensures image { IfOk result (λ files. seen_image ⟦<WriteFrom<S> as Disk>⟧ files.log files.db ≡ image_at S.Start) }
{
    refuse_others(rt, path)?;
    let early = guard_if_there(rt, path)?;
    let Files { log, db } = sqlite_std_file::open(rt, path, start)?;
    let guard = guard_of_opened(rt, path, early)?;
    Ok(Files {
        log: Guarded::new(log, None),
        db: Guarded::new(db, Some(guard)),
    })
}

/// The guard of a database that is there. It is taken before anything is done to the files, so that nothing is done
/// beside a reader.
fn guard_if_there(rt: &HostRuntime, path: &str) -> Result<Option<fs::File>, OpenFault> {
    match fs::canonicalize(rt, path) {
        Ok(real) => Ok(Some(open_guard(rt, real.as_str())?)),
        Err(error) if error.kind() == ErrorKind::NotFound => Ok(None),
        Err(error) => Err(error.into()),
    }
}

/// The guard of the database at `path`, which was just opened: the one that was taken before, if that is still of the file
/// that has the name, or else a new one.
fn guard_of_opened(
    rt: &HostRuntime,
    path: &str,
    early: Option<fs::File>,
) -> Result<fs::File, OpenFault> {
    let real = fs::canonicalize(rt, path)?;
    match early {
        Some(guard) => {
            refuse_renamed(rt, real.as_str(), &guard.metadata()?)?;
            Ok(guard)
        }
        None => open_guard(rt, real.as_str()),
    }
}

/// A handle of the file at `path` whose lock keeps out `open_to_read`, and is kept out by it.
fn open_guard(rt: &HostRuntime, path: &str) -> Result<fs::File, OpenFault> {
    let guard = open_regular(rt, path)?;
    unless_locked(guard.try_lock())?;
    Ok(guard)
}

/// Refuses a database or a log that is there and is no regular file with one name.
fn refuse_others(rt: &HostRuntime, path: &str) -> Result<(), OpenFault> {
    match fs::canonicalize(rt, path) {
        Ok(real) => {
            stat_file(rt, real.as_str())?;
            refuse_other_log(rt, real.as_str())
        }
        Err(error) if error.kind() == ErrorKind::NotFound => {
            if_there(stat_file(rt, path))?;
            refuse_other_log(rt, path)
        }
        Err(error) => Err(error.into()),
    }
}

/// Refuses a log of the database at `path` that is there and is no regular file with one name.
fn refuse_other_log(rt: &HostRuntime, path: &str) -> Result<(), OpenFault> {
    let log_path = format!(in rt.alloc(); "{path}-wal")?;
    if_there(stat_file(rt, log_path.as_str()))?;
    Ok(())
}

/// None where the file is missing.
fn if_there<T>(outcome: Result<T, OpenFault>) -> Result<Option<T>, OpenFault>
    ensures { result ≡ unless_missing outcome }
{
    match outcome {
        Ok(found) => Ok(Some(found)),
        Err(OpenFault::Missing) => Ok(None),
        Err(fault) => Err(fault),
    }
}

/// What the system says of the name, if a regular file stands there and has no other name. It follows no link.
fn stat_file(rt: &HostRuntime, path: &str) -> Result<Metadata, OpenFault>
    ensures { IfOk result (λ found. IsFile (file_type found)) }
{
    let found = fs::symlink_metadata(rt, path)?;
    refuse_other_file(&found)?;
    Ok(found)
}

/// Refuses what is no regular file with one name.
fn refuse_other_file(found: &Metadata) -> Result<(), OpenFault>
    ensures regular { OnOk result (IsFile (file_type found.now)) }
    ensures refused { IfErr result (RefusesFile found.now) }
{
    if !found.is_file() {
        Err(OpenFault::NotAFile)
    } else if found.nlink() != 1 {
        Err(OpenFault::ManyNames)
    } else {
        Ok(())
    }
}

/// Opens a regular file with one name that is no link, for reading alone, unless it is being written.
fn open_shared(rt: &HostRuntime, path: &str) -> Result<fs::File, OpenFault> {
    let file = open_regular(rt, path)?;
    // The lock comes first: whoever opens the file to write it from now on is refused.
    unless_locked(file.try_lock_shared())?;
    if is_locked_out(rt, &file.metadata()?)? {
        return Err(OpenFault::Busy);
    }
    Ok(file)
}

/// Opens a regular file with one name that is no link, for reading alone.
fn open_regular(rt: &HostRuntime, path: &str) -> Result<fs::File, OpenFault> {
    // first, since opening a pipe waits until there is a writer
    stat_file(rt, path)?;
    let mut file = fs::open(rt, path)?;
    // What is meant for a standard stream that was closed must not come from the database.
    if file.as_raw_fd() <= LAST_STANDARD {
        file = file.try_clone()?;
    }
    let found = file.metadata()?;
    refuse_other_file(&found)?;
    refuse_renamed(rt, path, &found)?;
    Ok(file)
}

/// Refuses a name that another file has got since this one was opened by it.
fn refuse_renamed(rt: &HostRuntime, path: &str, found: &Metadata) -> Result<(), OpenFault> {
    let named = stat_file(rt, path)?;
    if found.dev() == named.dev() && found.ino() == named.ino() {
        Ok(())
    } else {
        Err(OpenFault::NotAFile)
    }
}

/// Whether a rollback journal is to be played back. One that is missing, is empty or begins with a zero has nothing to
/// play back. Anything there but a regular file is refused too.
fn has_hot_journal(rt: &HostRuntime, path: &str) -> Result<bool, OpenFault> {
    match fs::symlink_metadata(rt, path) {
        Ok(found) if found.is_file() => {}
        Ok(_) => return Ok(true),
        Err(error) if error.kind() == ErrorKind::NotFound => return Ok(false),
        Err(error) => return Err(error.into()),
    }
    let mut journal = fs::open(rt, path)?;
    let mut first = [0];
    Ok(journal.read(&mut first)? == 1 && first[0] != 0)
}
