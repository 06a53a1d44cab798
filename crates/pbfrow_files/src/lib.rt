//! A database file and its log, opened to be read alone, by which nothing on the disk changes, or to be written; and why
//! they can't be opened.
//!
//! Any number of `open_to_read` have a database open at once, and no `open_to_write` beside them; that has it alone. For
//! this each holds an advisory lock of the system on the whole database file until the database is dropped.
//! `open_to_write` holds a lock on SQLite's bytes too, so that SQLite finds the database locked.
//!
//! `open_to_read` takes no lock that SQLite looks for. It notices who is writing as it opens the files, by the kernel's
//! list of locks, and keeps no stock SQLite from beginning to write later. In WAL mode such a writer appends to the log,
//! of which what was there at the opening is read. What it writes into the database file meanwhile, as it does without a
//! log or when it copies the log into it, is read as it then stands.
//!
//! No writer is noticed where `/proc/locks` can't be read, where it is a process that this one can't see (one outside of a
//! container), or where the file system has another device's numbers there than in what it says of a file. Where a file
//! system has no locks on whole files, databases are opened without. Local file systems alone were tried: on NFS a lock on
//! the whole file is one on each of its bytes, and may be in the way of SQLite's.
#![tactic(auto)]

mod fault;
mod guarded;
mod kernel_locks;
mod opening;
mod overlay;
mod read_only;
mod record;
#[cfg(test)]
mod tests;

pub use fault::OpenFault;
pub use guarded::Guarded;
pub use opening::{open_to_read, open_to_write};
pub use read_only::ReadOnly;
use sqlite_disk::{Modelled, Unknown};
use sqlite_std_file::FileFrom;

/// A file that held what `S` says, read alone.
pub type ReadFrom<S> = Modelled<ReadOnly, S>;

/// A file that is read alone, of any contents.
pub type ReadFile = ReadFrom<Unknown>;

/// A file that held what `S` says, to be written.
pub type WriteFrom<S> = Guarded<FileFrom<S>>;

/// A file to be written, of any contents.
pub type WriteFile = WriteFrom<Unknown>;
