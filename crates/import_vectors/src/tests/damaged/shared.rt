//! Files in memory that stay when a database is closed, as those of a machine. No clause says what they held when they were
//! opened, so a database in them may be opened by its list alone.

ghost use Rattle.std.specs.Prelude.{◌≡◌, [], false, true, refl, is_ok, IsTrue, IfOk};
ghost use Rattle.sqlite_disk.specs.Disk.{CountsFault};
ghost use Rattle.sqlite_disk.specs.Refusal.{finds_no_room};
ghost use Rattle.sqlite_wal.specs.Files.{seen_image};
ghost use Rattle.osm_openings.specs.Presumed.{ArePresumedTables};

use sqlite::Files;
use sqlite_disk::{Disk, Memory, Tally, digest_of};
use std::alloc::{AllocError, Global};
use std::cell::RefCell;
use std::io;
use std::rc::Rc;

/// The bytes of a file.
type Bytes = Rc<RefCell<Vec<u8>>>;

/// A file of these bytes, which every file over them shares. `written` is what clauses see: nothing at first, and then what
/// is written. What a read gives is the file's bytes, of which no clause says that they are these.
#[derive(Drop)]
pub(crate) struct Shared<D: Disk> {
    bytes: Bytes,
    written: D,
    faults: u64,
}

/// Such a file.
pub(crate) type SharedFile = Shared<Memory>;

/// Reads the bytes at an offset, if they are there.
fn read(bytes: &Bytes, at: usize, buf: &mut [u8]) -> bool {
    let Ok(bytes) = bytes.try_borrow() else {
        return false;
    };
    let Some(end) = at.checked_add(buf.len()) else {
        return false;
    };
    match bytes.get(at..end) {
        Some(found) if found.len() == buf.len() => {
            buf.copy_from_slice(found);
            true
        }
        _ => false,
    }
}

/// Gives the file a length. What is new is zero.
fn resize(bytes: &Bytes, len: usize) -> bool {
    match bytes.try_borrow_mut() {
        Ok(mut bytes) => bytes.resize(len, 0).is_ok(),
        Err(_) => false,
    }
}

/// Writes at an offset. The file grows as it has to.
fn overwrite(bytes: &mut Vec<u8>, at: usize, from: &[u8]) -> bool {
    let Some(end) = at.checked_add(from.len()) else {
        return false;
    };
    if end > bytes.len() && bytes.resize(end, 0).is_err() {
        return false;
    }
    bytes[at..end].copy_from_slice(from);
    true
}

fn write(bytes: &Bytes, at: usize, from: &[u8]) -> bool {
    match bytes.try_borrow_mut() {
        Ok(mut bytes) => overwrite(&mut bytes, at, from),
        Err(_) => false,
    }
}

/// What a call is answered. One that fails is counted.
fn answer(is_done: bool, faults: &mut u64) -> io::Result<()>
    ensures variant { is_ok result ≡ is_done }
    ensures kind { finds_no_room result ≡ false }
    ensures counted { CountsFault result faults.old faults.new }
{
    if !is_done {
        *faults = faults.saturating_add(1);
        return Err(io::Error::from(io::ErrorKind::OutOfMemory));
    }
    Ok(())
}

impl<D: Disk> Disk for Shared<D> {
    ghost seen = { λ f. D.Disk.seen f.written };

    ghost may_leave = { λ f. D.Disk.may_leave f.written };

    ghost is_usable = { λ f. D.Disk.is_usable f.written };

    ghost faults = { λ f. f.faults };

    ghost tally_of = { λ _. record { caught = 0; refused = 0 } };

    ghost is_clean = { λ _. false };

    ghost key_of = { λ _. 0 };

    ghost is_fair = { λ _ _. true };

    ghost fair_if_clean = { λ _ _ _. refl };

    ghost seen_may_stay = { λ f. D.Disk.seen_may_stay f.written };

    fn mixes(&self) -> bool {
        false
    }

    fn key(&self) -> u64 {
        0
    }

    fn tally(&self) -> Tally {
        Tally {
            caught: 0,
            refused: 0,
        }
    }

    fn may_be_used(&self) -> bool {
        self.written.may_be_used()
    }

    fn len(&mut self) -> io::Result<usize> {
        let len = match self.bytes.try_borrow() {
            Ok(bytes) => Some(bytes.len()),
            Err(_) => None,
        };
        answer(len.is_some(), &mut self.faults)?;
        Ok(len.unwrap_or(0))
    }

    fn read_at(&mut self, at: usize, buf: &mut [u8]) -> io::Result<()> {
        answer(read(&self.bytes, at, buf), &mut self.faults)
    }

    fn read_checked(&mut self, key: u64, want: u64, at: usize, buf: &mut [u8]) -> io::Result<()> {
        let is_read = read(&self.bytes, at, buf);
        answer(is_read && digest_of(key, buf) == want, &mut self.faults)
    }

    fn write_at(&mut self, at: usize, bytes: &[u8]) -> io::Result<()> {
        let is_written = self.written.write_at(at, bytes).is_ok();
        answer(
            is_written && write(&self.bytes, at, bytes),
            &mut self.faults,
        )
    }

    fn set_len(&mut self, len: usize) -> io::Result<()> {
        let is_set = self.written.set_len(len).is_ok();
        answer(is_set && resize(&self.bytes, len), &mut self.faults)
    }

    fn sync(&mut self) -> io::Result<()> {
        let is_synced = self.written.sync().is_ok();
        answer(is_synced, &mut self.faults)
    }
}

/// A database file and its log, to be opened again and again.
#[derive(Drop)]
pub(crate) struct Machine {
    log: Bytes,
    db: Bytes,
}

/// A copy of bytes.
fn bytes_of(alloc: Global, from: &[u8]) -> Result<Bytes, AllocError> {
    let mut bytes = Vec::new(alloc);
    bytes.extend_from_slice(from)?;
    Ok(Rc::new(alloc, RefCell::new(bytes))?)
}

/// A file over these bytes.
fn file_of(alloc: Global, bytes: &Bytes) -> Result<SharedFile, AllocError>
    ensures usable { IfOk result (λ file. IsTrue (⟦<SharedFile as Disk>⟧.is_usable file)) }
    ensures seen { IfOk result (λ file. ⟦<SharedFile as Disk>⟧.seen file ≡ []) }
{
    Ok(Shared {
        bytes: bytes.clone()?,
        written: Memory::new(alloc),
        faults: 0,
    })
}

impl Machine {
    /// A machine with these bytes in its database file, and nothing in its log.
    pub(crate) fn new(alloc: Global, db: &[u8]) -> Result<Machine, AllocError> {
        Ok(Machine {
            log: bytes_of(alloc, b"")?,
            db: bytes_of(alloc, db)?,
        })
    }

    /// Its files.
    pub(crate) fn files(&self, alloc: Global) -> Result<Files<SharedFile>, AllocError>
        ensures log { IfOk result (λ files. IsTrue (⟦<SharedFile as Disk>⟧.is_usable files.log)) }
        ensures db { IfOk result (λ files. IsTrue (⟦<SharedFile as Disk>⟧.is_usable files.db)) }
        ensures presumed { IfOk result (λ files. ArePresumedTables (seen_image ⟦<SharedFile as Disk>⟧ files.log files.db)) }
    {
        Ok(Files {
            log: file_of(alloc, &self.log)?,
            db: file_of(alloc, &self.db)?,
        })
    }

    /// Changes the bytes of the database file at an offset.
    pub(crate) fn overwrite(&self, at: usize, bytes: &[u8]) -> bool {
        write(&self.db, at, bytes)
    }

    /// Cuts the log to nothing.
    pub(crate) fn clear_log(&self) -> bool {
        resize(&self.log, 0)
    }

    /// How many bytes the database file has.
    pub(crate) fn size(&self) -> usize {
        match self.db.try_borrow() {
            Ok(db) => db.len(),
            Err(_) => 0,
        }
    }
}
