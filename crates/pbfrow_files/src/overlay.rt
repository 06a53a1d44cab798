//! Changes of a file that are kept in memory, and are laid over what is read of it.

ghost use Rattle.std.specs.Prelude.{◌≡◌, ℕ, ◌+◌, ◌^◌, ◌<◌, ◌≤◌, List, length, slice_index, EachIndex, IfOk, OnOk, OnErr, IfErr};
ghost use Rattle.std.specs.List.{fold, sum_by};
ghost use Rattle.std.specs.IoError.{error_kind};
ghost use Rattle.std.specs.declared.io.ErrorKind.TheVariants.{OutOfMemory, ReadOnlyFilesystem};
ghost use Rattle.sqlite_disk.specs.Events.{overlaid, padded};
ghost use Rattle.pbfrow_files.specs.Change.{changed, byte_after, len_after, weight, AreInFile};

use std::alloc::{AllocError, Global};
use std::io;
use std::io::ErrorKind;

/// The room for changes in bytes, of which each takes those that it wrote and `CHANGE_WEIGHT`.
const MAX_KEPT: usize = 0x10_0000;

/// What a change takes of the room besides its bytes, so that there are at most so many.
const CHANGE_WEIGHT: usize = 64;

/// No file of the system reaches further.
const MAX_OFFSET: usize = (1 << 63) - 1;

/// A change of a file.
#[derive(Drop)]
pub(crate) enum Change {
    /// These bytes were written at this offset.
    Written { at: usize, bytes: Vec<u8> },
    /// The file was cut or lengthened to this length in bytes.
    Resized { len: usize },
}

impl Change {
    /// Makes of bytes that were read at an offset what they are after the change.
    fn lay_over(&self, at: usize, buf: &mut [u8])
        ensures { EachIndex buf.new (λ i. slice_index buf.new i ≡ byte_after self.now (at + i) (slice_index buf.old i)) }
    {
        match self {
            Change::Written { at: from, bytes } => lay_bytes(*from, bytes, at, buf),
            Change::Resized { len } => {
                let below = len.saturating_sub(at);
                if below < buf.len() {
                    buf[below..].fill(0);
                }
            }
        }
    }
}

/// Lays bytes at offset `from` over those at offset `at`, as far as they are about the same part of a file.
fn lay_bytes(from: usize, bytes: &[u8], at: usize, buf: &mut [u8])
    ensures under { EachIndex buf.new (λ i. at + i < from → slice_index buf.new i ≡ slice_index buf.old i) }
    ensures inside { EachIndex buf.new (λ i. (k : ℕ) → k < length bytes.now → at + i ≡ from + k → slice_index buf.new i ≡ slice_index bytes.now k) }
    ensures behind { EachIndex buf.new (λ i. from + length bytes.now ≤ at + i → slice_index buf.new i ≡ slice_index buf.old i) }
{
    if at <= from {
        let skipped = from - at;
        if skipped < buf.len() {
            let shared = bytes.len().min(buf.len() - skipped);
            buf[skipped..skipped + shared].copy_from_slice(&bytes[..shared]);
        }
    } else {
        let skipped = at - from;
        if skipped < bytes.len() {
            let shared = buf.len().min(bytes.len() - skipped);
            buf[..shared].copy_from_slice(&bytes[skipped..skipped + shared]);
        }
    }
}

/// For how many short writes there is room beforehand.
const SPARES: usize = 16;

/// How many bytes a short write has at most: the header of a log has fewer.
const SPARE_LEN: usize = 64;

/// Room for short writes.
fn spares(alloc: Global) -> Result<Vec<Vec<u8>>, AllocError> {
    let mut all = Vec::with_capacity(alloc, SPARES)?;
    for _ in 0..SPARES {
        all.push(Vec::with_capacity(alloc, SPARE_LEN)?)?;
    }
    Ok(all)
}

/// The changes of a file, the oldest first.
#[derive(Drop)]
pub struct Overlay {
    /// The length in bytes of the file below.
    base_len: usize,
    changes: Vec<Change>,
    /// The length in bytes after every change.
    len: usize,
    /// How much of the room the changes take.
    kept: usize,
    /// Room for short writes, taken beforehand: what recovery writes then needs no memory, whose lack it would call a failure
    /// of the disk.
    spares: Vec<Vec<u8>>,
    ghost measured: { len ≡ fold len_after base_len changes.items },
    ghost weighed: { kept ≡ sum_by weight changes.items },
    ghost roomy: { kept ≤ 0x10_0000 },
}

impl Overlay {
    ghost use Rattle.pbfrow_files.specs.Overlay.{shown, base_len, kept, Refuses};

    /// An overlay with no changes, of a file of this length in bytes.
    pub(crate) fn new(alloc: Global, len: usize) -> Result<Overlay, AllocError>
        ensures none { IfOk result (λ it. (file : List ℕ) → shown file it ≡ file) }
        ensures base { IfOk result (λ it. base_len it ≡ len) }
    {
        Ok(Overlay {
            base_len: len,
            changes: Vec::with_capacity(alloc, SPARES)?,
            len,
            kept: 0,
            spares: spares(alloc)?,
        })
    }

    /// A copy of bytes that are written, in room that was taken beforehand if they are few.
    fn copy_of(&mut self, bytes: &[u8]) -> Result<Vec<u8>, AllocError>
        ensures copy { IfOk result (λ copy. copy.items ≡ bytes.now) }
        ensures changes { self.new.changes ≡ self.old.changes }
        ensures len { self.new.len ≡ self.old.len }
        ensures kept { self.new.kept ≡ self.old.kept }
        ensures base { base_len self.new ≡ base_len self.old }
    {
        let mut copy = match self.spares.pop() {
            Some(spare) => spare,
            None => Vec::new(*self.changes.allocator()),
        };
        copy.clear();
        copy.extend_from_slice(bytes)?;
        Ok(copy)
    }

    /// The length in bytes of the file below.
    pub(crate) fn base_len(&self) -> usize
        ensures { result ≡ base_len self.now }
    {
        self.base_len
    }

    /// The length in bytes after every change.
    pub(crate) fn len(&self) -> usize
        ensures { (file : List ℕ) → length file ≡ base_len self.now → result ≡ length (shown file self.now) }
    {
        self.len
    }

    /// Makes of bytes that were read at an offset of the file below what they are after every change.
    pub(crate) fn lay_over(&self, at: usize, buf: &mut [u8])
        ensures { (file : List ℕ) → AreInFile file at buf.old → AreInFile (shown file self.now) at buf.new }
    {
        for change in &self.changes {
            change.lay_over(at, buf);
        }
    }

    /// Refuses a change that would take more than the room that is left.
    fn refuse_full(&self, taken: usize) -> io::Result<()>
        ensures ok { OnOk result (kept self.now + taken ≤ 0x10_0000) }
        ensures err { IfErr result (λ e. (error_kind e ≡ ReadOnlyFilesystem) × (0x10_0000 < kept self.now + taken)) }
    {
        if taken > MAX_KEPT - self.kept {
            Err(ErrorKind::ReadOnlyFilesystem.into())
        } else {
            Ok(())
        }
    }

    /// Keeps a change, by which the file has this length in bytes. An error only where memory is refused.
    fn keep(&mut self, change: Change, taken: usize, len: usize) -> io::Result<()>
        requires taken { taken ≡ weight change }
        requires room { kept self.old + taken ≤ 0x10_0000 }
        requires len { len ≡ len_after self.old.len change }
        ensures ok { OnOk result ((file : List ℕ) → shown file self.new ≡ changed (shown file self.old) change) }
        ensures err { OnErr result ((file : List ℕ) → shown file self.new ≡ shown file self.old) }
        ensures base { base_len self.new ≡ base_len self.old }
        ensures kind { IfErr result (λ e. error_kind e ≡ OutOfMemory) }
    {
        if self.changes.push(change).is_err() {
            return Err(ErrorKind::OutOfMemory.into());
        }
        self.len = len;
        self.kept += taken;
        Ok(())
    }

    /// Keeps bytes that are written at an offset. Nothing changes at an error: `ReadOnlyFilesystem` where the room is full,
    /// `InvalidInput` where they reach past the last offset of any file, or `OutOfMemory`.
    pub(crate) fn write(&mut self, at: usize, bytes: &[u8]) -> io::Result<()>
        ensures ok { OnOk result ((file : List ℕ) → shown file self.new ≡ overlaid (shown file self.old) at bytes.now) }
        ensures within { OnOk result (at + length bytes.now < 2 ^ 63) }
        ensures err { OnErr result ((file : List ℕ) → shown file self.new ≡ shown file self.old) }
        ensures base { base_len self.new ≡ base_len self.old }
        ensures kind { IfErr result (λ e. Refuses e (2 ^ 63 ≤ at + length bytes.now) (0x10_0000 < kept self.old + length bytes.now + 64)) }
    {
        if at > MAX_OFFSET || bytes.len() > MAX_OFFSET - at {
            return Err(ErrorKind::InvalidInput.into());
        }
        let taken = bytes.len() + CHANGE_WEIGHT;
        self.refuse_full(taken)?;
        let Ok(copy) = self.copy_of(bytes) else {
            return Err(ErrorKind::OutOfMemory.into());
        };
        let len = self.len.max(at + bytes.len());
        self.keep(Change::Written { at, bytes: copy }, taken, len)
    }

    /// Keeps that the file was cut or lengthened to a length in bytes. The errors are those of `write`.
    pub(crate) fn resize(&mut self, len: usize) -> io::Result<()>
        ensures ok { OnOk result ((file : List ℕ) → shown file self.new ≡ padded (shown file self.old) len) }
        ensures err { OnErr result ((file : List ℕ) → shown file self.new ≡ shown file self.old) }
        ensures base { base_len self.new ≡ base_len self.old }
        ensures kind { IfErr result (λ e. Refuses e (2 ^ 63 ≤ len) (0x10_0000 < kept self.old + 64)) }
    {
        if len > MAX_OFFSET {
            return Err(ErrorKind::InvalidInput.into());
        }
        self.refuse_full(CHANGE_WEIGHT)?;
        self.keep(Change::Resized { len }, CHANGE_WEIGHT, len)
    }
}
