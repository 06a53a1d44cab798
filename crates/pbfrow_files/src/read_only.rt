//! A file that is read alone, of which what is written is kept in memory.

ghost use Rattle.std.specs.Prelude.{◌≡◌, ℕ, ◌+◌, ◌^◌, ◌<◌, ◌≤◌, List, [], ◌∷◌, length, take, slice_index, IfOk};
ghost use Rattle.sqlite_disk.specs.Events.{settled};
ghost use Rattle.pbfrow_files.specs.Overlay.{base_len, shown, IsSeenAt};

use crate::overlay::Overlay;
use crate::record::Record;
use sqlite_disk::{Calls, is_no_room};
use std::alloc::{AllocError, Global};
use std::io::ErrorKind;
use std::os::unix::fs::FileExt;
use std::{fs, io};

const SETTLED: u64 = 0;

const MEASURED: u64 = 1;

const READ: u64 = 2;

const WRITTEN: u64 = 3;

const CUT: u64 = 4;

const FLUSHED: u64 = 5;

const TESTED: u64 = 6;

const MAX_OFFSET: usize = (1 << 63) - 1;

/// A file that was opened for reading alone, or one that is missing, which is as an empty one. It has the length that it
/// had when it was opened. What is written to it is kept in memory, up to 1 MiB in all, and is gone with it: nothing of
/// the file is ever written, cut, synced or dropped from the kernel's cache.
#[derive(Drop)]
pub struct ReadOnly {
    file: Option<fs::File>,
    overlay: Overlay,
    log: Record,
}

impl ReadOnly {
    /// A file that is open for reading. Its digests are taken under this key.
    pub(crate) fn over(alloc: Global, file: fs::File, key: u64) -> io::Result<ReadOnly>
        ensures { IfOk result (λ it. it.log.events ≡ settled key ∷ []) }
    {
        let len = file.metadata()?.len() as usize;
        Ok(ReadOnly::begin(alloc, Some(file), len, key)?)
    }

    /// No file, which is as an empty one.
    pub(crate) fn missing(alloc: Global, key: u64) -> Result<ReadOnly, AllocError>
        ensures { IfOk result (λ it. it.log.events ≡ settled key ∷ []) }
    {
        ReadOnly::begin(alloc, None, 0, key)
    }

    fn begin(
        alloc: Global,
        file: Option<fs::File>,
        len: usize,
        key: u64,
    ) -> Result<ReadOnly, AllocError>
        ensures { IfOk result (λ it. it.log.events ≡ settled key ∷ []) }
    {
        let overlay = Overlay::new(alloc, len)?;
        let mut log = Record::new();
        log.note(&[SETTLED, key, 0, 1], &[]);
        Ok(ReadOnly { file, overlay, log })
    }
}

/// Reads bytes of the file below at an offset, which has zeros past its end. Answers how many came.
fn read_below(file: &Option<fs::File>, len: usize, at: usize, buf: &mut [u8]) -> io::Result<usize>
    requires { 0 < length buf.old }
    ensures count { IfOk result (λ n. (0 < n) × (n ≤ length buf.old)) }
    ensures past { IfOk result (λ n. (i : ℕ) → i < n → len ≤ at + i → slice_index buf.new i ≡ 0) }
{
    let own = buf.len().min(len.saturating_sub(at));
    let got = if own == 0 {
        0
    } else {
        read_own(file, at, &mut buf[..own])?
    };
    if got < own {
        return Ok(got);
    }
    buf[own..].fill(0);
    Ok(buf.len())
}

/// Reads some bytes of the file at an offset. Answers how many came. It is an error where none do.
fn read_own(file: &Option<fs::File>, at: usize, buf: &mut [u8]) -> io::Result<usize>
    ensures { IfOk result (λ n. (0 < n) × (n ≤ length buf.old)) }
{
    let Some(file) = file else {
        return Err(ErrorKind::UnexpectedEof.into());
    };
    match file.read_at(buf, at as u64)? {
        // it was cut since it was opened
        0 => Err(ErrorKind::UnexpectedEof.into()),
        got => Ok(got),
    }
}

/// Reads some bytes at an offset with every change laid over them, up to the end that the changes gave the file. Answers
/// how many came. It is an error where none do.
fn read(file: &Option<fs::File>, overlay: &Overlay, at: usize, buf: &mut [u8]) -> io::Result<usize>
    requires { 0 < length buf.old }
    ensures count { IfOk result (λ n. (0 < n) × (n ≤ length buf.old) × (at < 2 ^ 63)) }
    ensures within { IfOk result (λ n. (file : List ℕ) → length file ≡ base_len overlay.now → at + n ≤ length (shown file overlay.now)) }
    ensures seen { IfOk result (λ n. IsSeenAt overlay.now at (take n buf.new)) }
{
    if at > MAX_OFFSET {
        return Err(ErrorKind::InvalidInput.into());
    }
    let len = overlay.len();
    if at >= len {
        return Err(ErrorKind::UnexpectedEof.into());
    }
    let wanted = buf.len().min(len - at);
    let got = read_below(file, overlay.base_len(), at, &mut buf[..wanted])?;
    overlay.lay_over(at, &mut buf[..got]);
    Ok(got)
}

impl Calls for ReadOnly {
    ghost history = { λ f. f.log.events };

    fn len(&mut self) -> io::Result<usize> {
        let len = self.overlay.len();
        self.log.note(&[MEASURED, len as u64, 0, 1], &[]);
        Ok(len)
    }

    fn read_some(&mut self, at: usize, buf: &mut [u8]) -> io::Result<usize> {
        let (at64, len) = (at as u64, buf.len() as u64);
        let answer = read(&self.file, &self.overlay, at, buf);
        match answer {
            Ok(n) => self.log.note(&[READ, at64, len, 1], &buf[..n]),
            Err(_) => self.log.note(&[READ, at64, len, 0], &[]),
        }
        answer
    }

    fn read_under(&mut self, key: u64, want: u64, at: usize, buf: &mut [u8]) -> io::Result<usize> {
        let (at64, len) = (at as u64, buf.len() as u64);
        let answer = read(&self.file, &self.overlay, at, buf);
        match answer {
            Ok(n) => self.log.note(&[TESTED, at64, len, 1, key, want], &buf[..n]),
            Err(_) => self.log.note(&[TESTED, at64, len, 0, key, want], &[]),
        }
        answer
    }

    fn write_some(&mut self, at: usize, bytes: &[u8]) -> io::Result<usize> {
        match self.overlay.write(at, bytes) {
            Ok(()) => {
                let len = bytes.len();
                self.log.note(&[WRITTEN, at as u64, len as u64, 1], bytes);
                Ok(len)
            }
            Err(error) => {
                let full = u64::from(is_no_room(&error));
                self.log.note(&[WRITTEN, at as u64, full, 0], bytes);
                Err(error)
            }
        }
    }

    fn resize(&mut self, len: usize) -> io::Result<()> {
        let answer = self.overlay.resize(len);
        match answer {
            Ok(()) => self.log.note(&[CUT, len as u64, 0, 1], &[]),
            Err(error) => self
                .log
                .note(&[CUT, len as u64, u64::from(is_no_room(&error)), 0], &[]),
        }
        answer
    }

    fn sync(&mut self) -> io::Result<()> {
        // nothing was written, so nothing can be lost
        self.log.note(&[FLUSHED, 0, 0, 1], &[]);
        Ok(())
    }
}
