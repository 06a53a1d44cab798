//! The locks on byte ranges that other programs hold, as Linux lists them.

ghost use Rattle.std.specs.Prelude.{◌≡◌, ◌↔◌, ◌≤◌, IsTrue};
ghost use Rattle.pbfrow_files.specs.KernelLocks.{first_word, after_word, before_blank, after_blank, before_colon, after_colon, IsNumeralOf, IsOnBytes, NamesFile, MeetsLocks, LocksOut};

use std::fs::Metadata;
use std::io::ErrorKind;
use std::os::unix::fs::MetadataExt;
use std::{fs, io};

/// Where the kernel lists the locks. It leaves out those of processes that this one can't see.
const LIST: &str = "/proc/locks";

/// Where SQLite's locks stand: its pending, reserved and shared bytes.
const LOCKS_FROM: u64 = 1 << 30;

/// The last byte that SQLite locks.
const LOCKS_LAST: u64 = (1 << 30) + 511;

/// Whether the kernel's list has a lock by which SQLite, or another `open_to_write`, writes this file. Where there is no
/// list, or it can't be read, none is known.
pub(crate) fn is_locked_out(rt: &HostRuntime, found: &Metadata) -> io::Result<bool> {
    let text = match fs::read_to_string(rt, LIST) {
        Ok(text) => text,
        Err(error) if error.kind() == ErrorKind::OutOfMemory => return Err(error),
        Err(_) => return Ok(false),
    };
    let (major, minor) = device_numbers(found.dev());
    let inode = found.ino();
    for line in text.lines() {
        if locks_out(line, major, minor, inode) {
            return Ok(true);
        }
    }
    Ok(false)
}

/// The major and the minor number of a device, of 32 bits each, which Linux keeps in parts of its number.
pub(crate) fn device_numbers(device: u64) -> (u64, u64) {
    let major = ((device >> 8) & 0xfff) | ((device >> 32) & 0xffff_f000);
    let minor = (device & 0xff) | ((device >> 12) & 0xffff_ff00);
    (major, minor)
}

/// Whether a line of the list is of a lock by which SQLite writes the file with these numbers.
pub(crate) fn locks_out(line: &str, major: u64, minor: u64, inode: u64) -> bool
    ensures { IsTrue result ↔ LocksOut major minor inode line.now }
{
    let (_, line) = split_word(line);
    let (kind, line) = split_word(line);
    let (_, line) = split_word(line);
    let (mode, line) = split_word(line);
    let (_, line) = split_word(line);
    let (file, line) = split_word(line);
    let (first, line) = split_word(line);
    let (last, _) = split_word(line);
    is_on_bytes(kind)
        && mode == "WRITE"
        && names_file(file, major, minor, inode)
        && meets_locks(first, last)
}

/// The first word of a line, and what follows it.
fn split_word(line: &str) -> (&str, &str)
    ensures word { result.0.now ≡ first_word line.now }
    ensures rest { result.1.now ≡ after_word line.now }
{
    split_blank(line.trim_start())
}

/// What stands before the first blank, and what follows it.
fn split_blank(text: &str) -> (&str, &str)
    ensures before { result.0.now ≡ before_blank text.now }
    ensures after { result.1.now ≡ after_blank text.now }
{
    text.split_once(' ').unwrap_or((text, ""))
}

/// What stands before the first colon, and what follows it.
fn split_colon(text: &str) -> (&str, &str)
    ensures before { result.0.now ≡ before_colon text.now }
    ensures after { result.1.now ≡ after_colon text.now }
{
    text.split_once(':').unwrap_or((text, ""))
}

fn is_on_bytes(kind: &str) -> bool
    ensures { IsTrue result ↔ IsOnBytes kind.now }
{
    kind == "POSIX" || kind == "OFDLCK"
}

/// Whether a word is this number's in this radix.
fn writes(radix: u32, word: &str, number: u64) -> bool
    requires low { 2 ≤ radix }
    requires high { radix ≤ 36 }
    ensures { IsTrue result ↔ IsNumeralOf radix word.now number }
{
    match u64::from_str_radix(word, radix) {
        Ok(found) => found == number,
        Err(_) => false,
    }
}

fn names_file(word: &str, major: u64, minor: u64, inode: u64) -> bool
    ensures { IsTrue result ↔ NamesFile major minor inode word.now }
{
    let (of_major, word) = split_colon(word);
    let (of_minor, of_inode) = split_colon(word);
    writes(16, of_major, major) && writes(16, of_minor, minor) && writes(10, of_inode, inode)
}

/// Whether the bytes from the first to the last one have some that SQLite locks. A last one that is no number is the end
/// of the file.
fn meets_locks(first: &str, last: &str) -> bool
    ensures { IsTrue result ↔ MeetsLocks first.now last.now }
{
    let Ok(first) = u64::from_str_radix(first, 10) else {
        return false;
    };
    first <= LOCKS_LAST
        && match u64::from_str_radix(last, 10) {
            Ok(last) => LOCKS_FROM <= last,
            Err(_) => true,
        }
}
