ghost use Rattle.std.specs.Prelude.{IsTrue};

use crate::kernel_locks::{device_numbers, locks_out};
use crate::{OpenFault, open_to_read, open_to_write};
use sqlite_disk::{Disk, Files, Unknown};
use std::alloc::{AllocError, Global};
use std::os::unix::fs::symlink;
use std::test::Fail;
use std::{fs, io};

const FOLDER: &str = "pbfrow_files_test";

const PATH: &str = "pbfrow_files_test/a.db";

const LOG: &str = "pbfrow_files_test/a.db-wal";

const REFUSED: &str = "pbfrow_files_refused";

const PLAIN: &str = "pbfrow_files_refused/a.db";

const PLAIN_LOG: &str = "pbfrow_files_refused/a.db-wal";

const SHARED: &str = "pbfrow_files_shared";

const SHARED_PATH: &str = "pbfrow_files_shared/a.db";

const JOURNAL: &str = "pbfrow_files_refused/a.db-journal";

fn text(alloc: Global, fault: OpenFault) -> Result<String, AllocError> {
    format!(in alloc; "{fault}")
}

#[test]
fn each_fault_has_its_text(rt: HostRuntime) -> Result<(), Fail> {
    let texts = [
        (OpenFault::Missing, "no such file"),
        (OpenFault::NotAFile, "not a regular file"),
        (
            OpenFault::ManyNames,
            "it has more than one name (a hard link)",
        ),
        (OpenFault::Denied, "permission denied"),
        (OpenFault::Busy, "in use by another program"),
        (
            OpenFault::HotJournal,
            "a rollback journal stands beside it: open it with sqlite3 first",
        ),
        (OpenFault::Memory, "out of memory"),
        (
            OpenFault::Io(io::Error::from_raw_os_error(5)),
            "Input/output error (os error 5)",
        ),
    ];
    for (fault, wanted) in texts {
        assert_eq!(rt; text(rt.alloc(), fault)?.as_str(), wanted);
    }
    Ok(())
}

// These say little, so that the proof of a test does not carry the state of each call.
fn put<D: Disk>(disk: &mut D, at: usize, bytes: &[u8]) -> io::Result<()>
    requires { IsTrue (D.Disk.is_usable disk.old) }
    ensures { IsTrue (D.Disk.is_usable disk.new) }
{
    disk.write_at(at, bytes)
}

fn cut<D: Disk>(disk: &mut D, len: usize) -> io::Result<()>
    requires { IsTrue (D.Disk.is_usable disk.old) }
    ensures { IsTrue (D.Disk.is_usable disk.new) }
{
    disk.set_len(len)
}

fn first_six<D: Disk>(disk: &mut D) -> io::Result<[u8; 6]>
    requires { IsTrue (D.Disk.is_usable disk.old) }
    ensures { IsTrue (D.Disk.is_usable disk.new) }
{
    let mut bytes = [0; 6];
    disk.read_at(0, &mut bytes)?;
    Ok(bytes)
}

fn change<D: Disk + Drop>(files: Files<D>) -> io::Result<([u8; 6], [u8; 6])>
    requires log { IsTrue (D.Disk.is_usable files.log) }
    requires db { IsTrue (D.Disk.is_usable files.db) }
{
    let Files { mut log, mut db } = files;
    put(&mut log, 5, b"x")?;
    put(&mut db, 4, b"XYZ")?;
    put(&mut db, 3, b"W")?;
    cut(&mut db, 6)?;
    Ok((first_six(&mut log)?, first_six(&mut db)?))
}

#[test]
fn what_is_written_to_a_file_that_is_read_alone_is_gone_with_it(
    rt: HostRuntime,
) -> Result<(), Fail> {
    let _ = fs::remove_dir_all(&rt, FOLDER);
    fs::create_dir(&rt, FOLDER)?;
    fs::write(&rt, PATH, b"abcdef".as_slice())?;
    let files = open_to_read(&rt, PATH, Unknown)?;
    assert!(rt; matches!(refused_to_write(&rt, PATH), Some(OpenFault::Busy)));
    assert!(rt; refused(&rt, PATH).is_none());
    assert_eq!(rt; change(files)?, (*b"\0\0\0\0\0x", *b"abcWXY"));
    assert_eq!(rt; fs::read(&rt, PATH)?.as_slice(), b"abcdef".as_slice());
    assert!(rt; !fs::exists(&rt, LOG)?);
    assert!(rt; refused_to_write(&rt, PATH).is_none());
    fs::remove_dir_all(&rt, FOLDER)?;
    Ok(())
}

fn refused(rt: &HostRuntime, path: &str) -> Option<OpenFault> {
    open_to_read(rt, path, Unknown).err()
}

fn refused_to_write(rt: &HostRuntime, path: &str) -> Option<OpenFault> {
    open_to_write(rt, path, Unknown).err()
}

#[test]
fn what_is_no_database_of_one_name_is_refused(rt: HostRuntime) -> Result<(), Fail> {
    let _ = fs::remove_dir_all(&rt, REFUSED);
    fs::create_dir(&rt, REFUSED)?;
    assert!(rt; matches!(refused(&rt, REFUSED), Some(OpenFault::NotAFile)));
    assert!(rt; matches!(refused_to_write(&rt, REFUSED), Some(OpenFault::NotAFile)));
    assert!(rt; matches!(refused(&rt, PLAIN), Some(OpenFault::Missing)));
    fs::write(&rt, PLAIN, b"".as_slice())?;
    fs::write(&rt, JOURNAL, b"\xd9".as_slice())?;
    assert!(rt; matches!(refused(&rt, PLAIN), Some(OpenFault::HotJournal)));
    fs::remove_file(&rt, JOURNAL)?;
    symlink(&rt, "other", PLAIN_LOG)?;
    assert!(rt; matches!(refused(&rt, PLAIN), Some(OpenFault::NotAFile)));
    assert!(rt; matches!(refused_to_write(&rt, PLAIN), Some(OpenFault::NotAFile)));
    fs::remove_file(&rt, PLAIN_LOG)?;
    fs::hard_link(&rt, PLAIN, "pbfrow_files_refused/b.db")?;
    assert!(rt; matches!(refused(&rt, PLAIN), Some(OpenFault::ManyNames)));
    assert!(rt; matches!(refused_to_write(&rt, PLAIN), Some(OpenFault::ManyNames)));
    fs::remove_dir_all(&rt, REFUSED)?;
    Ok(())
}

#[test]
fn readers_share_a_database_and_a_writer_has_it_alone(rt: HostRuntime) -> Result<(), Fail> {
    let _ = fs::remove_dir_all(&rt, SHARED);
    fs::create_dir(&rt, SHARED)?;
    let writer = open_to_write(&rt, SHARED_PATH, Unknown)?;
    assert!(rt; matches!(refused(&rt, SHARED_PATH), Some(OpenFault::Busy)));
    assert!(rt; matches!(refused_to_write(&rt, SHARED_PATH), Some(OpenFault::Busy)));
    drop(writer);
    let first = open_to_read(&rt, SHARED_PATH, Unknown)?;
    let second = open_to_read(&rt, SHARED_PATH, Unknown)?;
    drop(first);
    assert!(rt; matches!(refused_to_write(&rt, SHARED_PATH), Some(OpenFault::Busy)));
    drop(second);
    let writer = open_to_write(&rt, SHARED_PATH, Unknown)?;
    assert!(rt; matches!(refused(&rt, SHARED_PATH), Some(OpenFault::Busy)));
    drop(writer);
    fs::remove_dir_all(&rt, SHARED)?;
    Ok(())
}

#[test]
fn a_line_of_the_kernels_list_says_who_is_locked_out(rt: HostRuntime) {
    let lines = [
        (
            "1: POSIX  ADVISORY  WRITE 741 fe:0a:131 1073741824 1073742335",
            true,
        ),
        ("12: OFDLCK ADVISORY  WRITE -1 fe:0a:131 0 EOF", true),
        ("1: POSIX  ADVISORY  WRITE 741 fe:0a:131 0 1073741824", true),
        (
            "1: POSIX  ADVISORY  WRITE 741 fe:0a:131 1073742335 EOF",
            true,
        ),
        (
            "1: POSIX  ADVISORY  WRITE 741 fe:0a:131 0 1073741823",
            false,
        ),
        (
            "1: POSIX  ADVISORY  WRITE 741 fe:0a:131 1073742336 EOF",
            false,
        ),
        (
            "1: POSIX  ADVISORY  READ  741 fe:0a:131 1073741826 1073742335",
            false,
        ),
        (
            "1: POSIX  ADVISORY  WRITE 741 fe:0b:131 1073741824 1073742335",
            false,
        ),
        (
            "1: POSIX  ADVISORY  WRITE 741 fe:0a:132 1073741824 1073742335",
            false,
        ),
        (
            "1: -> POSIX  ADVISORY  WRITE 741 fe:0a:131 1073741824 1073742335",
            false,
        ),
        ("1: FLOCK  ADVISORY  WRITE 741 fe:0a:131 0 EOF", false),
        ("", false),
    ];
    for (line, wanted) in lines {
        assert_eq!(rt; locks_out(line, 0xfe, 0xa, 131), wanted);
    }
    assert_eq!(rt; device_numbers(0xfe0a), (0xfe, 0xa));
    assert_eq!(rt;
        device_numbers(0x1234_5abc_def6_78f0),
        (0x1234_5678, 0xabcd_eff0)
    );
}
