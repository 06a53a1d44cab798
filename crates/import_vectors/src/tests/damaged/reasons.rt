//! Why a database isn't opened, in words.

use osm_databases::reason::{Reason, Refusal};
use osm_openings::Obstacle;
use osm_rows::StoreFault;
use pbfrow_files::OpenFault;
use sqlite::{Error as SqlError, ErrorCode};
use std::alloc::{AllocError, Global};
use std::io;
use std::test::*;

fn text(alloc: Global, reason: &Reason) -> Result<String, AllocError> {
    format!(in alloc; "{reason}")
}

/// Each reason, and what people are told.
fn texts() -> [(Reason, &'static str); 25] {
    [
        (Reason::File(OpenFault::Missing), "no such file"),
        (Reason::File(OpenFault::NotAFile), "not a regular file"),
        (
            Reason::File(OpenFault::ManyNames),
            "it has more than one name (a hard link)",
        ),
        (Reason::File(OpenFault::Denied), "permission denied"),
        (Reason::File(OpenFault::Busy), "in use by another program"),
        (
            Reason::File(OpenFault::HotJournal),
            "a rollback journal stands beside it: open it with sqlite3 first",
        ),
        (Reason::File(OpenFault::Memory), "out of memory"),
        (
            Reason::Obstacle(Obstacle::NoDatabase),
            "not a database of SQLite",
        ),
        (
            Reason::Obstacle(Obstacle::AutoVacuum),
            "auto_vacuum is on: turn it off and run VACUUM, with sqlite3",
        ),
        (
            Reason::Obstacle(Obstacle::Trigger),
            "it has a trigger on one of pbfrow's tables",
        ),
        (
            Reason::Obstacle(Obstacle::VirtualTable),
            "it has a virtual table",
        ),
        (
            Reason::Obstacle(Obstacle::Damaged),
            "damaged: its header, its log or its list of tables",
        ),
        (
            Reason::Obstacle(Obstacle::Stranger),
            "not a database of pbfrow",
        ),
        (
            Reason::Obstacle(Obstacle::FirstLayout),
            "a database of version 1 of pbfrow's tables: copy it into a new database by pbfrow migrate",
        ),
        (
            Reason::Obstacle(Obstacle::Utf16),
            "its texts are in UTF-16: make a copy by sqlite3's .dump",
        ),
        (
            Reason::Obstacle(Obstacle::Checksums),
            "its pages end in checksums: make a copy by sqlite3's .dump",
        ),
        (
            Reason::Unsound,
            "damaged, or it has an index that pbfrow can't check: PRAGMA integrity_check of sqlite3 says which",
        ),
        (
            Reason::Unlisted,
            "pbfrow can't read its list of tables: make a copy by sqlite3's .dump",
        ),
        (
            Reason::Sql(SqlError::SqliteFailure(ErrorCode::NotADatabase)),
            "damaged, or not a database that pbfrow can read: file is not a database that obeys its schema",
        ),
        (
            Reason::Store(StoreFault::NotThisStore(None)),
            "not a database of pbfrow",
        ),
        (
            Reason::Store(StoreFault::NotThisStore(Some(1))),
            "a database of version 1 of pbfrow's tables",
        ),
        (Reason::Store(StoreFault::Memory), "memory was refused"),
        (
            Reason::Store(StoreFault::Full),
            "the database would be too large",
        ),
        (
            Reason::Store(StoreFault::Interrupted),
            "the step limit was reached",
        ),
        (
            Reason::Store(StoreFault::Disk),
            "the disk or the database failed",
        ),
    ]
}

#[test]
fn each_reason_has_its_text(rt: HostRuntime) -> Result<(), Fail> {
    for (reason, wanted) in texts() {
        assert_eq!(rt; text(rt.alloc(), &reason)?.as_str(), wanted);
    }
    let added = Reason::AddedIndex(format!(in rt.alloc(); "tag_by_key")?);
    assert_eq!(rt;
        text(rt.alloc(), &added)?.as_str(),
        "damaged: its index tag_by_key has not one entry for each row"
    );
    let virtual_table = Reason::Object(Obstacle::VirtualTable, format!(in rt.alloc(); "words")?);
    assert_eq!(rt;
        text(rt.alloc(), &virtual_table)?.as_str(),
        "it has a virtual table, words: drop it with sqlite3 to go on"
    );
    let failed = Reason::File(OpenFault::Io(io::Error::from_raw_os_error(5)));
    assert_eq!(rt;
        text(rt.alloc(), &failed)?.as_str(),
        "Input/output error (os error 5)"
    );
    Ok(())
}

/// The fault that programs are told, and the words for people.
#[test]
fn each_refusal_has_its_fault(rt: HostRuntime) -> Result<(), Fail> {
    let refusals: [(Refusal, StoreFault, &str); 5] = [
        (
            OpenFault::Missing.into(),
            StoreFault::NotThisStore(None),
            "no such file",
        ),
        (
            OpenFault::Memory.into(),
            StoreFault::Memory,
            "out of memory",
        ),
        (
            OpenFault::Busy.into(),
            StoreFault::Disk,
            "in use by another program",
        ),
        (
            StoreFault::NotThisStore(None).into(),
            StoreFault::NotThisStore(None),
            "not a database of pbfrow",
        ),
        (AllocError.into(), StoreFault::Memory, "memory was refused"),
    ];
    for (refusal, fault, wanted) in refusals {
        assert_eq!(rt; refusal.fault, fault);
        assert_eq!(rt; text(rt.alloc(), &refusal.reason)?.as_str(), wanted);
    }
    Ok(())
}
