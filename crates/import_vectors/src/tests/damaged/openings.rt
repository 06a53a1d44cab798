//! Databases with damage that are opened by the list of their trees or with a look at all pages, and what stands in the way of
//! others.

ghost use Rattle.std.specs.Prelude.{IsTrue};
ghost use Rattle.sqlite_wal.specs.Files.{seen_image};
ghost use Rattle.osm_openings.specs.Presumed.{ArePresumedTables};

use super::shared::Machine;
use osm_import::{Answer, deliver_all};
use osm_openings::{Obstacle, find_obstacle, open_checked_tables, open_tables};
use osm_rows::{BlobKeeper, BlobReader, StoreFault};
use osm_sql_store::TableStore;
use osm_trees::TreeStore;
use sqlite::{Alter, Connection, FileStore, Files};
use sqlite_disk::Disk;
use std::alloc::{AllocError, Global};
use std::test::*;
use store_vectors::deliveries::deliveries_of;
use store_vectors::files::{OPTIONS, opened};
use store_vectors::fixtures::TAGGED_FILE;
use store_vectors::memory::below;
use store_vectors::steps::holds_the_tagged_file;

/// What is held.
#[derive(Clone, Copy, Debug, PartialEq, Eq)]
pub(super) enum Held {
    /// No blob.
    Nothing,
    /// The file of three frames.
    All,
    /// Anything else, or a read fails.
    Else,
}

/// What a store holds.
pub(super) fn held_by<R: BlobReader>(alloc: Global, store: &mut R) -> Held {
    match store.extents(alloc) {
        Ok(extents) if extents.is_empty() => Held::Nothing,
        Ok(_) if holds_the_tagged_file(alloc, store) == Ok(true) => Held::All,
        _ => Held::Else,
    }
}

/// What a store over these trees holds, if there are any.
fn held_in<S: Alter + Drop>(alloc: Global, trees: Option<S>) -> Option<Held> {
    let mut reader = TreeStore::new(trees?);
    Some(held_by(alloc, &mut reader))
}

/// Delivers the file of three frames to a store that holds nothing.
fn fill<K: BlobKeeper>(alloc: Global, store: &mut K) -> Option<()> {
    const STORED: [Answer; 3] = [Answer::Stored(0), Answer::Stored(2), Answer::Stored(2)];
    let deliveries = deliveries_of(alloc, TAGGED_FILE).ok()?;
    let answers = deliver_all(alloc, store, &deliveries).ok()?;
    (answers.as_slice() == STORED.as_slice()).then_some(())
}

fn filled_by_trees<S: Alter + Drop>(alloc: Global, database: Connection<S>) -> Option<S> {
    if !database.is_autocommit() {
        return None;
    }
    let mut trees = below(TableStore::create(database).ok()?);
    fill(alloc, &mut trees)?;
    Some(trees.into_store())
}

/// Closes the files. The log is copied.
fn closed<D: Disk + Drop>(mut store: FileStore<D>) -> Option<Files<D>> {
    store.checkpoint().ok()?;
    Some(store.close())
}

/// Makes and fills a store in the database in these files.
fn filled<D: Disk + Drop>(alloc: Global, files: Files<D>) -> Option<Files<D>> {
    match opened(alloc, files, 8) {
        Ok(database) => closed(filled_by_trees(alloc, database)?),
        Err(_) => None,
    }
}

/// A machine with a database that was filled by its trees and closed, and nothing in its log.
fn filled_machine(alloc: Global) -> Result<Machine, Fail> {
    let machine = Machine::new(alloc, b"")?;
    filled(alloc, machine.files(alloc)?).ok_or("a filled database")?;
    machine.clear_log();
    Ok(machine)
}

/// What a store holds that is opened by its list, and what one with a look at all pages; none where it isn't opened. Then what
/// stands in the way.
type Found = (Option<Held>, Option<Held>, Option<Obstacle>);

/// What a store holds that is opened by its list.
fn held_by_list<D: Disk + Drop>(alloc: Global, files: Files<D>) -> Result<Option<Held>, AllocError>
    requires log { IsTrue (D.Disk.is_usable files.log) }
    requires db { IsTrue (D.Disk.is_usable files.db) }
    requires presumed { ArePresumedTables (seen_image D.Disk files.log files.db) }
{
    let trees = open_tables(alloc, files, OPTIONS)?;
    Ok(held_in(alloc, trees))
}

/// What one holds that is opened with a look at all pages.
fn held_with_a_look<D: Disk + Drop>(
    alloc: Global,
    files: Files<D>,
) -> Result<Option<Held>, AllocError>
    requires log { IsTrue (D.Disk.is_usable files.log) }
    requires db { IsTrue (D.Disk.is_usable files.db) }
{
    let trees = open_checked_tables(alloc, files, OPTIONS)?;
    Ok(held_in(alloc, trees))
}

/// What stands in the way.
fn obstacle_in(alloc: Global, machine: &Machine) -> Result<Option<Obstacle>, Fail> {
    match find_obstacle(alloc, machine.files(alloc)?, OPTIONS)? {
        Some(found) => Ok(Some(found.obstacle)),
        None => Ok(None),
    }
}

fn found(alloc: Global, machine: &Machine) -> Result<Found, Fail> {
    Ok((
        held_by_list(alloc, machine.files(alloc)?)?,
        held_with_a_look(alloc, machine.files(alloc)?)?,
        obstacle_in(alloc, machine)?,
    ))
}

/// What is found once bytes were written at an offset of a sound database.
fn found_with(alloc: Global, at: usize, bytes: &[u8]) -> Result<Found, Fail> {
    let machine = filled_machine(alloc)?;
    if !machine.overwrite(at, bytes) {
        return Err("nothing is written".into());
    }
    found(alloc, &machine)
}

/// How many bytes a page has.
const PAGE: usize = 4096;

/// Of the pages behind those of the list and of the version each belongs to one tree. Where it says that it has 65,535
/// entries, an opening by the list doesn't see it.
#[test]
fn pages_that_are_not_looked_at(rt: HostRuntime) -> Result<(), Fail> {
    let sound = filled_machine(rt.alloc())?;
    assert_eq!(rt; sound.size() / PAGE, 10);
    let all: Found = (Some(Held::All), Some(Held::All), None);
    assert_eq!(rt; found(rt.alloc(), &sound)?, all);
    for page in 2..10 {
        let found = found_with(rt.alloc(), page * PAGE + 3, b"\xFF\xFF")?;
        assert!(rt; matches!(found, (Some(_), None, None)), "{page} {found:?}");
    }
    Ok(())
}

/// Why all extents can't be read of these trees, if there are any.
fn fault_in<S: Alter + Drop>(alloc: Global, trees: Option<S>) -> Option<StoreFault> {
    TreeStore::new(trees?).extents(alloc).err()
}

/// The same of the trees of a store that is opened by its list.
fn fault_by_list<D: Disk + Drop>(
    alloc: Global,
    files: Files<D>,
) -> Result<Option<StoreFault>, AllocError>
    requires log { IsTrue (D.Disk.is_usable files.log) }
    requires db { IsTrue (D.Disk.is_usable files.db) }
    requires presumed { ArePresumedTables (seen_image D.Disk files.log files.db) }
{
    let trees = open_tables(alloc, files, OPTIONS)?;
    Ok(fault_in(alloc, trees))
}

/// The page behind that of the version is the table of blobs.
#[test]
fn a_read_that_comes_to_damage(rt: HostRuntime) -> Result<(), Fail> {
    let machine = filled_machine(rt.alloc())?;
    assert!(rt; machine.overwrite(2 * PAGE + 3, b"\xFF\xFF"));
    let fault = fault_by_list(rt.alloc(), machine.files(rt.alloc())?)?;
    assert_eq!(rt; fault, Some(StoreFault::Disk));
    Ok(())
}

/// Bytes of the header and of the list's page, by fileformat2.html: the first byte, the bytes that each page keeps at its end,
/// the greatest root page, the encoding of texts, and how many entries the list has.
#[test]
fn headers_that_stand_in_the_way(rt: HostRuntime) -> Result<(), Fail> {
    const CHANGES: &[(usize, &[u8], Obstacle)] = &[
        (0, b"X", Obstacle::NoDatabase),
        (20, b"\x08", Obstacle::Checksums),
        (55, b"\x01", Obstacle::AutoVacuum),
        (59, b"\x02", Obstacle::Utf16),
        (59, b"\x03", Obstacle::Utf16),
        (103, b"\xFF\xFF", Obstacle::Damaged),
    ];
    for (at, bytes, obstacle) in CHANGES {
        let found = found_with(rt.alloc(), *at, *bytes)?;
        let behind: Found = (None, None, Some(*obstacle));
        assert_eq!(rt; found, behind, "{at}");
    }
    Ok(())
}
