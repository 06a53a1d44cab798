//! What stands in the way of a database that can't be opened, or can't be written to.

ghost use Rattle.std.specs.Prelude.{◌≡◌, [], IsTrue, IfOk};
ghost use Rattle.std.specs.List.{list_any};
ghost use Rattle.std.specs.Str as text;
ghost use Rattle.osm_openings.specs.declared.obstacles.Obstacle.TheVariants as found;
ghost use Rattle.osm_openings.specs.Obstacles as spec;

use crate::catalog::is_left_out;
use crate::opening::page_size;
use osm_rows::{
    CREATE_BLOB, CREATE_ELEMENT, CREATE_ELEMENT_INDEX, CREATE_LINK, CREATE_META, CREATE_TAG,
};
use osm_tree_writes::{binds_a_store, is_added_index, is_of_a_store, plain_index};
use sqlite_disk::{Disk, Files};
use sqlite_pager::{Options, Pager};
use sqlite_store::{OpenError, Unopened};
use sqlite_trees::sound::{bytes_of, is_virtual, is_word, same_name};
use sqlite_value::row::Row;
use sqlite_wal::{probe_first_page, probe_page_size};
use std::alloc::{AllocError, Global};
use std::str::from_utf8;
use thiserror::Error;

/// What stands in the way of opening a database file by the trees of a store that keeps elements in tables, or of writing to
/// it.
#[derive(Clone, Copy, Debug, PartialEq, Eq, Error)]
pub enum Obstacle {
    #[error("not a database of SQLite")]
    NoDatabase,
    /// What is left where the making of a database was interrupted: another one makes it anew.
    #[error("a database that wasn't made to its end: run the import or merge again, or remove it")]
    Unfinished,
    #[error("auto_vacuum is on: turn it off and run VACUUM, with sqlite3")]
    AutoVacuum,
    #[error("its texts are in UTF-16: make a copy by sqlite3's .dump")]
    Utf16,
    #[error("its pages end in checksums: make a copy by sqlite3's .dump")]
    Checksums,
    #[error("damaged: its header, its log or its list of tables")]
    Damaged,
    /// It lacks one of pbfrow's tables, of either layout.
    #[error("not a database of pbfrow")]
    Stranger,
    /// It has the tables of a store that keeps elements as blocks.
    #[error("a database of version 1 of pbfrow's tables")]
    FirstLayout,
    #[error("it has a trigger on one of pbfrow's tables")]
    Trigger,
    #[error("it has a virtual table")]
    VirtualTable,
    /// A table of pbfrow's has another text, so other columns.
    #[error("one of its tables isn't as pbfrow makes it")]
    ChangedTable,
    /// The index by kind and id is missing, or has another text.
    #[error("its index by kind and id isn't as pbfrow makes it")]
    ChangedIndex,
    #[error("it has two objects of one name")]
    TwoNames,
    #[error("it has a text that isn't in UTF-8")]
    OtherText,
    /// An index of the user's own on one of pbfrow's tables.
    #[error("it has an index that pbfrow doesn't keep up to date")]
    UnkeptIndex,
}

/// An obstacle, and the name of the object that is one; an empty name where it is no object.
#[derive(Debug, Drop)]
pub struct Obstruction {
    pub obstacle: Obstacle,
    pub object: Vec<u8>,
}

impl Obstruction {
    /// That of no object.
    fn without_object(alloc: Global, obstacle: Obstacle) -> Obstruction
        ensures obstacle { result.obstacle ≡ obstacle }
        ensures object { result.object.items ≡ [] }
    {
        Obstruction {
            obstacle,
            object: Vec::new(alloc),
        }
    }
}

/// Where the header has the greatest root page, which is 0 unless auto_vacuum is on (fileformat2.html, section 1.3).
const LARGEST_ROOT: usize = 52;

/// Where it has the encoding of texts: 1 for UTF-8, and 2 and 3 for UTF-16.
const ENCODING: usize = 56;

/// Four bytes of the header of the database file. Where they can't be read they are zeros.
fn header_bytes<D: Disk>(db: &mut D, at: usize) -> [u8; 4]
    requires { IsTrue (D.Disk.is_usable db.old) }
    ensures usable { IsTrue (D.Disk.is_usable db.new) }
    ensures seen { D.Disk.seen db.new ≡ D.Disk.seen db.old }
{
    let mut bytes = [0; 4];
    match db.read_at(at, &mut bytes) {
        Ok(()) => bytes,
        Err(_) => [0; 4],
    }
}

/// What the header of the database file tells of that stands in the way.
fn obstacle_of_header<D: Disk>(db: &mut D) -> Option<Obstacle>
    requires { IsTrue (D.Disk.is_usable db.old) }
    ensures usable { IsTrue (D.Disk.is_usable db.new) }
    ensures seen { D.Disk.seen db.new ≡ D.Disk.seen db.old }
{
    if header_bytes(db, LARGEST_ROOT) != [0; 4] {
        return Some(Obstacle::AutoVacuum);
    }
    match header_bytes(db, ENCODING) {
        [0, 0, 0, 2] | [0, 0, 0, 3] => Some(Obstacle::Utf16),
        _ => None,
    }
}

/// Whether a row of `sqlite_schema` tells of a table with this name, in any case.
fn is_table(name: &[u8], row: &Row) -> bool
    ensures { result ≡ spec.is_table name.now row.now }
{
    is_word(b"table", row.get(1)) && same_name(bytes_of(row.get(2)), name)
}

/// Whether one of these rows does.
fn has_table(rows: &[Row], name: &[u8]) -> bool
    ensures { result ≡ spec.has_table rows.now name.now }
{
    rows.iter().any(|row| is_table(name, row))
}

/// Whether there are the five tables of a store that keeps elements in tables.
fn has_tables(rows: &[Row]) -> bool
    ensures { result ≡ spec.has_tables rows.now }
{
    has_table(rows, b"meta")
        && has_table(rows, b"blob")
        && has_table(rows, b"element")
        && has_table(rows, b"tag")
        && has_table(rows, b"link")
}

/// Whether there are the three of one that keeps them as blocks.
fn has_blocks(rows: &[Row]) -> bool
    ensures { result ≡ spec.has_blocks rows.now }
{
    has_table(rows, b"meta") && has_table(rows, b"blob") && has_table(rows, b"body")
}

/// Whether a row has this name and this text.
fn has_text(name: &[u8], text: &str, row: &Row) -> bool
    ensures { result ≡ spec.has_text name.now text.now row.now }
{
    is_word(name, row.get(2)) && is_word(text.as_bytes(), row.get(5))
}

/// Whether it has those of one of the five tables.
fn is_as_made(row: &Row) -> bool
    ensures { result ≡ spec.is_as_made row.now }
{
    has_text(b"meta", CREATE_META, row)
        || has_text(b"blob", CREATE_BLOB, row)
        || has_text(b"element", CREATE_ELEMENT, row)
        || has_text(b"tag", CREATE_TAG, row)
        || has_text(b"link", CREATE_LINK, row)
}

/// Whether it tells of a table with a name of one of the five, which has another text.
fn is_changed(row: &Row) -> bool
    ensures { result ≡ spec.is_changed row.now }
{
    is_word(b"table", row.get(1)) && is_of_a_store(bytes_of(row.get(2))) && !is_as_made(row)
}

/// Whether it tells of the index by kind and id.
fn is_by_id(row: &Row) -> bool
    ensures { result ≡ spec.is_by_id row.now }
{
    let is_index = is_word(b"index", row.get(1));
    let is_on_elements = is_word(b"element", row.get(3));
    let is_as_made = has_text(b"element_by_id", CREATE_ELEMENT_INDEX, row);
    is_index & (is_on_elements & is_as_made)
}

/// Whether it tells of a table without pages of its own.
fn is_virtual_table(row: &Row) -> bool
    ensures { result ≡ spec.is_virtual_table row.now }
{
    is_word(b"table", row.get(1)) && is_virtual(row.get(1), row.get(5))
}

/// Whether it tells of a trigger on a table of a store of either layout.
fn is_trigger(row: &Row) -> bool
    ensures { result ≡ spec.is_trigger row.now }
{
    let table = bytes_of(row.get(3));
    is_word(b"trigger", row.get(1)) && (is_of_a_store(table) || same_name(table, b"body"))
}

/// Whether bytes are a text in UTF-8.
fn is_utf8(bytes: &[u8]) -> bool
    ensures { result ≡ text.is_utf8 bytes.now }
{
    match from_utf8(bytes) {
        Ok(_) => true,
        Err(_) => false,
    }
}

/// Whether the name, the table and the text of a row are in UTF-8.
fn is_in_utf8(row: &Row) -> bool
    ensures { result ≡ spec.is_in_utf8 row.now }
{
    is_utf8(bytes_of(row.get(2))) && is_utf8(bytes_of(row.get(3))) && is_utf8(bytes_of(row.get(5)))
}

/// Whether a row of `sqlite_schema` tells of this obstacle.
fn shows(obstacle: Obstacle, row: &Row) -> bool
    ensures { result ≡ spec.shows obstacle row.now }
{
    match obstacle {
        Obstacle::Trigger => is_trigger(row),
        Obstacle::VirtualTable => is_virtual_table(row),
        Obstacle::ChangedTable => is_changed(row),
        Obstacle::OtherText => !is_left_out(row) && !is_in_utf8(row),
        _ => false,
    }
}

/// An obstacle, and the name of the object that is one.
fn obstruction_of(alloc: Global, obstacle: Obstacle, name: &[u8]) -> Result<Obstruction, AllocError>
    ensures obstacle { IfOk result (λ told. told.obstacle ≡ obstacle) }
    ensures object { IfOk result (λ told. told.object.items ≡ name.now) }
{
    let object = name.to_vec(alloc)?;
    Ok(Obstruction { obstacle, object })
}

/// An obstacle, and the name of the object that a row tells of.
fn obstruction_by(alloc: Global, obstacle: Obstacle, row: &Row) -> Result<Obstruction, AllocError>
    ensures obstacle { IfOk result (λ told. told.obstacle ≡ obstacle) }
    ensures object { IfOk result (λ told. told.object.items ≡ spec.name_of row.now) }
{
    obstruction_of(alloc, obstacle, bytes_of(row.get(2)))
}

/// The first row that tells of an obstacle.
fn first_that_shows(
    alloc: Global,
    obstacle: Obstacle,
    rows: &[Row],
) -> Result<Option<Obstruction>, AllocError>
    ensures { IfOk result (λ found. spec.Tells found (spec.first_that_shows obstacle rows.now)) }
{
    for row in rows {
        if shows(obstacle, row) {
            return Ok(Some(obstruction_by(alloc, obstacle, row)?));
        }
    }
    Ok(None)
}

/// Whether one of these rows has the name of another one, in any case.
#[tactic(auto, unfolding(crate::specs::Obstacles::is_named_before))]
fn is_named_before(earlier: &[Row], row: &Row) -> bool
    ensures { result ≡ spec.is_named_before earlier.now row.now }
{
    let name = bytes_of(row.get(2));
    earlier
        .iter()
        .any(|other| same_name(bytes_of(other.get(2)), name))
}

/// The first row that has the name of an earlier one.
fn first_named_twice(alloc: Global, rows: &[Row]) -> Result<Option<Obstruction>, AllocError>
    ensures { IfOk result (λ found. spec.Tells found (spec.first_named_twice [] rows.now)) }
{
    for next in 0..rows.len() {
        let row = &rows[next];
        if is_named_before(&rows[..next], row) {
            return Ok(Some(obstruction_by(alloc, Obstacle::TwoNames, row)?));
        }
    }
    Ok(None)
}

/// Whether one of these rows tells of the index by kind and id.
fn has_by_id(rows: &[Row]) -> bool
    ensures { result ≡ list_any spec.is_by_id rows.now }
{
    rows.iter().any(|row| is_by_id(row))
}

/// That the index by kind and id is missing, where it is.
fn missing_index(alloc: Global, rows: &[Row]) -> Result<Option<Obstruction>, AllocError>
    ensures { IfOk result (λ found. spec.Tells found (spec.missing_index rows.now)) }
{
    if has_by_id(rows) {
        Ok(None)
    } else {
        Ok(Some(obstruction_of(alloc, Obstacle::ChangedIndex, b"element_by_id")?))
    }
}

/// What stands in the way of a store that keeps elements in tables.
fn before_tables(alloc: Global, rows: &[Row]) -> Result<Option<Obstruction>, AllocError>
    ensures { IfOk result (λ found. spec.Tells found (spec.before_tables rows.now)) }
{
    if let Some(table) = first_that_shows(alloc, Obstacle::ChangedTable, rows)? {
        return Ok(Some(table));
    }
    if let Some(index) = missing_index(alloc, rows)? {
        return Ok(Some(index));
    }
    if let Some(name) = first_named_twice(alloc, rows)? {
        return Ok(Some(name));
    }
    first_that_shows(alloc, Obstacle::OtherText, rows)
}

/// What SQL can't pass over in a store that keeps elements as blocks, or that it is one.
fn before_blocks(alloc: Global, rows: &[Row]) -> Result<Option<Obstruction>, AllocError>
    ensures { IfOk result (λ found. spec.Tells found (spec.before_blocks rows.now)) }
{
    if let Some(trigger) = first_that_shows(alloc, Obstacle::Trigger, rows)? {
        return Ok(Some(trigger));
    }
    if let Some(table) = first_that_shows(alloc, Obstacle::VirtualTable, rows)? {
        return Ok(Some(table));
    }
    Ok(Some(Obstruction::without_object(alloc, Obstacle::FirstLayout)))
}

/// What stands in the way among the rows of `sqlite_schema`: the first that does. Where there are no rows nothing does.
fn obstruction_among(alloc: Global, rows: &[Row]) -> Result<Option<Obstruction>, AllocError>
    ensures { IfOk result (λ found. spec.Tells found (spec.obstruction rows.now)) }
{
    if rows.is_empty() {
        Ok(None)
    } else if has_tables(rows) {
        before_tables(alloc, rows)
    } else if has_blocks(rows) {
        before_blocks(alloc, rows)
    } else {
        Ok(Some(Obstruction::without_object(alloc, Obstacle::Stranger)))
    }
}

/// How many bytes the first page has of a database that is made.
const MADE_PAGE: usize = 4_096;

/// Whether a database file may be what an interrupted making of it leaves: at most a page, which begins with a zero. The library
/// decides that exactly, from both files, before it makes a database there.
fn may_be_unfinished<D: Disk>(db: &mut D) -> bool
    requires { IsTrue (D.Disk.is_usable db.old) }
    ensures usable { IsTrue (D.Disk.is_usable db.new) }
{
    let mut first = [1u8];
    match db.len() {
        Ok(length) if length <= MADE_PAGE => match db.read_at(0, &mut first) {
            Ok(()) => first[0] == 0,
            Err(_) => false,
        },
        _ => false,
    }
}

/// What stands in the way of files whose pages have no size that is known, or end in sums. An empty file is no obstacle: a
/// database can be made in it.
fn obstacle_without_size<D: Disk>(alloc: Global, files: &mut Files<D>) -> Option<Obstacle>
    requires log { IsTrue (D.Disk.is_usable files.old.log) }
    requires db { IsTrue (D.Disk.is_usable files.old.db) }
{
    if let Ok(0) = files.db.len() {
        return None;
    }
    if may_be_unfinished(&mut files.db) {
        return Some(Obstacle::Unfinished);
    }
    let Ok(Some(size)) = probe_page_size(files) else {
        return Some(Obstacle::NoDatabase);
    };
    match probe_first_page(alloc, files, size) {
        Ok((b'S', _)) => Some(Obstacle::Checksums),
        _ => Some(Obstacle::NoDatabase),
    }
}

/// That obstacle, as that of no object.
fn of_no_object(alloc: Global, obstacle: Option<Obstacle>) -> Option<Obstruction> {
    match obstacle {
        Some(obstacle) => Some(Obstruction::without_object(alloc, obstacle)),
        None => None,
    }
}

/// What stands in the way of opening these files by the trees of a store that keeps elements in tables, if that can be told.
/// They are closed, and nothing of them is changed.
///
/// Nothing does where the files are empty or have no object; where the cause is a row of the table that names the version; and
/// where it is damage behind the list of objects.
pub fn find_obstacle<D: Disk + Drop>(
    alloc: Global,
    mut files: Files<D>,
    options: Options,
) -> Result<Option<Obstruction>, AllocError>
    requires log { IsTrue (D.Disk.is_usable files.log) }
    requires db { IsTrue (D.Disk.is_usable files.db) }
{
    let Some(size) = page_size(alloc, &mut files)? else {
        let obstacle = obstacle_without_size(alloc, &mut files);
        return Ok(of_no_object(alloc, obstacle));
    };
    if let Some(obstacle) = obstacle_of_header(&mut files.db) {
        return Ok(Some(Obstruction::without_object(alloc, obstacle)));
    }
    let pager = Pager::new(alloc, files, size, options)?;
    let mut unopened = Unopened::new(alloc, pager, &[])?;
    match unopened.read_catalog() {
        Ok(rows) => obstruction_among(alloc, rows.as_slice()),
        Err(OpenError::OutOfMemory) => Err(AllocError),
        Err(_) => Ok(Some(Obstruction::without_object(alloc, Obstacle::Damaged))),
    }
}

/// What a row of the list of objects tells of that a put doesn't keep: a trigger on a table of a store, or an index on one that
/// isn't one of columns. The row begins with its rowid, type, name, table and SQL text.
fn unkept(alloc: Global, row: &Row) -> Result<Option<Obstruction>, AllocError>
    ensures { IfOk result (λ found. spec.Tells found (spec.unkept row.now)) }
{
    if binds_a_store(row) {
        return Ok(Some(obstruction_by(alloc, Obstacle::Trigger, row)?));
    }
    let index = plain_index(alloc, row)?;
    if is_added_index(row) && index.is_none() {
        Ok(Some(obstruction_by(alloc, Obstacle::UnkeptIndex, row)?))
    } else {
        Ok(None)
    }
}

/// What stands in the way of writing to the tables of a store, and of looking at all of their indexes: of these rows of the
/// list of objects the first that tells of something that a put doesn't keep. Each row begins with its rowid, type, name,
/// table and SQL text.
pub fn find_unkept(alloc: Global, objects: &[Row]) -> Result<Option<Obstruction>, AllocError>
    ensures { IfOk result (λ found. spec.Tells found (spec.first_unkept objects.now)) }
{
    for row in objects {
        if let Some(found) = unkept(alloc, row)? {
            return Ok(Some(found));
        }
    }
    Ok(None)
}
