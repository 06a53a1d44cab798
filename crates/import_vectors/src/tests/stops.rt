//! Databases one of whose files stops at a call, what the next opening finds, and how it goes on.

mod batches;
mod below;
mod copying;
mod imports;
mod openings;
mod reads;

use super::questions::{Question, answer_to};
use osm_import::{Answer, ExportFault, deliver_all};
use osm_rows::{BlobKeeper, BlobReader, Extent, StoreFault};
use osm_sql_store::{BlobStore, SqlLayout, TableStore};
use sqlite::{Alter, Connection, FileStore, Files};
use sqlite_disk::{Crash, Disk, Fuse, Memory};
use std::alloc::Global;
use store_vectors::deliveries::deliveries_of;
use store_vectors::files::opened;
use store_vectors::fixtures::{HELD_HEADER, HELD_NODES, HELD_TAGGED, TAGGED_FILE};
use store_vectors::memory::{KnownLayout, below, has_rows, number, rows_of};
use store_vectors::steps::{are_joined, holds_the_tagged_file};

type Fused = Fuse<Memory>;

/// The file that stops.
#[derive(Clone, Copy, Debug, PartialEq, Eq)]
enum Stopped {
    Log,
    Db,
}

/// What becomes of bytes that were written and not synced.
#[derive(Clone, Copy, Debug, PartialEq, Eq)]
enum Unsynced {
    /// They are lost, as where the machine stops.
    Lost,
    /// They stay, as where the process alone stops.
    Kept,
}

/// Each kind of stop.
const STOPS: [(Stopped, Unsynced); 4] = [
    (Stopped::Log, Unsynced::Lost),
    (Stopped::Log, Unsynced::Kept),
    (Stopped::Db, Unsynced::Lost),
    (Stopped::Db, Unsynced::Kept),
];

/// How far the work on a database has come, by its answers, or what a database holds of the file of three frames.
#[derive(Clone, Copy, Debug, PartialEq, Eq)]
enum Reached {
    /// No database was opened.
    Nothing,
    /// A database without tables, or none that was opened as a store.
    Database,
    /// A store that holds nothing, or tells a front of what it is asked.
    Store,
    Header,
    HeaderAndNodes,
    /// The whole file, or all that is asked; or the opening is done.
    All,
    /// The whole file, and the log is copied.
    Copied,
}

/// How far the work had come where a file stopped, and what the next opening found.
type Outcome = (Reached, Reached);

/// What is done in a database.
#[derive(Clone, Copy)]
enum Work<'a> {
    /// A new store is made and filled.
    Import,
    /// A new store is made by SQL, and its trees are filled.
    ImportBelow,
    /// The store is opened, where there is one.
    Adopt,
    /// The store is opened and asked; these are the pieces of all that it tells.
    Ask(Question, &'a [&'a [u8]]),
    /// It is seen what is held, and the store is filled again.
    GoOn,
    /// It is seen whether these are all rows.
    Show(&'a str),
}

/// What a store is filled with.
trait Source {
    /// Fills a new store. How far that came before a file stopped.
    fn fill<K: BlobKeeper>(&mut self, alloc: Global, store: &mut K) -> Option<Reached>;

    /// How much of it these extents are.
    fn extents_of(&self, extents: &[Extent]) -> Option<Reached>;

    /// Whether a database, where so much is held, has the rows of that.
    fn has_rows<S: Alter, L: KnownLayout>(
        &self,
        database: &mut Connection<S>,
        held: Reached,
    ) -> Option<bool>;

    /// Whether a store that holds so much of it, filled again, takes the rest and then holds all.
    fn goes_on<K: BlobKeeper>(
        &mut self,
        alloc: Global,
        store: &mut K,
        held: Reached,
    ) -> Option<bool>;
}

/// The file of three frames, delivered.
#[derive(Drop)]
struct TaggedFile;

impl Source for TaggedFile {
    fn fill<K: BlobKeeper>(&mut self, alloc: Global, store: &mut K) -> Option<Reached> {
        let deliveries = deliveries_of(alloc, TAGGED_FILE).ok()?;
        let answers = deliver_all(alloc, store, &deliveries).ok()?;
        answered(&answers)
    }

    fn extents_of(&self, extents: &[Extent]) -> Option<Reached> {
        extents_of(extents)
    }

    fn has_rows<S: Alter, L: KnownLayout>(
        &self,
        database: &mut Connection<S>,
        held: Reached,
    ) -> Option<bool> {
        has_rows_of::<S, L>(database, held)
    }

    fn goes_on<K: BlobKeeper>(
        &mut self,
        alloc: Global,
        store: &mut K,
        held: Reached,
    ) -> Option<bool> {
        let deliveries = deliveries_of(alloc, TAGGED_FILE).ok()?;
        let answers = deliver_all(alloc, store, &deliveries).ok()?;
        Some(
            answers.as_slice() == wanted(held).as_slice()
                && holds_the_tagged_file(alloc, store).ok()?,
        )
    }
}

/// After how many calls each file stops.
fn fuses(stopped: Stopped, calls: u64) -> (u64, u64) {
    match stopped {
        Stopped::Log => (calls, u64::MAX),
        Stopped::Db => (u64::MAX, calls),
    }
}

/// Two new files, one of which stops after so many calls.
fn new_files(alloc: Global, stopped: Stopped, calls: u64) -> Files<Fused> {
    let (log_calls, db_calls) = fuses(stopped, calls);
    Files {
        log: Fuse::new(Memory::new(alloc), log_calls),
        db: Fuse::new(Memory::new(alloc), db_calls),
    }
}

/// A file with the same bytes, all of them synced, which stops after so many calls.
fn copy(alloc: Global, file: &Fused, calls: u64) -> Option<Fused> {
    let mut memory = Memory::new(alloc);
    memory.write_at(0, file.inner().bytes()).ok()?;
    memory.sync().ok()?;
    Some(Fuse::new(memory, calls))
}

/// Copies of both files, one of which stops after so many calls.
fn copies(
    alloc: Global,
    files: &Files<Fused>,
    stopped: Stopped,
    calls: u64,
) -> Option<Files<Fused>> {
    let (log_calls, db_calls) = fuses(stopped, calls);
    let log = copy(alloc, &files.log, log_calls)?;
    let db = copy(alloc, &files.db, db_calls)?;
    Some(Files { log, db })
}

/// The files as the next opening finds them after a stop. They don't stop again.
fn after_stop(alloc: Global, mut files: Files<Fused>, unsynced: Unsynced) -> Option<Files<Fused>> {
    if unsynced == Unsynced::Lost {
        files.log.crash();
        files.db.crash();
    }
    copies(alloc, &files, Stopped::Log, u64::MAX)
}

/// How far deliveries were answered before a file stopped; behind that each is a fault.
fn answered(answers: &[Answer]) -> Option<Reached> {
    match answers {
        [Answer::Fault(_), Answer::Fault(_), Answer::Fault(_)] => Some(Reached::Store),
        [Answer::Stored(0), Answer::Fault(_), Answer::Fault(_)] => Some(Reached::Header),
        [Answer::Stored(0), Answer::Stored(2), Answer::Fault(_)] => Some(Reached::HeaderAndNodes),
        [Answer::Stored(0), Answer::Stored(2), Answer::Stored(2)] => Some(Reached::All),
        _ => None,
    }
}

/// Fills a new store. How far that came, and the database.
fn filled<S: Alter + Drop, L: SqlLayout, F: Source>(
    alloc: Global,
    database: Connection<S>,
    source: &mut F,
) -> Option<(Option<Reached>, Connection<S>)> {
    if !database.is_autocommit() {
        return None;
    }
    match BlobStore::<S, L>::create(database) {
        Ok(mut store) => Some((source.fill(alloc, &mut store), store.into_connection())),
        Err((_, database)) => Some((Some(Reached::Database), database)),
    }
}

/// Fills the trees of a new store. How far that came, and what they lie in.
fn filled_below<S: Alter + Drop, F: Source>(
    alloc: Global,
    database: Connection<S>,
    source: &mut F,
) -> Option<(Reached, S)> {
    if !database.is_autocommit() {
        return None;
    }
    match TableStore::create(database) {
        Ok(store) => {
            let mut trees = below(store);
            Some((source.fill(alloc, &mut trees)?, trees.into_store()))
        }
        Err((_, database)) => Some((Reached::Database, database.into_store())),
    }
}

/// Whether these are all rows, as text; and the database.
fn shown<S: Alter + Drop, L: KnownLayout>(
    alloc: Global,
    mut database: Connection<S>,
    rows: &str,
) -> Option<(Option<Reached>, Connection<S>)> {
    let found = rows_of(alloc, &mut database, L::ALL)?;
    Some(((found.as_str() == rows).then_some(Reached::All), database))
}

/// The store in a database; or the database, and why it isn't opened as a store.
fn adopted<S: Alter + Drop, L: SqlLayout>(
    database: Connection<S>,
) -> Option<Result<BlobStore<S, L>, (StoreFault, Connection<S>)>> {
    if !database.is_autocommit() {
        return None;
    }
    Some(BlobStore::adopt(database))
}

/// How far a question is answered, if what is told is a front of these pieces.
fn told<K: BlobReader>(
    alloc: Global,
    store: &mut K,
    question: Question,
    pieces: &[&[u8]],
) -> Option<Reached> {
    let (answer, text) = answer_to(alloc, store, question);
    match answer {
        Ok(()) if are_joined(&text, pieces) => Some(Reached::All),
        Err(ExportFault::Store(StoreFault::Disk)) if is_front(&text, pieces) => {
            Some(Reached::Store)
        }
        _ => None,
    }
}

/// Whether the bytes are a front of these pieces, one behind the other.
fn is_front(bytes: &[u8], pieces: &[&[u8]]) -> bool {
    let mut rest = bytes;
    for piece in pieces {
        match rest.strip_prefix(*piece) {
            Some(left) => rest = left,
            None => return piece.starts_with(rest),
        }
    }
    rest.is_empty()
}

/// Opens a store, if there is one. How far that came, and the database.
fn entered<S: Alter + Drop, L: SqlLayout>(
    database: Connection<S>,
) -> Option<(Option<Reached>, Connection<S>)> {
    match adopted::<S, L>(database)? {
        Ok(store) => Some((Some(Reached::All), store.into_connection())),
        Err((StoreFault::NotThisStore(None), database)) => Some((Some(Reached::All), database)),
        Err((StoreFault::Disk, database)) => Some((Some(Reached::Database), database)),
        Err(_) => None,
    }
}

/// Opens a store and asks it. How far that came, and the database.
fn asked<S: Alter + Drop, L: SqlLayout>(
    alloc: Global,
    database: Connection<S>,
    question: Question,
    pieces: &[&[u8]],
) -> Option<(Option<Reached>, Connection<S>)> {
    match adopted::<S, L>(database)? {
        Ok(mut store) => {
            let reached = told(alloc, &mut store, question, pieces);
            Some((reached, store.into_connection()))
        }
        Err((StoreFault::Disk, database)) => Some((Some(Reached::Database), database)),
        Err(_) => None,
    }
}

/// The sum of the numbers that these queries show.
fn sum<S: Alter>(database: &mut Connection<S>, queries: &[&str]) -> Option<i64> {
    let mut sum = 0i64;
    for sql in queries {
        sum = sum.checked_add(number(database, sql)?)?;
    }
    Some(sum)
}

/// How much of the file these extents are.
fn extents_of(extents: &[Extent]) -> Option<Reached> {
    if extents.is_empty() {
        Some(Reached::Store)
    } else if extents == [HELD_HEADER].as_slice() {
        Some(Reached::Header)
    } else if extents == [HELD_HEADER, HELD_NODES].as_slice() {
        Some(Reached::HeaderAndNodes)
    } else if extents == [HELD_HEADER, HELD_NODES, HELD_TAGGED].as_slice() {
        Some(Reached::All)
    } else {
        None
    }
}

/// Whether a database, where so much of the file is held, has the rows of that.
fn has_rows_of<S: Alter, L: KnownLayout>(
    database: &mut Connection<S>,
    held: Reached,
) -> Option<bool> {
    let rows = sum(database, L::COUNTS)?;
    let has_nodes = has_rows(database, L::NODES);
    Some(match held {
        Reached::Store | Reached::Header => rows == 0,
        Reached::HeaderAndNodes => rows == 2 && has_nodes,
        _ => has_nodes && has_rows(database, L::TAGGED),
    })
}

/// What a store holds, where each extent and each row is of its source; and its database.
fn map<S: Alter + Drop, L: KnownLayout, F: Source>(
    alloc: Global,
    mut store: BlobStore<S, L>,
    source: &F,
) -> Option<(Reached, Connection<S>)> {
    let held = source.extents_of(&store.extents(alloc).ok()?)?;
    let mut database = store.into_connection();
    if !source.has_rows::<S, L>(&mut database, held)? {
        return None;
    }
    Some((held, database))
}

/// What a database holds, and the store in it, which is made where there is none.
fn found<S: Alter + Drop, L: KnownLayout, F: Source>(
    alloc: Global,
    database: Connection<S>,
    source: &F,
) -> Option<(Reached, BlobStore<S, L>)> {
    match adopted::<S, L>(database)? {
        Ok(store) => {
            let (held, database) = map(alloc, store, source)?;
            Some((held, adopted(database)?.ok()?))
        }
        Err((StoreFault::NotThisStore(None), database)) => {
            if !database.is_autocommit() {
                return None;
            }
            Some((Reached::Database, BlobStore::create(database).ok()?))
        }
        Err(_) => None,
    }
}

/// The answers to the file, delivered to a store that holds so much of it.
fn wanted(held: Reached) -> [Answer; 3] {
    match held {
        Reached::All => [Answer::AlreadyHeld; 3],
        Reached::HeaderAndNodes => { [Answer::AlreadyHeld, Answer::AlreadyHeld, Answer::Stored(2)] }
        Reached::Header => [Answer::AlreadyHeld, Answer::Stored(2), Answer::Stored(2)],
        _ => [Answer::Stored(0), Answer::Stored(2), Answer::Stored(2)],
    }
}

/// What a database held, if it goes on to hold all; and the database.
fn continued<S: Alter + Drop, L: KnownLayout, F: Source>(
    alloc: Global,
    database: Connection<S>,
    source: &mut F,
) -> Option<(Option<Reached>, Connection<S>)> {
    let (held, mut store) = found::<S, L, F>(alloc, database, source)?;
    let is_whole = source.goes_on(alloc, &mut store, held)?;
    Some((is_whole.then_some(held), store.into_connection()))
}

/// Does the work. How far that came, and what the database lies in; None where something else was answered than a stop
/// explains.
fn worked<S: Alter + Drop, L: KnownLayout, F: Source>(
    alloc: Global,
    database: Connection<S>,
    work: Work<'_>,
    source: &mut F,
) -> Option<(Reached, S)> {
    let (reached, database) = match work {
        Work::ImportBelow => return filled_below(alloc, database, source),
        Work::Import => filled::<S, L, F>(alloc, database, source)?,
        Work::Adopt => entered::<S, L>(database)?,
        Work::Ask(question, pieces) => asked::<S, L>(alloc, database, question, pieces)?,
        Work::GoOn => continued::<S, L, F>(alloc, database, source)?,
        Work::Show(rows) => shown::<S, L>(alloc, database, rows)?,
    };
    Some((reached?, database.into_store()))
}

/// Closes the files of a database, in which the work came so far. Behind an import below SQL the log is copied, as the
/// program does.
fn closed<D: Disk + Drop>(
    mut store: FileStore<D>,
    reached: Reached,
    work: Work<'_>,
) -> (Reached, Files<D>) {
    let is_whole = matches!(work, Work::ImportBelow) && reached == Reached::All;
    if is_whole && store.checkpoint().is_ok() {
        (Reached::Copied, store.close())
    } else {
        (reached, store.close())
    }
}

/// The same in the database in these files, which are closed behind it. Each kind of work goes through here, since one
/// function alone may hold the database itself: it takes long to prove. What only reads has one page in memory, so that it
/// reads the files.
fn session<D: Disk + Drop, L: KnownLayout, F: Source>(
    alloc: Global,
    files: Files<D>,
    work: Work<'_>,
    source: &mut F,
) -> Option<(Reached, Files<D>)> {
    let cache_pages = match work {
        Work::Import | Work::ImportBelow | Work::GoOn | Work::Show(_) => 8,
        Work::Adopt | Work::Ask(..) => 1,
    };
    match opened(alloc, files, cache_pages) {
        Ok(database) => {
            let (reached, store) = worked::<_, L, F>(alloc, database, work, source)?;
            Some(closed(store, reached, work))
        }
        Err(files) => Some((Reached::Nothing, files)),
    }
}

/// What the next opening finds in files after a stop, if it goes on to hold all.
fn found_after<L: KnownLayout, F: Source>(
    alloc: Global,
    files: Files<Fused>,
    unsynced: Unsynced,
    source: &mut F,
) -> Option<Reached> {
    let files = after_stop(alloc, files, unsynced)?;
    let (held, _) = session::<_, L, F>(alloc, files, Work::GoOn, source)?;
    Some(held)
}
