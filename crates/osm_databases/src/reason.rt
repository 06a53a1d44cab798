//! Why a database isn't opened, in a fault for programs and in words for people.

ghost use Rattle.std.specs.Prelude.{◌≡◌, MatchResult};
ghost use Rattle.osm_databases.specs.Reasons.{fault_of_file, fault_of_obstacle};

use osm_openings::{Obstacle, Obstruction};
use osm_rows::{CREATE_ELEMENT_INDEX, StoreFault};
use osm_tree_audits::StoreIndex;
use pbfrow_files::OpenFault;
use sqlite::Error as SqlError;
use std::alloc::{AllocError, Global};
use std::fmt;

/// Why a database isn't opened.
#[derive(Debug, Drop)]
pub enum Reason {
    /// The files can't be opened.
    File(OpenFault),
    /// Something in the database stands in the way.
    Obstacle(Obstacle),
    /// The object of this name does.
    Object(Obstacle, String),
    /// SQL can't open it, for any other cause.
    Sql(SqlError),
    /// One of its pages or trees isn't sound, though their list is.
    Unsound,
    /// It is of this version, and its trees can't be opened by their list.
    Unlisted,
    /// An index lacks the entry of a row, or has an entry of none.
    Index(StoreIndex),
    /// So does one of this name that the user has added.
    AddedIndex(String),
    /// It has no store, or one of another version, or a call of the store failed.
    Store(StoreFault),
}

/// Writes which object stands in the way, and what to do.
fn write_object<W: fmt::Write>(
    f: &mut fmt::Formatter<W>,
    obstacle: Obstacle,
    name: &str,
) -> fmt::Result {
    match obstacle {
        Obstacle::ChangedTable => write!(
            f,
            "its table {name} isn't as pbfrow makes it: take out what was added to it, by ALTER TABLE {name} DROP COLUMN .., or copy what it holds into a new database"
        ),
        Obstacle::ChangedIndex => write!(
            f,
            "its index {name} is missing, or isn't as pbfrow makes it: DROP INDEX IF EXISTS {name}; {CREATE_ELEMENT_INDEX}"
        ),
        Obstacle::TwoNames => write!(
            f,
            "it has two objects named {name}: DROP TRIGGER \"{name}\", and make it again by another name"
        ),
        Obstacle::OtherText => write!(
            f,
            "its object {name} has a name or a text that isn't in UTF-8: drop it with sqlite3 to go on"
        ),
        Obstacle::UnkeptIndex => write!(
            f,
            "its index {name} is UNIQUE, of an expression, with WHERE, of a collation of your own, or on blob or meta, which pbfrow doesn't keep up to date: DROP INDEX \"{name}\", and make it again behind the import"
        ),
        _ => write!(f, "{obstacle}, {name}: drop it with sqlite3 to go on"),
    }
}

impl fmt::Display for Reason {
    fn fmt<W: fmt::Write>(&self, f: &mut fmt::Formatter<W>) -> fmt::Result {
        match self {
            Reason::File(fault) => write!(f, "{fault}"),
            Reason::Obstacle(Obstacle::FirstLayout) => write!(
                f,
                "{}: copy it into a new database by pbfrow migrate",
                Obstacle::FirstLayout
            ),
            Reason::Obstacle(obstacle) => write!(f, "{obstacle}"),
            Reason::Object(obstacle, name) => write_object(f, *obstacle, name.as_str()),
            Reason::Unsound => f.write_str(
                "damaged, or it has an index that pbfrow can't check: PRAGMA integrity_check of sqlite3 says which",
            ),
            Reason::Unlisted => f.write_str(
                "pbfrow can't read its list of tables: make a copy by sqlite3's .dump",
            ),
            Reason::Sql(error) => write!(
                f,
                "damaged, or not a database that pbfrow can read: {error}"
            ),
            Reason::Index(index) => write!(
                f,
                "damaged: its index {index} has not one entry for each row"
            ),
            Reason::AddedIndex(name) => write!(
                f,
                "damaged: its index {name} has not one entry for each row"
            ),
            Reason::Store(StoreFault::NotThisStore(None)) => f.write_str(
                "not a database of pbfrow",
            ),
            Reason::Store(StoreFault::NotThisStore(Some(version))) => write!(
                f,
                "a database of version {version} of pbfrow's tables"
            ),
            Reason::Store(fault) => write!(f, "{fault}"),
        }
    }
}

/// That a database isn't opened: the fault that is answered, and the reason that people are told.
#[derive(Debug, Drop)]
pub struct Refusal {
    pub fault: StoreFault,
    pub reason: Reason,
}

/// The fault of files that can't be opened.
fn fault_of_file(fault: OpenFault) -> StoreFault
    ensures { result ≡ fault_of_file fault }
{
    match fault {
        OpenFault::Missing => StoreFault::NotThisStore(None),
        OpenFault::Memory => StoreFault::Memory,
        _ => StoreFault::Disk,
    }
}

impl From<OpenFault> for Refusal {
    fn from(fault: OpenFault) -> Self {
        Refusal {
            fault: fault_of_file(fault),
            reason: Reason::File(fault),
        }
    }
}

impl From<StoreFault> for Refusal {
    fn from(fault: StoreFault) -> Self {
        Refusal {
            fault,
            reason: Reason::Store(fault),
        }
    }
}

impl From<AllocError> for Refusal {
    fn from(_error: AllocError) -> Self {
        Refusal::from(StoreFault::Memory)
    }
}

/// Says on standard error which database isn't opened and why. A line that can't be written there is left out.
pub fn tell(rt: &HostRuntime, name: &str, reason: &Reason) {
    let _written = eprintln!(rt; "pbfrow: {name}: {reason}");
}

/// The fault of a database in whose way something stands.
pub fn fault_of_obstacle(obstacle: Obstacle) -> StoreFault
    ensures { result ≡ fault_of_obstacle obstacle }
{
    match obstacle {
        Obstacle::Stranger | Obstacle::Unfinished => StoreFault::NotThisStore(None),
        Obstacle::FirstLayout => StoreFault::NotThisStore(Some(1)),
        _ => StoreFault::Disk,
    }
}

/// What stands in the way, by its name where it is an object.
fn reason_of(alloc: Global, found: &Obstruction) -> Reason {
    if found.object.is_empty() {
        return Reason::Obstacle(found.obstacle);
    }
    match String::from_utf8_lossy(alloc, found.object.as_slice()) {
        Ok(object) => Reason::Object(found.obstacle, object),
        Err(_error) => Reason::Obstacle(found.obstacle),
    }
}

/// Says on standard error what stands in the way of a database, by its name where it is an object, and what to do then; and
/// answers the fault of it.
pub fn tell_of_obstruction(rt: &HostRuntime, name: &str, found: &Obstruction) -> StoreFault
    ensures { result ≡ fault_of_obstacle found.now.obstacle }
{
    tell(rt, name, &reason_of(rt.alloc(), found));
    fault_of_obstacle(found.obstacle)
}

/// Says on standard error why a database isn't opened, if it isn't, and passes on its fault.
pub fn tell_refusal<T>(
    rt: &HostRuntime,
    name: &str,
    opened: Result<T, Refusal>,
) -> Result<T, StoreFault>
    ensures { MatchResult opened (λ it. result ≡ Ok it) (λ refusal. result ≡ Err refusal.fault) }
{
    match opened {
        Ok(it) => Ok(it),
        Err(refusal) => {
            tell(rt, name, &refusal.reason);
            Err(refusal.fault)
        }
    }
}

/// Says on standard error that a database has no store of this program, or that a call of it failed, and passes on the
/// fault.
pub fn tell_fault(rt: &HostRuntime, name: &str, fault: StoreFault) -> StoreFault
    ensures { result ≡ fault }
{
    tell(rt, name, &Reason::Store(fault));
    fault
}
