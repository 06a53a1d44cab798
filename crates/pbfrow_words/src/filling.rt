//! The commands that fill a database: `import`, `migrate`, `merge`.

ghost use Rattle.std.specs.Prelude.{◌≡◌, false, IfOk, IfSome, codes};
ghost use Rattle.clap.specs.Words.{app_of, found_of, one_of, rows_of, rule_of};
ghost use Rattle.clap.specs.declared.builder.command.Command.TheViews.{out-Command as fields_of};
ghost use Rattle.pbfrow_words.specs.Filling as definitions;
ghost use Rattle.pbfrow_words.specs.Filling.{IsEnd, IsStart, begins_at};

use crate::arguments::{
    database, file, flag, new_command, number_of, offset_option, required_argument,
    required_arguments, with_argument, with_command,
};
use clap::{Arg, ArgMatches, Command};
use std::alloc::{AllocError, Global};

/// Where an import begins, in bytes, at most 2^62.
#[derive(Clone, Copy, Debug, PartialEq, Eq)]
pub enum Start {
    /// The input is the whole file, and so many bytes at its front are read and dropped.
    Skip(u64),
    /// The input begins at this offset of the file, and nothing of it is dropped.
    At(u64),
}

const IMPORT_HELP: &str =
    "The database is made if it is missing or empty. Prints 'OFFSET stored COUNT' for
each blob, 'OFFSET held' if it is held already, or the line of its fault; after
a bad or refused blob it goes on with the next. At the end of the input it prints
'blobs stored S held H bad B refused R'. With --quiet a blob that is stored or
held already gets no line.

A blob is stored whole or not at all, even if the run is killed or the machine
stops: run the same import again to complete it. Blobs may come in any order,
over any number of runs.

With --from the import begins behind the first N bytes of FILE, where a blob has
to begin; they are dropped, and if FILE isn't a pipe only the last of them is
read. With --at nothing is dropped: FILE is a part that begins with a blob, at
offset N of the whole.
With --to it reads no byte at or after offset N of the whole, and an input that
ends before N is 'fault 68 ReadFailed' at the offset where it ended. So exit
status 0 says that every byte from the start to N is in a blob that is held,
even if FILE is a pipe whose first command may fail. 'pbfrow ranges' cuts a file
into such parts.

Exit status: 0 if all blobs are held, and the input reached N of --to, else 1.

Examples:
  pbfrow import berlin-raw.osm.pbf berlin.db
  pbfrow import berlin-raw.osm.pbf part.db --from 1048576 --to 2097152
  curl -r 1048576-2097151 https://example.org/berlin-raw.osm.pbf |
    pbfrow import /dev/stdin part.db --at 1048576 --to 2097152";

const MIGRATE_HELP: &str =
    "OLD is a database that an earlier pbfrow made, which this one answers with
'fault 66 NotThisStore'. Its blobs are copied into NEW, which is made if it is
missing or empty. What NEW holds already stays, and OLD is only read. Prints
'copied N held H': how many blobs were added to NEW, and how many it held
already; or the line of the fault at which the copy stopped. Run the same
command again to complete a copy that was broken off.

Exit status: 0 if NEW holds all blobs of OLD, else 1.

Example:
  pbfrow migrate berlin-old.db berlin.db";

const MERGE_HELP: &str =
    "Each FROM is a database that holds blobs of the same file, such as one that
another machine has filled with a part of it. One that an earlier pbfrow made
is refused: copy it by migrate first. The blobs of each are copied into INTO,
which is made if it is missing or empty. What INTO holds already stays, and each
FROM is only read. Prints 'copied N held H' for each FROM: how many blobs were
added to INTO, and how many it held already; and last 'blobs copied N held H'.
The line of a fault ends the merge: run the same command again to complete it.

Exit status: 0 if INTO holds all blobs of each FROM, else 1.

Example:
  pbfrow merge berlin.db part-1.db part-2.db";

/// The option `--at`, which can't be used with `--from`.
fn at_option<'a>(alloc: Global) -> Result<Arg<'a>, AllocError>
    ensures rule { IfOk result (λ a. rule_of a ≡ definitions.at_option) }
    ensures local { IfOk result (λ a. a.global ≡ false) }
{
    offset_option(alloc, "at", "Offset at which FILE begins, in bytes").conflicts_with("from")
}

fn import_command<'a>(alloc: Global) -> Result<Command<'a>, AllocError>
    ensures shape { IfOk result (λ c. app_of c ≡ definitions.import_command) }
    ensures local { IfOk result (λ c. (fields_of c).has_globals ≡ false) }
{
    let command = new_command(
        alloc,
        "import",
        "Import the blobs of a PBF file into a database",
        IMPORT_HELP,
    );
    let command = with_argument(command, file(alloc))?;
    let command = with_argument(command, database(alloc))?;
    let from = offset_option(alloc, "from", "Start offset in FILE, in bytes");
    let command = with_argument(command, from)?;
    let command = with_argument(command, at_option(alloc)?)?;
    let to = offset_option(
        alloc,
        "to",
        "Offset at which the input has to end, in bytes",
    );
    let command = with_argument(command, to)?;
    let quiet = flag(alloc, "quiet", "Print no line for a blob stored or held");
    with_argument(command, quiet)
}

/// Where an import begins by its options. None if a number is above 2^62, or if clap let through both options.
pub(crate) fn start_of(matches: &ArgMatches) -> Option<Start>
    ensures { IfSome result (λ start. IsStart start (one_of (codes "from") (rows_of (found_of matches.now))) (one_of (codes "at") (rows_of (found_of matches.now)))) }
{
    match (number_of(matches, "from")?, number_of(matches, "at")?) {
        (None, None) => Some(Start::Skip(0)),
        (Some(from), None) => Some(Start::Skip(from)),
        (None, Some(at)) => Some(Start::At(at)),
        (Some(_), Some(_)) => None,
    }
}

/// The offset in the file at which an import begins.
fn offset_of(start: Start) -> u64
    ensures { result ≡ begins_at start }
{
    match start {
        Start::Skip(count) => count,
        Start::At(at) => at,
    }
}

/// The offset at which the input of an import has to end, `Some(None)` if none is given, and none if it isn't behind the
/// start or is above 2^62.
pub(crate) fn end_of(matches: &ArgMatches, start: Start) -> Option<Option<u64>>
    ensures { IfSome result (λ to. IsEnd start to (one_of (codes "to") (rows_of (found_of matches.now)))) }
{
    match number_of(matches, "to")? {
        Some(to) if to > offset_of(start) => Some(Some(to)),
        Some(_) => None,
        None => Some(None),
    }
}

fn migrate_command<'a>(alloc: Global) -> Result<Command<'a>, AllocError>
    ensures shape { IfOk result (λ c. app_of c ≡ definitions.migrate_command) }
    ensures local { IfOk result (λ c. (fields_of c).has_globals ≡ false) }
{
    let command = new_command(
        alloc,
        "migrate",
        "Copy the blobs of an older database into a database",
        MIGRATE_HELP,
    );
    let old = required_argument(alloc, "OLD", "Database file of an earlier pbfrow");
    let command = with_argument(command, old)?;
    let new = required_argument(alloc, "NEW", "Database file");
    with_argument(command, new)
}

fn merge_command<'a>(alloc: Global) -> Result<Command<'a>, AllocError>
    ensures shape { IfOk result (λ c. app_of c ≡ definitions.merge_command) }
    ensures local { IfOk result (λ c. (fields_of c).has_globals ≡ false) }
{
    let command = new_command(
        alloc,
        "merge",
        "Copy the blobs of databases of one file into a database",
        MERGE_HELP,
    );
    let into = required_argument(alloc, "INTO", "Database file");
    let command = with_argument(command, into)?;
    let from = required_arguments(alloc, "FROM", "Database files to copy from");
    with_argument(command, from)
}

pub(crate) fn with_filling_commands<'a>(
    alloc: Global,
    command: Command<'a>,
) -> Result<Command<'a>, AllocError>
    requires { (fields_of command).has_globals ≡ false }
    ensures shape { IfOk result (λ c. app_of c ≡ definitions.with_filling_commands (app_of command.entry)) }
    ensures local { IfOk result (λ c. (fields_of c).has_globals ≡ false) }
{
    let command = with_command(command, import_command(alloc)?)?;
    let command = with_command(command, migrate_command(alloc)?)?;
    with_command(command, merge_command(alloc)?)
}
