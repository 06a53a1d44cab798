//! The commands that ask a database: `status`, `export`, `find`.

ghost use Rattle.std.specs.Prelude.{◌≡◌, false, IfOk, IfSome, codes};
ghost use Rattle.clap.specs.Words.{app_of, first_of, found_of, rows_of, rule_of};
ghost use Rattle.clap.specs.declared.builder.command.Command.TheViews.{out-Command as fields_of};
ghost use Rattle.pbfrow_words.specs.Arguments.{offset_option};
ghost use Rattle.pbfrow_words.specs.Asking as definitions;
ghost use Rattle.pbfrow_words.specs.Asking.{Asks, IsElementOf, IsForm};

use crate::arguments::{
    database, databases, flag, flag_of, new_command, number_of, offset_option, required_argument,
    text_of, with_argument, with_command,
};
use crate::element::read_element;
use clap::{Arg, ArgMatches, Command};
use osm_value::{Form, MemberKind};
use std::alloc::{AllocError, Global};

/// What is asked of a database, or of several that hold parts of one file. A `size` is that of the whole PBF file in
/// bytes, at most 2^62.
#[derive(Clone, Copy, Debug, PartialEq, Eq)]
pub enum Question {
    Status {
        size: Option<u64>,
    },
    /// What `Status` asks, and the counts of the elements.
    Counts {
        size: Option<u64>,
    },
    Export {
        size: Option<u64>,
        /// Whether what is held is written even if blobs are missing.
        partial: bool,
        form: Form,
    },
}

const STATUS_HELP: &str =
    "Prints 'gap FROM TO' for each byte range of the file that no held blob covers,
and last 'blobs B end N gaps G'. Without --size, blobs that are missing at the
end of the file go unnoticed.

With --counts three more lines follow: 'nodes N ways W relations R', 'tags T links
L' (links are the nodes of ways and the members of relations), and 'oldest TIME
newest TIME', in milliseconds since 1970, or - for both if no element has a time.
All elements are read for this.

Several databases that hold blobs of one file, in any order, are read one after
the other, as if one held all of it; a blob that several hold counts once. They
may not hold different blobs at one offset (fault 63), nor blobs that overlap
(fault 64). If their blobs are too interleaved (fault 71), merge them first.

Exit status: 0 if the databases were read, else 1.

Examples:
  pbfrow status berlin.db --size 73400320
  pbfrow status berlin.db --counts
  pbfrow status part-1.db part-2.db";

const EXPORT_HELP: &str =
    "Writes the elements of all held blobs to standard output, in the order of the
file. Nothing is written if a blob is missing (fault 67) or ends past --size
(fault 70). Without --size, blobs that are missing at the end of the file go
unnoticed.

Several databases that hold blobs of one file, in any order, are read one after
the other, as if one held all of it: each of them once, and once more for each run
of its blobs that no blob of another interrupts. Faults 63, 64 and 71 are those of
status.

Exit status: 0 if all was written, else 1.

Examples:
  pbfrow export berlin.db --size 73400320
  pbfrow export berlin.db --form pbf > berlin-out.osm.pbf
  pbfrow export part-1.db part-2.db --form pbf > berlin-out.osm.pbf";

const FIND_HELP: &str =
    "Prints 'OFFSET POSITION LINE' for each time that the element is held: the offset
of its blob, its position in the blob from 0, and its line.

Exit status: 0 if the database was read, even if nothing was found, else 1.

Examples:
  pbfrow find berlin.db n240090160
  pbfrow find berlin.db w-2";

fn form_option<'a>(alloc: Global) -> Arg<'a>
    ensures rule { rule_of result ≡ definitions.form_option }
    ensures local { result.global ≡ false }
{
    Arg::new(alloc, "form")
        .long("form")
        .value_name("FORM")
        .default_value("lines")
        .help("Output format: lines or pbf")
}

fn size_option<'a>(alloc: Global) -> Arg<'a>
    ensures rule { rule_of result ≡ offset_option (codes "size") }
    ensures local { result.global ≡ false }
{
    offset_option(alloc, "size", "Size of the whole PBF file in bytes")
}

fn counts_flag<'a>(alloc: Global) -> Arg<'a>
    ensures rule { rule_of result ≡ definitions.counts_flag }
    ensures local { result.global ≡ false }
{
    flag(
        alloc,
        "counts",
        "Count the elements, their tags and links too, and tell their times",
    )
}

fn status_command<'a>(alloc: Global) -> Result<Command<'a>, AllocError>
    ensures shape { IfOk result (λ c. app_of c ≡ definitions.status_command) }
    ensures local { IfOk result (λ c. (fields_of c).has_globals ≡ false) }
{
    let command = new_command(
        alloc,
        "status",
        "List the byte ranges missing from a database",
        STATUS_HELP,
    );
    let command = with_argument(command, databases(alloc))?;
    let command = with_argument(command, size_option(alloc))?;
    with_argument(command, counts_flag(alloc))
}

fn with_export_choices<'a>(alloc: Global, command: Command<'a>) -> Result<Command<'a>, AllocError>
    requires { (fields_of command).has_globals ≡ false }
    ensures shape { IfOk result (λ c. app_of c ≡ definitions.with_export_choices (app_of command.entry)) }
    ensures local { IfOk result (λ c. (fields_of c).has_globals ≡ false) }
{
    let partial = flag(
        alloc,
        "partial",
        "Export what is held even if blobs are missing",
    );
    let command = with_argument(command, partial)?;
    with_argument(command, form_option(alloc))
}

fn export_command<'a>(alloc: Global) -> Result<Command<'a>, AllocError>
    ensures shape { IfOk result (λ c. app_of c ≡ definitions.export_command) }
    ensures local { IfOk result (λ c. (fields_of c).has_globals ≡ false) }
{
    let command = new_command(
        alloc,
        "export",
        "Write the elements held in a database",
        EXPORT_HELP,
    );
    let command = with_argument(command, databases(alloc))?;
    let command = with_argument(command, size_option(alloc))?;
    with_export_choices(alloc, command)
}

fn find_command<'a>(alloc: Global) -> Result<Command<'a>, AllocError>
    ensures shape { IfOk result (λ c. app_of c ≡ definitions.find_command) }
    ensures local { IfOk result (λ c. (fields_of c).has_globals ≡ false) }
{
    let command = new_command(alloc, "find", "Find an element in a database", FIND_HELP);
    let command = with_argument(command, database(alloc))?;
    let element = required_argument(
        alloc,
        "ELEMENT",
        "Element: n, w or r followed by an id, such as w-2",
    );
    with_argument(command, element)
}

pub(crate) fn with_asking_commands<'a>(
    alloc: Global,
    command: Command<'a>,
) -> Result<Command<'a>, AllocError>
    requires { (fields_of command).has_globals ≡ false }
    ensures shape { IfOk result (λ c. app_of c ≡ definitions.with_asking_commands (app_of command.entry)) }
    ensures local { IfOk result (λ c. (fields_of c).has_globals ≡ false) }
{
    let command = with_command(command, status_command(alloc)?)?;
    let command = with_command(command, export_command(alloc)?)?;
    with_command(command, find_command(alloc)?)
}

fn form_of(matches: &ArgMatches, id: &str) -> Option<Form>
    ensures { IfSome result (λ form. IsForm form (first_of id.now (rows_of (found_of matches.now)))) }
{
    let form = text_of(matches, id)?;
    if form == "lines" {
        Some(Form::Lines)
    } else if form == "pbf" {
        Some(Form::Pbf)
    } else {
        None
    }
}

fn status_of(matches: &ArgMatches) -> Option<Question>
    ensures { IfSome result (λ q. Asks q (codes "status") (rows_of (found_of matches.now))) }
{
    let size = number_of(matches, "size")?;
    if flag_of(matches, "counts") {
        Some(Question::Counts { size })
    } else {
        Some(Question::Status { size })
    }
}

fn export_of(matches: &ArgMatches) -> Option<Question>
    ensures { IfSome result (λ q. Asks q (codes "export") (rows_of (found_of matches.now))) }
{
    Some(Question::Export {
        size: number_of(matches, "size")?,
        partial: flag_of(matches, "partial"),
        form: form_of(matches, "form")?,
    })
}

/// The kind and the id of the element that is to be found.
pub(crate) fn element_of(matches: &ArgMatches) -> Option<(MemberKind, i64)>
    ensures { IfSome result (λ e. IsElementOf e.0 e.1 (first_of (codes "ELEMENT") (rows_of (found_of matches.now)))) }
{
    read_element(text_of(matches, "ELEMENT")?)
}

/// The question that the command of this name asks.
pub(crate) fn question_of(name: &str, matches: &ArgMatches) -> Option<Question>
    ensures { IfSome result (λ q. Asks q name.now (rows_of (found_of matches.now))) }
{
    match name {
        "status" => status_of(matches),
        "export" => export_of(matches),
        _ => None,
    }
}
