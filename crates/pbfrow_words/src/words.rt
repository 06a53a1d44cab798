//! The command that the arguments of the program name, with its own arguments.

ghost use Rattle.std.specs.Prelude.{◌≡◌, false, IfOk, IfSome, IsSomeAnd, map, codes};
ghost use Rattle.clap.specs.Words.{app_of, found_of, rows_of, subcommand_of, subcommand_rows_of};
ghost use Rattle.clap.specs.declared.builder.command.Command.TheViews.{out-Command as fields_of};
ghost use Rattle.pbfrow_words.specs.Words.{BeginsWithin, CutsSome, EndsWithin, Says, program};

use crate::arguments::{flag_of, text_of, texts_of};
use crate::asking::{Question, element_of, question_of, with_asking_commands};
use crate::filling::{Start, end_of, start_of, with_filling_commands};
use crate::ranges::{count_of, with_ranges};
use crate::reading::{Reading, reading_of, with_reading_commands};
use crate::verifying::with_verify;
use clap::error::ErrorKind;
use clap::{ArgMatches, Command, Error};
use osm_value::MemberKind;
use std::alloc::{AllocError, Global};

/// The message for an invalid ELEMENT or FORM, which clap takes for plain text, and for an end that isn't behind the start.
const UNREADABLE: &str =
    "ELEMENT must be n, w or r followed by an id, such as w-2, FORM must be lines or pbf, and --to must be above the start";

/// A command with its arguments. A `file`, a `database`, each of `databases`, and those that are `old` and `new`, `into` and `from`, are paths.
#[derive(Debug, Drop, PartialEq, Eq)]
pub enum Words<'a> {
    Read {
        reading: Reading,
        /// Without one, standard input is read.
        file: Option<&'a str>,
    },
    /// `file` is to be cut into ranges.
    Ranges {
        file: &'a str,
        /// How many at most: 1 to 4,294,967,295.
        count: u64,
    },
    Import {
        file: &'a str,
        database: &'a str,
        start: Start,
        /// The offset at which the input has to end, above that of the start and at most 2^62.
        to: Option<u64>,
        /// Whether a blob that is stored or held gets no line.
        quiet: bool,
    },
    Migrate {
        old: &'a str,
        new: &'a str,
    },
    Merge {
        into: &'a str,
        /// One at least, in the order that they were given.
        from: Vec<&'a str>,
    },
    Verify {
        file: &'a str,
        /// One at least, in the order that they were given.
        databases: Vec<&'a str>,
        /// Whether the elements of each blob are compared, too.
        elements: bool,
    },
    Ask {
        /// One at least, in the order that they were given.
        databases: Vec<&'a str>,
        question: Question,
    },
    /// The element of this kind and id, as `read_element` reads it.
    Find {
        database: &'a str,
        kind: MemberKind,
        id: i64,
    },
}

const PROGRAM_HELP: &str =
    "A fault is a line 'fault NUMBER NAME at OFFSET' on standard output, OFFSET being
that of the frame.

Blobs have to be stored raw; osmium rewrites an extract:
  osmium cat FILE -f pbf,pbf_compression=none -o RAW

Exit status: 0 if all went well, 1 if a fault was printed, verify found a
difference or the output couldn't be written, 2 for invalid arguments.

Examples:
  pbfrow check berlin-raw.osm.pbf
  pbfrow import berlin-raw.osm.pbf berlin.db
  pbfrow export berlin.db";

/// The program with its commands.
fn program<'a>(alloc: Global) -> Result<Command<'a>, AllocError>
    ensures shape { IfOk result (λ c. app_of c ≡ program) }
    ensures local { IfOk result (λ c. (fields_of c).has_globals ≡ false) }
{
    let program = Command::new(alloc, "pbfrow")
        .version("0.1.0")
        .about("Read, check and import OpenStreetMap PBF files with raw blobs")
        .after_help(PROGRAM_HELP)
        .subcommand_required(true);
    let program = with_reading_commands(alloc, program)?;
    let program = with_ranges(alloc, program)?;
    let program = with_filling_commands(alloc, program)?;
    let program = with_verify(alloc, program)?;
    with_asking_commands(alloc, program)
}

fn ranges_of<'a>(matches: &ArgMatches<'a>) -> Option<Words<'a>>
    ensures { IfSome result (λ w. Says w (codes "ranges") (rows_of (found_of matches.now))) }
{
    Some(Words::Ranges {
        file: text_of(matches, "FILE")?,
        count: count_of(matches)?,
    })
}

fn import_of<'a>(matches: &ArgMatches<'a>) -> Option<Words<'a>>
    ensures { IfSome result (λ w. Says w (codes "import") (rows_of (found_of matches.now))) }
{
    let start = start_of(matches)?;
    Some(Words::Import {
        file: text_of(matches, "FILE")?,
        database: text_of(matches, "DB")?,
        start,
        to: end_of(matches, start)?,
        quiet: flag_of(matches, "quiet"),
    })
}

fn migrate_of<'a>(matches: &ArgMatches<'a>) -> Option<Words<'a>>
    ensures { IfSome result (λ w. Says w (codes "migrate") (rows_of (found_of matches.now))) }
{
    Some(Words::Migrate {
        old: text_of(matches, "OLD")?,
        new: text_of(matches, "NEW")?,
    })
}

/// The words of a verify. None are given only if clap let through words without them.
fn verify_of<'a>(alloc: Global, matches: &ArgMatches<'a>) -> Result<Option<Words<'a>>, AllocError>
    ensures { IfOk result (λ o. IfSome o (λ w. Says w (codes "verify") (rows_of (found_of matches.now)))) }
{
    let (Some(file), Some(texts)) = (text_of(matches, "FILE"), texts_of(matches, "DB")) else {
        return Ok(None);
    };
    let mut databases = Vec::new(alloc);
    databases.extend_from_slice(texts)?;
    Ok(Some(Words::Verify {
        file,
        databases,
        elements: flag_of(matches, "elements"),
    }))
}

/// The words of a merge. None are given only if clap let through words without them.
fn merge_of<'a>(alloc: Global, matches: &ArgMatches<'a>) -> Result<Option<Words<'a>>, AllocError>
    ensures { IfOk result (λ o. IfSome o (λ w. Says w (codes "merge") (rows_of (found_of matches.now)))) }
{
    let (Some(into), Some(texts)) = (text_of(matches, "INTO"), texts_of(matches, "FROM")) else {
        return Ok(None);
    };
    let mut from = Vec::new(alloc);
    from.extend_from_slice(texts)?;
    Ok(Some(Words::Merge { into, from }))
}

/// The words of a question. None are given where there is no such command or one of its arguments can't be read.
fn ask_of<'a>(
    alloc: Global,
    name: &str,
    matches: &ArgMatches<'a>,
) -> Result<Option<Words<'a>>, AllocError>
    ensures { IfOk result (λ o. IfSome o (λ w. Says w name.now (rows_of (found_of matches.now)))) }
{
    let (Some(question), Some(texts)) = (question_of(name, matches), texts_of(matches, "DB")) else {
        return Ok(None);
    };
    let mut databases = Vec::new(alloc);
    databases.extend_from_slice(texts)?;
    Ok(Some(Words::Ask {
        databases,
        question,
    }))
}

fn find_of<'a>(matches: &ArgMatches<'a>) -> Option<Words<'a>>
    ensures { IfSome result (λ w. Says w (codes "find") (rows_of (found_of matches.now))) }
{
    let (kind, id) = element_of(matches)?;
    Some(Words::Find {
        database: text_of(matches, "DB")?,
        kind,
        id,
    })
}

/// The command of this name, if it takes no list of names.
fn simple_words_of<'a>(name: &str, matches: &ArgMatches<'a>) -> Option<Words<'a>>
    ensures { IfSome result (λ w. Says w name.now (rows_of (found_of matches.now))) }
{
    if let Some(reading) = reading_of(name) {
        return Some(Words::Read {
            reading,
            file: text_of(matches, "FILE"),
        });
    }
    match name {
        "ranges" => ranges_of(matches),
        "import" => import_of(matches),
        "migrate" => migrate_of(matches),
        "find" => find_of(matches),
        _ => None,
    }
}

/// The command of this name with its arguments.
fn words_of<'a>(
    alloc: Global,
    name: &str,
    matches: &ArgMatches<'a>,
) -> Result<Option<Words<'a>>, AllocError>
    ensures { IfOk result (λ o. IfSome o (λ w. Says w name.now (rows_of (found_of matches.now)))) }
{
    if name == "merge" {
        return merge_of(alloc, matches);
    }
    if name == "verify" {
        return verify_of(alloc, matches);
    }
    match simple_words_of(name, matches) {
        Some(words) => Ok(Some(words)),
        None => ask_of(alloc, name, matches),
    }
}

/// The command that the matches name, with its arguments.
fn entered_words<'a>(
    alloc: Global,
    matches: &ArgMatches<'a>,
) -> Result<Option<Words<'a>>, AllocError>
    ensures { IfOk result (λ o. IfSome o (λ w. IsSomeAnd (subcommand_rows_of matches.now) (λ p. Says w p.0 p.1))) }
{
    match matches.subcommand() {
        Some((name, inner)) => words_of(alloc, name, inner),
        None => Ok(None),
    }
}

/// The command that the words name, with its arguments. The first word is the program's name and is ignored. An error
/// is what `clap` makes of the others: the help or the version that they ask for, why they are invalid, or that memory
/// was refused.
pub fn read_words<'a>(alloc: Global, words: &'a [&'a str]) -> Result<Words<'a>, Error>
    ensures named { IfOk result (λ w. IsSomeAnd (subcommand_of program (map (λ s. s.now) words.entry.now)) (λ p. Says w p.0 p.1)) }
    ensures within { IfOk result BeginsWithin }
    ensures ends { IfOk result EndsWithin }
    ensures some { IfOk result CutsSome }
{
    let mut command = program(alloc)?;
    let matches = command.try_get_matches_from_mut(words)?;
    let entered = entered_words(alloc, &matches)?;
    match entered {
        Some(words) => Ok(words),
        None => Err(command.error(ErrorKind::ValueValidation, UNREADABLE)?),
    }
}
