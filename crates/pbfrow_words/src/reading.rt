//! The commands that read a PBF file and nothing else.

ghost use Rattle.std.specs.Prelude.{◌≡◌, false, IfOk, IfSome};
ghost use Rattle.clap.specs.Words.{app_of};
ghost use Rattle.clap.specs.declared.builder.command.Command.TheViews.{out-Command as fields_of};
ghost use Rattle.pbfrow_words.specs.Reading as definitions;
ghost use Rattle.pbfrow_words.specs.Reading.{Reads};

use crate::arguments::{new_command, optional_argument, with_argument, with_command};
use clap::Command;
use std::alloc::{AllocError, Global};

/// A command that reads a PBF file and nothing else.
#[derive(Clone, Copy, Debug, PartialEq, Eq)]
pub enum Reading {
    List,
    Check,
    Show,
}

const LIST_HELP: &str =
    "Prints a line 'OFFSET TYPE DATASIZE' for each frame, up to the line of a frame
fault. DATASIZE is the length of the blob alone. In a type, each byte below 33 or
above 126, and %, is written as % and two upper-case hexadecimal digits.

Exit status: 0 if the whole file is frames, else 1.

Examples:
  pbfrow list berlin-raw.osm.pbf
  pbfrow list < berlin-raw.osm.pbf";

const CHECK_HELP: &str =
    "Prints the line of its fault for each bad blob, up to a frame fault, and last
'blobs B nodes N ways W relations R faults F'. An empty input is fault 61.

Exit status: 0 if there is no fault, else 1.

Example:
  pbfrow check berlin-raw.osm.pbf";

const SHOW_HELP: &str =
    "Prints a line 'blob OFFSET TYPE LENGTH' for each blob, and after it the lines of
its header block, of its elements or of its fault. LENGTH is that of the whole
frame, so the next frame begins at OFFSET + LENGTH. A header block has these
lines, each if the field is there: 'bbox LEFT RIGHT TOP BOTTOM' in nanodegrees,
required, optional, program, source, replication-timestamp,
replication-sequence, replication-url.

Exit status: 0 if there is no fault, else 1.

Example:
  pbfrow show berlin-raw.osm.pbf | grep highway=";

fn reading_command<'a>(
    alloc: Global,
    name: &'a str,
    about: &'a str,
    help: &'a str,
) -> Result<Command<'a>, AllocError>
    ensures shape { IfOk result (λ c. app_of c ≡ definitions.reading_command name.entry.now) }
    ensures local { IfOk result (λ c. (fields_of c).has_globals ≡ false) }
{
    let file = optional_argument(alloc, "FILE", "PBF file (default: standard input)");
    with_argument(new_command(alloc, name, about, help), file)
}

pub(crate) fn with_reading_commands<'a>(
    alloc: Global,
    command: Command<'a>,
) -> Result<Command<'a>, AllocError>
    requires { (fields_of command).has_globals ≡ false }
    ensures shape { IfOk result (λ c. app_of c ≡ definitions.with_reading_commands (app_of command.entry)) }
    ensures local { IfOk result (λ c. (fields_of c).has_globals ≡ false) }
{
    let list = reading_command(alloc, "list", "List the frames of a PBF file", LIST_HELP)?;
    let command = with_command(command, list)?;
    let check = reading_command(alloc, "check", "Check the blobs of a PBF file", CHECK_HELP)?;
    let command = with_command(command, check)?;
    let show = reading_command(alloc, "show", "Print the contents of a PBF file", SHOW_HELP)?;
    with_command(command, show)
}

/// The command of this name.
pub(crate) fn reading_of(name: &str) -> Option<Reading>
    ensures { IfSome result (λ reading. Reads reading name.now) }
{
    match name {
        "list" => Some(Reading::List),
        "check" => Some(Reading::Check),
        "show" => Some(Reading::Show),
        _ => None,
    }
}
