//! The command that cuts a PBF file into ranges: `ranges`.

ghost use Rattle.std.specs.Prelude.{◌≡◌, false, IfOk, IfSome, codes};
ghost use Rattle.clap.specs.Words.{app_of, found_of, one_of, rows_of, rule_of};
ghost use Rattle.clap.specs.declared.builder.command.Command.TheViews.{out-Command as fields_of};
ghost use Rattle.pbfrow_words.specs.Ranges as definitions;
ghost use Rattle.pbfrow_words.specs.Ranges.{IsCount};

use crate::arguments::{
    file, new_command, number_of, required_argument, with_argument, with_command,
};
use clap::builder::ValueParser;
use clap::{Arg, ArgMatches, Command};
use std::alloc::{AllocError, Global};

/// The most ranges that a file is cut into.
const MAX_RANGES: u64 = 4_294_967_295;

const RANGES_HELP: &str =
    "Prints a line 'FROM TO' for each range: its first offset, and the offset after
its last byte. The ranges follow one another from 0 to the end of FILE, begin and
end between two frames, and are of about equal length: without its last frame,
each is shorter than the Nth part of FILE. There are N of them if no frame is
longer than that, and otherwise there may be fewer. If there is a frame fault,
only its line is printed.

Exit status: 0 if the whole file is frames, else 1.

Example, on four processors:
  pbfrow ranges berlin-raw.osm.pbf 4 | xargs -P 4 -L 1 sh -c \\
    'pbfrow import berlin-raw.osm.pbf part-$0.db --from $0 --to $1'";

fn count_argument<'a>(alloc: Global) -> Arg<'a>
    ensures rule { rule_of result ≡ definitions.count_argument }
    ensures local { result.global ≡ false }
{
    required_argument(alloc, "N", "How many ranges at most").value_parser(ValueParser::unsigned(
        1, MAX_RANGES,
    ))
}

fn ranges_command<'a>(alloc: Global) -> Result<Command<'a>, AllocError>
    ensures shape { IfOk result (λ c. app_of c ≡ definitions.ranges_command) }
    ensures local { IfOk result (λ c. (fields_of c).has_globals ≡ false) }
{
    let count = count_argument(alloc);
    let command = new_command(
        alloc,
        "ranges",
        "Cut a PBF file into ranges of about equal length",
        RANGES_HELP,
    );
    let command = with_argument(command, file(alloc))?;
    with_argument(command, count)
}

pub(crate) fn with_ranges<'a>(
    alloc: Global,
    command: Command<'a>,
) -> Result<Command<'a>, AllocError>
    requires { (fields_of command).has_globals ≡ false }
    ensures shape { IfOk result (λ c. app_of c ≡ definitions.with_ranges (app_of command.entry)) }
    ensures local { IfOk result (λ c. (fields_of c).has_globals ≡ false) }
{
    let ranges = ranges_command(alloc)?;
    with_command(command, ranges)
}

/// How many ranges there are to be. None only if clap let through another number.
pub(crate) fn count_of(matches: &ArgMatches) -> Option<u64>
    ensures { IfSome result (λ count. IsCount count (one_of (codes "N") (rows_of (found_of matches.now)))) }
{
    match number_of(matches, "N")? {
        Some(count) if count >= 1 && count <= MAX_RANGES => Some(count),
        _ => None,
    }
}
