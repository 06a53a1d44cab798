//! The command that compares a PBF file and databases: `verify`.

ghost use Rattle.std.specs.Prelude.{◌≡◌, false, IfOk};
ghost use Rattle.clap.specs.Words.{app_of};
ghost use Rattle.clap.specs.declared.builder.command.Command.TheViews.{out-Command as fields_of};
ghost use Rattle.pbfrow_words.specs.Verifying as definitions;

use crate::arguments::{databases, file, flag, new_command, with_argument, with_command};
use clap::Command;
use std::alloc::{AllocError, Global};

const VERIFY_HELP: &str =
    "Prints, in the order of their offsets, the line of its fault for each bad blob of
FILE, 'missing OFFSET' for a blob that DB doesn't hold, 'differs OFFSET' for one
in whose place DB holds another, and 'extra OFFSET' for each blob of DB that
begins where FILE has no good blob; and last 'blobs B missing M differs D
extra E', B being how many blobs FILE has.

Blobs are compared by their ends, digests, types and counts of elements, as they
were recorded in DB when they were stored. With --elements, the elements of FILE
are also compared with the rows of DB, which finds rows that were changed since.

Several databases that hold parts of FILE are verified as one: 'differs OFFSET'
and 'extra OFFSET' for the blobs of each in turn, then 'gap FROM TO' for each byte
range that none of them covers, and last 'blobs B gaps G differs D extra E', B
being how many blobs they hold together. Faults 63, 64 and 71 are those of
status. FILE is read at the offsets of their blobs, so it can't be a pipe.

Exit status: 0 if all blobs of FILE are good and the databases hold these and no
others, else 1.

Examples:
  pbfrow verify berlin-raw.osm.pbf berlin.db
  pbfrow verify berlin-raw.osm.pbf berlin.db --elements
  pbfrow verify berlin-raw.osm.pbf part-1.db part-2.db";

fn verify_command<'a>(alloc: Global) -> Result<Command<'a>, AllocError>
    ensures shape { IfOk result (λ c. app_of c ≡ definitions.verify_command) }
    ensures local { IfOk result (λ c. (fields_of c).has_globals ≡ false) }
{
    let command = new_command(
        alloc,
        "verify",
        "Compare databases with a PBF file",
        VERIFY_HELP,
    );
    let command = with_argument(command, file(alloc))?;
    let command = with_argument(command, databases(alloc))?;
    let elements = flag(alloc, "elements", "Compare the elements as well");
    with_argument(command, elements)
}

pub(crate) fn with_verify<'a>(
    alloc: Global,
    command: Command<'a>,
) -> Result<Command<'a>, AllocError>
    requires { (fields_of command).has_globals ≡ false }
    ensures shape { IfOk result (λ c. app_of c ≡ definitions.with_verify (app_of command.entry)) }
    ensures local { IfOk result (λ c. (fields_of c).has_globals ≡ false) }
{
    let verify = verify_command(alloc)?;
    with_command(command, verify)
}
