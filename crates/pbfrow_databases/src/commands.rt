//! What each command of the program calls.

ghost use Rattle.std.specs.Prelude.{◌≤◌};
ghost use Rattle.pbfrow_words.specs.Words.{BeginsWithin, CutsSome, EndsWithin};

use crate::copying::copy;
use crate::database::{Part, ask, fill};
use crate::merging::merge;
use crate::parts::ask_parts;
use crate::questions::Query;
use crate::starting::{depth_of, start_of, told_of};
use crate::verifying::compare_all;
use osm_databases::databases::{CheckedDatabases, Databases};
use pbfrow_terminal::reading::{cut_file, read_file};
use pbfrow_words::Words;

/// Runs a command over the databases of a program, and answers the exit status. Those that are only asked are `asked`, those
/// that are filled `filled`, and those that others are merged into `merged`.
pub fn run<A: CheckedDatabases, D: Databases>(
    rt: &HostRuntime,
    asked: &A,
    filled: &D,
    merged: &D,
    words: Words,
) -> u8
    requires begins { BeginsWithin words }
    requires ends { EndsWithin words }
    requires cuts { CutsSome words }
    ensures { result ≤ 1 }
{
    match words {
        Words::Read { reading, file } => read_file(rt, reading, file),
        Words::Ranges { file, count } => cut_file(rt, file, count),
        Words::Import {
            file,
            database,
            start,
            to,
            quiet,
        } => {
            let start = start_of(start);
            let part = Part { start, to };
            fill(rt, filled, file, database, part, told_of(quiet))
        }
        Words::Migrate { old, new } => copy(rt, asked, filled, old, new),
        Words::Merge { into, from } => merge(rt, asked, merged, into, from.as_slice()),
        Words::Verify {
            file,
            databases,
            elements,
        } => compare_all(rt, asked, file, databases.as_slice(), depth_of(elements)),
        Words::Ask {
            databases,
            question,
        } => {
            if databases.len() == 1 {
                ask(rt, asked, databases[0], Query::Whole(question))
            } else {
                ask_parts(rt, asked, databases.as_slice(), question)
            }
        }
        Words::Find { database, kind, id } => { ask(rt, asked, database, Query::Element(kind, id)) }
    }
}
