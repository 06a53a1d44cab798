//! The program pbfrow: lists, checks and shows OpenStreetMap PBF files, imports them into a database, and exports and
//! finds what that holds.
#![tactic(auto)]

ghost use Rattle.std.specs.Prelude.{◌≤◌};

use osm_databases::databases::Databases;
use osm_databases::files::{AskedFiles, FilledFiles};
use osm_databases::trees::{FEW_PAGES, MANY_PAGES};
use pbfrow_databases::commands::run;
use pbfrow_terminal::entry::{command_of, given_words, texts_of};
use std::process::ExitCode;

fn main(rt: HostRuntime) -> ExitCode {
    let filled = FilledFiles { pages: MANY_PAGES };
    // a merge also holds the rows of a blob that it reads, and its elements
    let merged = FilledFiles { pages: FEW_PAGES };
    ExitCode::from(run_given(&rt, &filled, &merged))
}

/// Runs the command that the program was started with, over databases of which some are filled, and others merged into. The exit
/// status is that of the command, 2 where the words name none, and 1 where they can't be read or what they ask for can't be
/// written. The databases are a parameter, since a call that names two kinds of files takes the prover too many steps.
fn run_given<D: Databases>(rt: &HostRuntime, filled: &D, merged: &D) -> u8
    ensures { result ≤ 2 }
{
    let words = match given_words(rt) {
        Ok(words) => words,
        Err(status) => return status,
    };
    let texts = match texts_of(rt, &words) {
        Ok(texts) => texts,
        Err(status) => return status,
    };
    match command_of(rt, &texts) {
        Ok(command) => run(rt, &AskedFiles, filled, merged, command),
        Err(status) => status,
    }
}
