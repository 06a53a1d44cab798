//! The program pbfrow_reader: lists, checks, shows and cuts OpenStreetMap PBF files. It has the commands of pbfrow that need no
//! database, and stands on a fifth of the crates.
#![tactic(auto)]

ghost use Rattle.std.specs.Prelude.{◌≡◌, ◌≤◌};
ghost use Rattle.pbfrow_words.specs.Words.{CutsSome};

use pbfrow_terminal::entry::{INVALID_ARGUMENTS, command_of, given_words, texts_of};
use pbfrow_terminal::reading::{cut_file, read_file};
use pbfrow_words::Words;
use std::process::ExitCode;

fn main(rt: HostRuntime) -> ExitCode {
    ExitCode::from(run_given(&rt))
}

/// Runs the command that the program was started with. The exit status is that of the command, 2 where the words name none that is
/// here, and 1 where they can't be read or what they ask for can't be written.
fn run_given(rt: &HostRuntime) -> u8
    ensures { result ≤ 2 }
{
    let words = match given_words(rt) {
        Ok(words) => words,
        Err(status) => return status,
    };
    let texts = match texts_of(rt, &words) {
        Ok(texts) => texts,
        Err(status) => return status,
    };
    match command_of(rt, &texts) {
        Ok(command) => run(rt, command),
        Err(status) => status,
    }
}

/// Runs a command that only reads a file, and answers the exit status.
fn run(rt: &HostRuntime, command: Words) -> u8
    requires { CutsSome command }
    ensures { result ≤ 2 }
{
    match command {
        Words::Read { reading, file } => read_file(rt, reading, file),
        Words::Ranges { file, count } => cut_file(rt, file, count),
        _ => refuse_databases(rt),
    }
}

/// Says that a command isn't there, and answers the exit status.
fn refuse_databases(rt: &HostRuntime) -> u8
    ensures { result ≡ 2 }
{
    // the status is the same if this can't be written
    let _told = eprintln!(rt;
        "pbfrow_reader: this program has no databases: list, check, show and ranges are its commands"
    );
    INVALID_ARGUMENTS
}
