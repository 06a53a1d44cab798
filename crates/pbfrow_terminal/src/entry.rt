//! How a program begins: the words that it was started with, and the command that they name.

ghost use Rattle.std.specs.Prelude.{◌≤◌, IfOk, IfErr};
ghost use Rattle.pbfrow_words.specs.Words.{BeginsWithin, CutsSome, EndsWithin};

use crate::ending::FAULTY;
use clap::Error;
use osm_value::Outlet;
use pbfrow_reading::report::refuse_memory;
use pbfrow_words::{Words, read_words};
use std::alloc::{AllocError, Global};
use std::io::ErrorKind;
use std::{env, io};

/// The exit status for invalid arguments.
pub const INVALID_ARGUMENTS: u8 = 2;

/// How many bytes are taken once and given back, by which glibc's limits grow.
const KEPT_MEMORY: usize = 31 << 20;

/// The words that the program was started with. Where they can't be read, that is told, and the exit status is answered.
pub fn given_words(rt: &HostRuntime) -> Result<Vec<String>, u8>
    ensures { IfErr result (λ status. status ≤ 2) }
{
    keep_memory(rt.alloc());
    match words_of(rt) {
        Ok(words) => Ok(words),
        Err(error) => Err(refuse_words(rt, error)),
    }
}

/// The texts of these words, in their order. Where memory is refused, that is told, and the exit status is answered.
pub fn texts_of<'a>(rt: &HostRuntime, words: &'a [String]) -> Result<Vec<&'a str>, u8>
    ensures { IfErr result (λ status. status ≤ 2) }
{
    match borrowed(rt.alloc(), words) {
        Ok(texts) => Ok(texts),
        Err(_) => Err(refuse_memory(&mut Outlet::new(io::writer(rt)), None)),
    }
}

/// The command that these texts name. Where they name none, the help that they ask for is printed, or why they are invalid, and
/// the exit status is answered: 2 where they are invalid, and 1 where what they ask for can't be written.
pub fn command_of<'a>(rt: &HostRuntime, texts: &'a [&'a str]) -> Result<Words<'a>, u8>
    ensures begins { IfOk result BeginsWithin }
    ensures ends { IfOk result EndsWithin }
    ensures cuts { IfOk result CutsSome }
    ensures refused { IfErr result (λ status. status ≤ 2) }
{
    match read_words(rt.alloc(), texts) {
        Ok(words) => Ok(words),
        Err(error) => Err(refuse(rt, error)),
    }
}

/// Takes memory and gives it back at once. From then on glibc's allocator keeps up to twice as much that is given back
/// (mallopt(3), M_MMAP_THRESHOLD), and doesn't return that of each blob to the system, to take it anew for the next. Where it
/// is refused nothing is lost.
fn keep_memory(alloc: Global) {
    let _given_back = Vec::<u8>::with_capacity(alloc, KEPT_MEMORY);
}

fn words_of(rt: &HostRuntime) -> io::Result<Vec<String>> {
    Ok(env::args(rt)?.collect(rt.alloc())?)
}

fn borrowed<'a>(alloc: Global, words: &'a [String]) -> Result<Vec<&'a str>, AllocError> {
    let mut texts = Vec::new(alloc);
    for word in words {
        texts.push(word.as_str())?;
    }
    Ok(texts)
}

/// Reports that an argument isn't UTF-8, or that memory was refused, and answers the exit status.
fn refuse_words(rt: &HostRuntime, error: io::Error) -> u8
    ensures { result ≤ 2 }
{
    match error.kind() {
        ErrorKind::InvalidData => {
            // the status is the same if this can't be written
            let _told = eprintln!(rt; "pbfrow: an argument isn't valid UTF-8");
            INVALID_ARGUMENTS
        }
        ErrorKind::OutOfMemory => refuse_memory(&mut Outlet::new(io::writer(rt)), None),
        _ => FAULTY,
    }
}

/// Prints the help that was asked for, or why the arguments are invalid, and answers the exit status. Invalid arguments
/// have theirs even if the message can't be written.
fn refuse(rt: &HostRuntime, error: Error) -> u8
    ensures { result ≤ 2 }
{
    let printed = error.print(rt);
    if error.use_stderr() {
        INVALID_ARGUMENTS
    } else if printed.is_err() {
        FAULTY
    } else {
        0
    }
}
