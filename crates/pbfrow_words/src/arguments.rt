//! Arguments that several commands have, and how they are read.

ghost use Rattle.std.specs.Prelude.{◌≡◌, false, IfOk, IfSome, codes, map, option_map};
ghost use Rattle.clap.specs.Words.{all_of, app_of, first_of, found_of, new_app, one_of, rows_of, rule_of, with_rule, with_subcommand};
ghost use Rattle.clap.specs.declared.builder.command.Command.TheViews.{out-Command as fields_of};
ghost use Rattle.pbfrow_words.specs.Arguments as definitions;
ghost use Rattle.pbfrow_words.specs.Arguments.{IsFlag, IsNumber, text_of};

use clap::builder::ValueParser;
use clap::{Arg, ArgAction, ArgMatches, Command};
use pbf_frame::MAX_OFFSET;
use std::alloc::{AllocError, Global};

pub(crate) fn optional_argument<'a>(alloc: Global, id: &'a str, help: &'a str) -> Arg<'a>
    ensures rule { rule_of result ≡ definitions.optional_argument id.entry.now }
    ensures local { result.global ≡ false }
{
    Arg::new(alloc, id).help(help)
}

pub(crate) fn required_argument<'a>(alloc: Global, id: &'a str, help: &'a str) -> Arg<'a>
    ensures rule { rule_of result ≡ definitions.required_argument id.entry.now }
    ensures local { result.global ≡ false }
{
    Arg::new(alloc, id).help(help).required(true)
}

/// An argument that takes one text or more.
pub(crate) fn required_arguments<'a>(alloc: Global, id: &'a str, help: &'a str) -> Arg<'a>
    ensures rule { rule_of result ≡ definitions.required_arguments id.entry.now }
    ensures local { result.global ≡ false }
{
    required_argument(alloc, id, help).num_args(1..)
}

pub(crate) fn offset_option<'a>(alloc: Global, id: &'a str, help: &'a str) -> Arg<'a>
    ensures rule { rule_of result ≡ definitions.offset_option id.entry.now }
    ensures local { result.global ≡ false }
{
    Arg::new(alloc, id)
        .long(id)
        .value_name("N")
        .value_parser(ValueParser::unsigned(0, MAX_OFFSET))
        .help(help)
}

/// An option without a value.
pub(crate) fn flag<'a>(alloc: Global, id: &'a str, help: &'a str) -> Arg<'a>
    ensures rule { rule_of result ≡ definitions.flag id.entry.now }
    ensures local { result.global ≡ false }
{
    Arg::new(alloc, id)
        .long(id)
        .action(ArgAction::SetTrue)
        .help(help)
}

/// A PBF file that has to be named.
pub(crate) fn file<'a>(alloc: Global) -> Arg<'a>
    ensures rule { rule_of result ≡ definitions.required_argument (codes "FILE") }
    ensures local { result.global ≡ false }
{
    required_argument(alloc, "FILE", "PBF file")
}

pub(crate) fn database<'a>(alloc: Global) -> Arg<'a>
    ensures rule { rule_of result ≡ definitions.required_argument (codes "DB") }
    ensures local { result.global ≡ false }
{
    required_argument(alloc, "DB", "Database file")
}

pub(crate) fn databases<'a>(alloc: Global) -> Arg<'a>
    ensures rule { rule_of result ≡ definitions.required_arguments (codes "DB") }
    ensures local { result.global ≡ false }
{
    required_arguments(
        alloc,
        "DB",
        "Database file; several if each holds a part of the file",
    )
}

/// Adds an argument that isn't passed on to the subcommands.
pub(crate) fn with_argument<'a>(
    command: Command<'a>,
    argument: Arg<'a>,
) -> Result<Command<'a>, AllocError>
    requires own { (fields_of command).has_globals ≡ false }
    requires local { argument.global ≡ false }
    ensures shape { IfOk result (λ c. app_of c ≡ with_rule (app_of command.entry) (rule_of argument.entry)) }
    ensures local { IfOk result (λ c. (fields_of c).has_globals ≡ false) }
{
    command.arg(argument)
}

/// Adds a subcommand.
pub(crate) fn with_command<'a>(
    command: Command<'a>,
    other: Command<'a>,
) -> Result<Command<'a>, AllocError>
    requires own { (fields_of command).has_globals ≡ false }
    requires local { (fields_of other).has_globals ≡ false }
    ensures shape { IfOk result (λ c. app_of c ≡ with_subcommand (app_of command.entry) (app_of other.entry).top) }
    ensures local { IfOk result (λ c. (fields_of c).has_globals ≡ false) }
{
    command.subcommand(other)
}

/// The number given by an option, `Some(None)` if the option isn't given, and none if the number is above 2^62.
pub(crate) fn number_of(matches: &ArgMatches, id: &str) -> Option<Option<u64>>
    ensures { IfSome result (λ n. IsNumber n (one_of id.now (rows_of (found_of matches.now)))) }
{
    match matches.try_get_one::<u64>(id) {
        Ok(None) => Some(None),
        Ok(Some(number)) if number <= MAX_OFFSET => Some(Some(number)),
        _ => None,
    }
}

pub(crate) fn text_of<'a>(matches: &ArgMatches<'a>, id: &str) -> Option<&'a str>
    ensures { text_of result ≡ first_of id.now (rows_of (found_of matches.now)) }
{
    matches.get_str(id)
}

/// The texts of an argument that takes several, or none if it isn't given.
pub(crate) fn texts_of<'m, 'a>(matches: &'m ArgMatches<'a>, id: &str) -> Option<&'m [&'a str]>
    ensures { option_map (λ s. map (λ v. v.now) s.now) result ≡ all_of id.now (rows_of (found_of matches.now)) }
{
    matches.get_strs(id)
}

pub(crate) fn flag_of(matches: &ArgMatches, id: &str) -> bool
    ensures { IsFlag result (one_of id.now (rows_of (found_of matches.now))) }
{
    matches.get_flag(id)
}

/// A command of this name, with what its help says.
pub(crate) fn new_command<'a>(
    alloc: Global,
    name: &'a str,
    about: &'a str,
    help: &'a str,
) -> Command<'a>
    ensures shape { app_of result ≡ new_app name.entry.now }
    ensures local { (fields_of result).has_globals ≡ false }
{
    Command::new(alloc, name).about(about).after_help(help)
}
