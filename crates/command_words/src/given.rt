// What clap is told of a command, and what it finds in the words behind it.
ghost use Rattle.std.specs.Prelude.{◌≡◌, ◌≢◌, [], IfOk, MatchOption, false, option_map, true, map};
ghost use Rattle.std.specs.Prelude.{string_bytes};
ghost use Rattle.clap.specs.Words.{app_of, fault_of, first_value, found_of, is_simple_and_free};
ghost use Rattle.clap.specs.Words.{matches_of, rows_of, rule_of};
ghost use Rattle.std.specs.Option.{option_and_then};
ghost use Rattle.command_words.specs.Words.{only_file, spec_number};
ghost use Rattle.command_words.specs.Given.{bare_app, files_app, flag_rule, limit_with, list_of};
ghost use Rattle.command_words.specs.Given.{operand_rule, option_rule, optional_rule};

use crate::number::{MOST_SPECS, read_number};
use clap::error::ErrorKind;
use clap::{Arg, ArgAction, ArgMatches};
use std::alloc::{AllocError, Global};

pub(crate) const USUAL_LIMIT: u32 = 1_000_000;

const GREATEST_LIMIT: u32 = 2_147_483_647;

// What is given to this command. None where its words are refused.
pub(crate) fn given<'a>(
    command: clap::Command<'a>,
    words: &'a [String],
) -> Result<Option<ArgMatches<'a>>, AllocError>
    requires { is_simple_and_free (app_of command) ≡ true }
    ensures { IfOk result (λ given. MatchOption given
        (fault_of (app_of command.entry) (map string_bytes words.entry.now) ≢ [])
        (λ matches. (fault_of (app_of command.entry) (map string_bytes words.entry.now) ≡ [])
        × (rows_of (found_of matches)
        ≡ matches_of (app_of command.entry) (map string_bytes words.entry.now)))) }
{
    match command.try_get_matches_from(words) {
        Ok(matches) => Ok(Some(matches)),
        Err(error) if error.kind() == ErrorKind::OutOfMemory => Err(AllocError),
        Err(_) => Ok(None),
    }
}

// A command that has no help, and no arguments yet.
pub(crate) fn bare_command<'a>(alloc: Global, name: &'a str) -> clap::Command<'a>
    ensures { app_of result ≡ bare_app name.now }
{
    clap::Command::new(alloc, name)
        .no_binary_name(true)
        .disable_help_flag(true)
}

// An operand, which is to be given.
pub(crate) fn operand<'a>(alloc: Global, name: &'a str) -> Arg<'a>
    ensures rule { rule_of result ≡ operand_rule name.now }
    ensures local { result.global ≡ false }
{
    Arg::new(alloc, name).required(true).action(ArgAction::Set)
}

// An operand, which may be missing.
pub(crate) fn optional<'a>(alloc: Global, name: &'a str) -> Arg<'a>
    ensures rule { rule_of result ≡ optional_rule name.now }
    ensures local { result.global ≡ false }
{
    Arg::new(alloc, name).action(ArgAction::Set)
}

// The option of this name, which has a value.
pub(crate) fn option<'a>(alloc: Global, name: &'a str) -> Arg<'a>
    ensures rule { rule_of result ≡ option_rule name.now }
    ensures local { result.global ≡ false }
{
    Arg::new(alloc, name).long(name).action(ArgAction::Set)
}

// The option of this name, which has none.
pub(crate) fn flag<'a>(alloc: Global, name: &'a str) -> Arg<'a>
    ensures rule { rule_of result ≡ flag_rule name.now }
    ensures local { result.global ≡ false }
{
    Arg::new(alloc, name).long(name).action(ArgAction::SetTrue)
}

// The command of this name, with the names of two files and a limit.
pub(crate) fn files_command<'a>(
    alloc: Global,
    name: &'a str,
) -> Result<clap::Command<'a>, AllocError>
    ensures { IfOk result (λ command. app_of command ≡ files_app name.now) }
{
    bare_command(alloc, name)
        .arg(operand(alloc, "model"))?
        .arg(operand(alloc, "file"))?
        .arg(option(alloc, "nodes"))
}

// The name of a file that this argument gives, which is not empty.
pub(crate) fn given_file<'a>(matches: &ArgMatches<'a>, argument: &str) -> Option<&'a str>
    ensures { option_map (λ name. name.now) result
        ≡ only_file (list_of (first_value (found_of matches.now) argument.now)) }
{
    match matches.get_str(argument) {
        Some(name) if !name.is_empty() => Some(name),
        _ => None,
    }
}

// The number of a specification that this argument gives. None where its word is no such number.
pub(crate) fn given_spec(matches: &ArgMatches<'_>, argument: &str) -> Option<u32>
    ensures { result
        ≡ option_and_then spec_number (first_value (found_of matches.now) argument.now) }
{
    match matches.get_str(argument) {
        Some(word) => read_number(word, MOST_SPECS),
        None => None,
    }
}

// The limit on nodes that the option `--nodes` asks for, or the usual one. None where its value is
// no such number.
pub(crate) fn given_limit(matches: &ArgMatches<'_>) -> Option<u32>
    ensures { result ≡ limit_with (first_value (found_of matches.now)) }
{
    match matches.get_str("nodes") {
        Some(value) => read_number(value, GREATEST_LIMIT),
        None => Some(USUAL_LIMIT),
    }
}
