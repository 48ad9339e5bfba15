// The command `strong`.
ghost use Rattle.std.specs.Prelude.{◌≡◌, ◌≤◌, IfOk, fold, length, map, option_map};
ghost use Rattle.std.specs.Prelude.{string_bytes, unwrap_or};
ghost use Rattle.std.specs.Option.{option_and_then};
ghost use Rattle.command_words.specs.Listed.{pairs_in};
ghost use Rattle.command_words.specs.Words as commands;
ghost use Rattle.command_words.specs.Words.{HasLimits, command_by, spec_pair, spec_pairs};
ghost use Rattle.command_words.specs.Words.{strong_of};
ghost use Rattle.command_words.specs.Parts.{limit_form};
ghost use Rattle.command_words.specs.Given.{operands_with, strong_app, strong_with, with_optional};
ghost use Rattle.clap.specs.Words.{app_of, first_value, found_of};
ghost use Rattle.command_words.specs.Asked.{asked};

use crate::command::{Command, Job, Source, Work};
use crate::given::{bare_command, given, given_file, given_limit, operand, option, optional};
use crate::number::{MOST_SPECS, read_number};
use crate::pairs::{MOST_PAIRS, SpecPairs};
use clap::ArgMatches;
use std::alloc::{AllocError, Global};

// A place for each pair that may stand, so that clap refuses one more.
const PAIR_NAMES: [&str; MOST_PAIRS] = [
    "pair1", "pair2", "pair3", "pair4", "pair5", "pair6", "pair7", "pair8", "pair9", "pair10",
    "pair11", "pair12", "pair13", "pair14", "pair15", "pair16",
];

// `strong`: the operands are the name of the model's file, and pairs of numbers of specifications.
pub(crate) fn read_strong(alloc: Global, words: &[String]) -> Result<Command<'_>, AllocError>
    ensures command { IfOk result (λ command.
        asked command ≡ command_by limit_form strong_of (map string_bytes words.now)) }
    ensures limits { IfOk result (λ command. HasLimits (asked command)) }
{
    match given(strong_words(alloc)?, words)? {
        Some(matches) => Ok(strong_command(&matches)),
        None => Ok(Command::Usage),
    }
}

fn strong_words<'a>(alloc: Global) -> Result<clap::Command<'a>, AllocError>
    ensures { IfOk result (λ command. app_of command ≡ strong_app) }
{
    let command = bare_command(alloc, "strong").arg(operand(alloc, "model"))?;
    with_places(alloc, command, &PAIR_NAMES)?.arg(option(alloc, "nodes"))
}

// With operands of these names, which may be missing.
fn with_places<'a>(
    alloc: Global,
    mut command: clap::Command<'a>,
    names: &[&'a str],
) -> Result<clap::Command<'a>, AllocError>
    ensures { IfOk result (λ whole. app_of whole
        ≡ fold with_optional (app_of command.entry) (map (λ s. s.now) names.now)) }
{
    for name in names {
        command = command.arg(optional(alloc, name))?;
    }
    Ok(command)
}

fn strong_command<'a>(matches: &ArgMatches<'a>) -> Command<'a>
    ensures { asked result
        ≡ unwrap_or (strong_with (first_value (found_of matches.now))) commands.Usage }
{
    let (Some(model), Some(pairs)) = (
        given_file(matches, "model"),
        given_pairs(matches, &PAIR_NAMES),
    ) else {
        return Command::Usage;
    };
    match given_limit(matches) {
        Some(limit) => Command::Do(Work {
            source: Source::File(model),
            limit,
            job: Job::Strong { pairs },
        }),
        None => Command::Usage,
    }
}

// The pairs that the arguments of these names give, up to the first that has no word. None where a word is no pair.
fn given_pairs(matches: &ArgMatches<'_>, names: &[&str]) -> Option<SpecPairs>
    requires { length names.now ≤ 16 }
    ensures { option_map pairs_in result ≡ spec_pairs
        (operands_with (map (λ s. s.now) names.now) (first_value (found_of matches.now))) }
{
    let mut pairs = SpecPairs::new();
    for name in names {
        let Some(word) = matches.get_str(name) else {
            return Some(pairs);
        };
        pairs.push(read_pair(word)?);
    }
    Some(pairs)
}

// The numbers of the word `I:J`. None where it is another word.
fn read_pair(word: &str) -> Option<(u32, u32)>
    ensures { result ≡ spec_pair word.now }
{
    let (p, q) = word.split_once(':')?;
    Some((read_number(p, MOST_SPECS)?, read_number(q, MOST_SPECS)?))
}
