// The command `check`.
ghost use Rattle.std.specs.Prelude.{◌≡◌, IfOk, map, string_bytes, unwrap_or};
ghost use Rattle.command_words.specs.Words as commands;
ghost use Rattle.command_words.specs.Words.{HasLimits, check_of, command_by};
ghost use Rattle.command_words.specs.Parts.{check_form};
ghost use Rattle.command_words.specs.Given.{check_app, check_with};
ghost use Rattle.clap.specs.Words.{app_of, first_value, found_of};
ghost use Rattle.command_words.specs.Asked.{asked};

use crate::command::{Command, Job, Source, Work};
use crate::given::{bare_command, given, given_file, given_limit, operand, option};
use clap::ArgMatches;
use std::alloc::{AllocError, Global};

// `check`: the operand is the name of the model's file.
pub(crate) fn read_check(alloc: Global, words: &[String]) -> Result<Command<'_>, AllocError>
    ensures command { IfOk result (λ command.
        asked command ≡ command_by check_form check_of (map string_bytes words.now)) }
    ensures limits { IfOk result (λ command. HasLimits (asked command)) }
{
    match given(check_words(alloc)?, words)? {
        Some(matches) => Ok(check_command(&matches)),
        None => Ok(Command::Usage),
    }
}

fn check_words<'a>(alloc: Global) -> Result<clap::Command<'a>, AllocError>
    ensures { IfOk result (λ command. app_of command ≡ check_app) }
{
    bare_command(alloc, "check")
        .arg(operand(alloc, "model"))?
        .arg(option(alloc, "nodes"))?
        .arg(option(alloc, "proof"))
}

fn check_command<'a>(matches: &ArgMatches<'a>) -> Command<'a>
    ensures { asked result
        ≡ unwrap_or (check_with (first_value (found_of matches.now))) commands.Usage }
{
    let (Some(model), Some(limit)) = (given_file(matches, "model"), given_limit(matches)) else {
        return Command::Usage;
    };
    match matches.get_str("proof") {
        Some(name) if name.is_empty() || name == model => Command::Usage,
        proofs => Command::Do(Work {
            source: Source::File(model),
            limit,
            job: Job::Decide { proofs },
        }),
    }
}
