// The command `delay`.
ghost use Rattle.std.specs.Prelude.{◌≡◌, IfOk, map, string_bytes, unwrap_or};
ghost use Rattle.command_words.specs.Words as commands;
ghost use Rattle.command_words.specs.Words.{HasLimits, command_by, delay_of};
ghost use Rattle.command_words.specs.Parts.{limit_form};
ghost use Rattle.command_words.specs.Given.{delay_app, delay_with};
ghost use Rattle.clap.specs.Words.{app_of, first_value, found_of};
ghost use Rattle.command_words.specs.Asked.{asked};

use crate::command::{Command, Job, Source, Work};
use crate::given::{bare_command, given, given_file, given_limit, given_spec, operand, option};
use clap::ArgMatches;
use std::alloc::{AllocError, Global};

// `delay`: the operands are the name of the model's file and the numbers of two specifications.
pub(crate) fn read_delay(alloc: Global, words: &[String]) -> Result<Command<'_>, AllocError>
    ensures command { IfOk result (λ command.
        asked command ≡ command_by limit_form delay_of (map string_bytes words.now)) }
    ensures limits { IfOk result (λ command. HasLimits (asked command)) }
{
    match given(delay_words(alloc)?, words)? {
        Some(matches) => Ok(delay_command(&matches)),
        None => Ok(Command::Usage),
    }
}

fn delay_words<'a>(alloc: Global) -> Result<clap::Command<'a>, AllocError>
    ensures { IfOk result (λ command. app_of command ≡ delay_app) }
{
    bare_command(alloc, "delay")
        .arg(operand(alloc, "model"))?
        .arg(operand(alloc, "from"))?
        .arg(operand(alloc, "to"))?
        .arg(option(alloc, "nodes"))
}

fn delay_command<'a>(matches: &ArgMatches<'a>) -> Command<'a>
    ensures { asked result
        ≡ unwrap_or (delay_with (first_value (found_of matches.now))) commands.Usage }
{
    let (Some(model), Some(from), Some(to)) = (
        given_file(matches, "model"),
        given_spec(matches, "from"),
        given_spec(matches, "to"),
    ) else {
        return Command::Usage;
    };
    match given_limit(matches) {
        Some(limit) => Command::Do(Work {
            source: Source::File(model),
            limit,
            job: Job::Delay { from, to },
        }),
        None => Command::Usage,
    }
}
