// The command `recheck`.
ghost use Rattle.std.specs.Prelude.{◌≡◌, IfOk, map, string_bytes, unwrap_or};
ghost use Rattle.command_words.specs.Words as commands;
ghost use Rattle.command_words.specs.Words.{HasLimits, command_by, recheck_of};
ghost use Rattle.command_words.specs.Parts.{limit_form};
ghost use Rattle.command_words.specs.Given.{recheck_with};
ghost use Rattle.clap.specs.Words.{first_value, found_of};
ghost use Rattle.command_words.specs.Asked.{asked};

use crate::command::{Command, Job, Source, Work};
use crate::given::{files_command, given, given_file, given_limit};
use clap::ArgMatches;
use std::alloc::{AllocError, Global};

// `recheck`: the operands are the names of the model's file and of the proof file.
pub(crate) fn read_recheck(alloc: Global, words: &[String]) -> Result<Command<'_>, AllocError>
    ensures command { IfOk result (λ command.
        asked command ≡ command_by limit_form recheck_of (map string_bytes words.now)) }
    ensures limits { IfOk result (λ command. HasLimits (asked command)) }
{
    match given(files_command(alloc, "recheck")?, words)? {
        Some(matches) => Ok(recheck_command(&matches)),
        None => Ok(Command::Usage),
    }
}

fn recheck_command<'a>(matches: &ArgMatches<'a>) -> Command<'a>
    ensures { asked result
        ≡ unwrap_or (recheck_with (first_value (found_of matches.now))) commands.Usage }
{
    let (Some(model), Some(proofs)) = (given_file(matches, "model"), given_file(matches, "file"))
    else {
        return Command::Usage;
    };
    match given_limit(matches) {
        Some(limit) => Command::Do(Work {
            source: Source::File(model),
            limit,
            job: Job::Recheck { proofs },
        }),
        None => Command::Usage,
    }
}
