// The command `replay`.
ghost use Rattle.std.specs.Prelude.{◌≡◌, IfOk, map, string_bytes, unwrap_or};
ghost use Rattle.command_words.specs.Words as commands;
ghost use Rattle.command_words.specs.Words.{HasLimits, command_by, replay_of};
ghost use Rattle.command_words.specs.Parts.{limit_form};
ghost use Rattle.command_words.specs.Given.{replay_with};
ghost use Rattle.clap.specs.Words.{first_value, found_of};
ghost use Rattle.command_words.specs.Asked.{asked};

use crate::command::{Command, Job, Source, Work};
use crate::given::{files_command, given, given_file, given_limit};
use clap::ArgMatches;
use std::alloc::{AllocError, Global};

// `replay`: the operands are the names of the model's file and of the trace file.
pub(crate) fn read_replay(alloc: Global, words: &[String]) -> Result<Command<'_>, AllocError>
    ensures command { IfOk result (λ command.
        asked command ≡ command_by limit_form replay_of (map string_bytes words.now)) }
    ensures limits { IfOk result (λ command. HasLimits (asked command)) }
{
    match given(files_command(alloc, "replay")?, words)? {
        Some(matches) => Ok(replay_command(&matches)),
        None => Ok(Command::Usage),
    }
}

fn replay_command<'a>(matches: &ArgMatches<'a>) -> Command<'a>
    ensures { asked result
        ≡ unwrap_or (replay_with (first_value (found_of matches.now))) commands.Usage }
{
    let (Some(model), Some(trace)) = (given_file(matches, "model"), given_file(matches, "file"))
    else {
        return Command::Usage;
    };
    match given_limit(matches) {
        Some(limit) => Command::Do(Work {
            source: Source::File(model),
            limit,
            job: Job::Replay { trace },
        }),
        None => Command::Usage,
    }
}
