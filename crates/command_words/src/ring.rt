// The command `gen`.
ghost use Rattle.std.specs.Prelude.{◌≡◌, Bool, IfOk, Some, codes, map, string_bytes, unwrap_or};
ghost use Rattle.command_words.specs.Words as commands;
ghost use Rattle.command_words.specs.Words.{HasLimits, command_by, gen_of};
ghost use Rattle.command_words.specs.Parts.{gen_form};
ghost use Rattle.command_words.specs.Given.{gen_app, gen_with};
ghost use Rattle.clap.specs.Words.{app_of, first_value, found_of, one_text};
ghost use Rattle.clap.specs.Values.{bool_text};
ghost use Rattle.command_words.specs.Asked.{asked};

use crate::command::{Command, Job, Source, Work};
use crate::given::{USUAL_LIMIT, bare_command, flag, given, operand};
use crate::number::read_number;
use clap::ArgMatches;
use std::alloc::{AllocError, Global};

const LARGEST_RING: u32 = 999;

// `gen`: the operand is the number of processes.
pub(crate) fn read_gen(alloc: Global, words: &[String]) -> Result<Command<'_>, AllocError>
    ensures command { IfOk result (λ command.
        asked command ≡ command_by gen_form gen_of (map string_bytes words.now)) }
    ensures limits { IfOk result (λ command. HasLimits (asked command)) }
{
    match given(gen_words(alloc)?, words)? {
        Some(matches) => Ok(gen_command(&matches)),
        None => Ok(Command::Usage),
    }
}

fn gen_words<'a>(alloc: Global) -> Result<clap::Command<'a>, AllocError>
    ensures { IfOk result (λ command. app_of command ≡ gen_app) }
{
    bare_command(alloc, "gen")
        .arg(operand(alloc, "number"))?
        .arg(flag(alloc, "check"))
}

fn gen_command<'a>(matches: &ArgMatches<'a>) -> Command<'a>
    ensures { (check : Bool)
        → one_text (found_of matches.now) (codes "check") ≡ Some (bool_text check)
        → asked result
        ≡ unwrap_or (gen_with (first_value (found_of matches.now)) check) commands.Usage }
{
    let Some(word) = matches.get_str("number") else {
        return Command::Usage;
    };
    match read_number(word, LARGEST_RING) {
        Some(n) if matches.get_flag("check") => Command::Do(Work {
            source: Source::Ring(n),
            limit: USUAL_LIMIT,
            job: Job::Decide { proofs: None },
        }),
        Some(n) => Command::Print(n),
        None => Command::Usage,
    }
}
