// The command that the words of a command line are.
ghost use Rattle.std.specs.Prelude.{◌≡◌, IfOk, map, string_bytes};
ghost use Rattle.command_words.specs.Words.{HasLimits, command_of};
ghost use Rattle.command_words.specs.Asked.{asked};

use crate::check::read_check;
use crate::delay::read_delay;
use crate::pairs::SpecPairs;
use crate::recheck::read_recheck;
use crate::replay::read_replay;
use crate::ring::read_gen;
use crate::strong::read_strong;
use std::alloc::{AllocError, Global};

/// What the words of a command line ask for.
#[derive(Clone, Copy, Debug, PartialEq, Eq)]
pub enum Command<'a> {
    /// No command: the usage text is asked for.
    Usage,
    /// Put the text of the ring of this many processes.
    Print(u32),
    Do(Work<'a>),
}

/// A model, and what is done with it.
#[derive(Clone, Copy, Debug, PartialEq, Eq)]
pub struct Work<'a> {
    pub source: Source<'a>,
    /// The most nodes.
    pub limit: u32,
    pub job: Job<'a>,
}

/// Where a model comes from.
#[derive(Clone, Copy, Debug, PartialEq, Eq)]
pub enum Source<'a> {
    /// The file under this name.
    File(&'a str),
    /// The text of the ring of this many processes.
    Ring(u32),
}

/// What is done with a model.
#[derive(Clone, Copy, Debug, PartialEq, Eq)]
pub enum Job<'a> {
    /// Decide its specifications, and save the proofs under the name, if there is one.
    Decide { proofs: Option<&'a str> },
    /// Test the blocks of the proof file of this name.
    Recheck { proofs: &'a str },
    /// Find the shortest and the longest delay from the states of specification `from` to those of specification `to`,
    /// both counted from 1.
    Delay { from: u32, to: u32 },
    /// Judge the trace file of this name.
    Replay { trace: &'a str },
    /// Find a fair path from an initial state that meets each pair of specifications, as a promise of strong fairness:
    /// if the first holds again and again, so does the second.
    Strong { pairs: SpecPairs },
}

/// The command that the words after the program's name are.
///
/// - `check MODEL [--nodes N] [--proof FILE]`, with N from 1 to 2,147,483,647, and 1,000,000 where
///   no limit is asked for; FILE is another name than MODEL
/// - `recheck MODEL PROOF [--nodes N]`, with N as for `check`
/// - `delay MODEL FROM TO [--nodes N]`, with FROM and TO from 1 to 256, and N as for `check`
/// - `replay MODEL TRACE [--nodes N]`, with N as for `check`
/// - `strong MODEL [PAIR]... [--nodes N]`, with at most 16 words `I:J`, where I and J are from 1 to
///   256, and N as for `check`
/// - `gen N [--check]`, with N from 1 to 999
///
/// Options and operands mix freely, `--nodes=N` is the same as `--nodes N`, and behind a word `--`
/// each word is an operand. No file's name is empty. All other words are `Usage`. An `Err` comes
/// for want of memory alone.
pub fn read_words(alloc: Global, words: &[String]) -> Result<Command<'_>, AllocError>
    ensures command { IfOk result
        (λ command. asked command ≡ command_of (map string_bytes words.now)) }
    ensures limits { IfOk result (λ command. HasLimits (asked command)) }
{
    let [word, rest @ ..] = words else {
        return Ok(Command::Usage);
    };
    match word.as_str() {
        "check" => read_check(alloc, rest),
        "gen" => read_gen(alloc, rest),
        "recheck" => read_recheck(alloc, rest),
        "delay" => read_delay(alloc, rest),
        "replay" => read_replay(alloc, rest),
        "strong" => read_strong(alloc, rest),
        _ => Ok(Command::Usage),
    }
}
