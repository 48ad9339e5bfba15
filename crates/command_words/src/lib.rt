//! What the words of a command line ask for.
#![tactic(auto)]

mod check;
mod command;
mod delay;
mod given;
mod number;
mod pairs;
mod recheck;
mod replay;
mod ring;
mod strong;

pub use command::{Command, Job, Source, Work, read_words};
pub use pairs::{MOST_PAIRS, SpecPairs};
