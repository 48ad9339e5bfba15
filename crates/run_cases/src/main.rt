//! Runs named cases of whole calls of `run`, and says of each whether it ends as its file says that it does.
//!
//! The words are the names of case files; without words the cases are read from the standard input.
#![tactic(auto)]

mod calling;
mod case;
mod comparing;
mod reading;

use crate::calling::{call, with_given};
use crate::case::Ending;
use crate::comparing::tell_differences;
use crate::reading::endings_of;
use case_text::fault::{Blame, Fault};
use case_text::running::{Judge, run_cases};
use case_text::section::Section;
use smv_outside::Entry;
use std::alloc::Global;

/// Makes the calls, each over the files before the first, and adds what differs. Gives the files after the last.
fn run_calls(
    alloc: Global,
    before: Vec<Entry>,
    ending: &Ending,
    report: &mut String,
) -> Result<Vec<Entry>, Fault> {
    let mut after = Vec::new(alloc);
    for wanted in ending.calls.iter() {
        let found = call(alloc, &wanted.words, &before, ending)?;
        let mut differences = String::new(alloc);
        tell_differences(&found, &before, ending, &mut differences)?;
        if !differences.is_empty() {
            let line = wanted.line.as_str();
            let differences = differences.as_str();
            write!(report, "{line}\n{differences}")?;
        }
        after = found.files;
    }
    Ok(after)
}

/// What differs from what the endings say; nothing where all is as expected.
fn differences(alloc: Global, endings: &[Ending]) -> Result<String, Fault> {
    let mut report = String::new(alloc);
    let mut files = Vec::new(alloc);
    for ending in endings {
        let before = with_given(alloc, &files, &ending.given)?;
        files = run_calls(alloc, before, ending, &mut report)?;
    }
    Ok(report)
}

/// Judges whole calls.
struct Calls;

impl Judge for Calls {
    fn differences(&self, alloc: Global, case: &Section) -> Result<String, Blame> {
        let endings = endings_of(alloc, case)?;
        match differences(alloc, &endings) {
            Ok(report) => Ok(report),
            Err(fault) => Err(Blame {
                line: case.number,
                fault,
            }),
        }
    }
}

fn main(rt: HostRuntime) -> anyhow::Result<()> {
    run_cases(&rt, &Calls)
}
