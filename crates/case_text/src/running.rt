//! The cases of files, judged one after the other, with a line for each.

use crate::fault::Blame;
use crate::section::{Section, sections};
use anyhow::{Context, Result, bail};
use std::alloc::Global;
use std::env::Env;
use std::rt::Files;
use std::{env, fs, io};

/// Who judges cases.
pub trait Judge {
    /// What differs from what the case says; nothing where all is as expected.
    fn differences(&self, alloc: Global, case: &Section) -> std::result::Result<String, Blame>;
}

/// Judges a case and says how it ends. Gives whether it ends as expected.
fn run_case<R: Print + AllocGlobal, J: Judge>(rt: &R, judge: &J, case: &Section) -> Result<bool> {
    let name = case.name.as_str();
    match judge.differences(rt.alloc(), case) {
        Ok(report) => tell(rt, name, report.as_str()),
        Err(Blame { line, fault }) => {
            println!(rt; "{name}: not run, line {line}: {fault}")?;
            Ok(false)
        }
    }
}

fn tell<R: Print>(rt: &R, name: &str, report: &str) -> Result<bool> {
    if report.is_empty() {
        println!(rt; "{name}: as expected")?;
        return Ok(true);
    }
    println!(rt; "{name}: not as expected")?;
    print!(rt; "{report}")?;
    Ok(false)
}

/// Judges the cases of a text. Gives how many don't end as expected.
fn run_text<R: Print + AllocGlobal, J: Judge>(rt: &R, judge: &J, text: &str) -> Result<usize> {
    let mut failed: usize = 0;
    for case in sections(rt.alloc(), text)?.iter() {
        if !run_case(rt, judge, case)? {
            failed = failed.saturating_add(1);
        }
    }
    Ok(failed)
}

/// Judges the cases of a file, below its name.
fn run_file<R, J>(rt: &R, judge: &J, name: &str) -> Result<usize>
where
    R: Files + Print + AllocGlobal,
    J: Judge,
{
    let text = fs::read_to_string(rt, name).context(format_args!("reading {name}"))?;
    println!(rt; "# {name}")?;
    run_text(rt, judge, text.as_str())
}

/// Judges the cases of the files that the words name, or else of the standard input. Gives how many don't end as expected.
fn run_all<R, J>(rt: &R, judge: &J) -> Result<usize>
where
    R: Env + Files + Input + Print + AllocGlobal,
    J: Judge,
{
    let mut failed: usize = 0;
    let mut files: usize = 0;
    for name in env::args(rt)?.skip(1) {
        failed = failed.saturating_add(run_file(rt, judge, name.as_str())?);
        files = files.saturating_add(1);
    }
    if files == 0 {
        let text = io::read_to_string(rt.alloc(), rt.reader())?;
        return run_text(rt, judge, text.as_str());
    }
    Ok(failed)
}

/// Judges all cases and says how each ends. An error where some case doesn't end as expected.
pub fn run_cases<R, J>(rt: &R, judge: &J) -> Result<()>
where
    R: Env + Files + Input + Print + AllocGlobal,
    J: Judge,
{
    let failed = run_all(rt, judge)?;
    if failed > 0 {
        bail!("{failed} cases don't end as expected");
    }
    Ok(())
}
