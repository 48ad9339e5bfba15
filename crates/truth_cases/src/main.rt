//! Decides specifications of models over trees and over diagrams, and says of each case whether both find what its file
//! says.
//!
//! The words are the names of case files; without words the cases are read from the standard input.
#![tactic(auto)]

mod answers;
mod given;
mod paths;
mod questions;
mod telling;
mod verdicts;

use crate::answers::Truth;
use case_text::asking::Asking;
use case_text::running::run_cases;

fn main(rt: HostRuntime) -> anyhow::Result<()> {
    run_cases(&rt, &Asking { answers: Truth })
}
