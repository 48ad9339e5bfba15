//! Cases of texts and their flat models: the variables, processes and items that a text has, what its paths denote, or
//! why it is refused. Of each case it is told whether it is as its file says.
//!
//! The words are the names of files of cases; without words the cases are read from the standard input.
#![tactic(auto)]

mod answers;
mod models;
mod paths;
mod questions;
mod refusals;
mod texts;
mod words;

use crate::answers::FlatAnswers;
use anyhow::Result;
use case_text::asking::Asking;
use case_text::running::run_cases;

fn main(rt: HostRuntime) -> Result<()> {
    run_cases(
        &rt,
        &Asking {
            answers: FlatAnswers,
        },
    )
}
