//! Judges named cases: the transition relation of a model in parts, the sets that are made of them, and why a model has
//! none.
//!
//! The words are the names of case files; without words the cases are read from the standard input.
#![tactic(auto)]

mod builds;
mod collections;
mod leaves;
mod orders;
mod pairs;
mod questions;
mod reading;
mod seconds;
mod seen;
mod states;

use crate::questions::Relations;
use case_text::asking::Asking;
use case_text::running::run_cases;

fn main(rt: HostRuntime) -> anyhow::Result<()> {
    run_cases(&rt, &Asking { answers: Relations })
}
