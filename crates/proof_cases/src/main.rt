//! Proofs of specifications of models, over trees and over diagrams: makes the proof of each verdict, tests it, and says of
//! each case whether both find what its file says.
//!
//! The words are the names of case files; without words the cases are read from the standard input.
#![tactic(auto)]

mod added;
mod answers;
mod bare;
mod finding;
mod telling;
mod wrong;

use crate::answers::Proofs;
use case_text::asking::Asking;
use case_text::running::run_cases;

fn main(rt: HostRuntime) -> anyhow::Result<()> {
    run_cases(&rt, &Asking { answers: Proofs })
}
