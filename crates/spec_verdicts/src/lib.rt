//! What is found of a model's specifications, over any sets of states, with proofs of it, and the report of it.
#![tactic(auto)]

mod failing;
mod findings;
mod proof_files;
mod proving;
mod replies;

pub use failing::find;
pub use findings::Findings;
pub use proving::{Proved, prove};
pub use replies::{all_unknown, checked};
