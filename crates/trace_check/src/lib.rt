//! Whether a trace shows that its specification is false.
#![tactic(auto)]

pub mod judged;
pub mod judging;
pub mod laws;
mod places;
mod visits;
