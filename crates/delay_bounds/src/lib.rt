//! The shortest and the longest delay between two sets of states, and proofs of them.
#![tactic(auto)]

pub mod laws;
pub mod proof;
pub mod testing;
pub mod ways;
