//! The test of a block of a proof file, line by line, without a fixpoint.
#![tactic(auto)]

mod blocks;
pub mod checking;
mod counting;
mod importing;
pub mod kept;
mod numbers;
mod relation;
