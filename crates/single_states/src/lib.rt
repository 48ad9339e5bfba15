//! The values of expressions at given states, and the tests of states, steps and paths.
#![tactic(auto)]

pub mod evaluation;
pub mod outcomes;
pub mod steps;
mod valuation;
