//! Strong fairness: fair paths on which each pair's second condition holds again and again where its first one does.
#![tactic(auto)]

pub mod certificate;
pub mod laws;
pub mod rows;
pub mod steps;
pub mod testing;
