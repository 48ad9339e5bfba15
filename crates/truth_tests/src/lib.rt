//! Tests of calls of sets of states that are diagrams.
//!
//! They stand in a crate of their own, so that the crates below are proved once.
#![tactic(auto)]

#[cfg(test)]
mod collect_tests;
#[cfg(test)]
mod export_tests;
