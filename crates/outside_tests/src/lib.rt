//! Tests of files and sinks, in memory and on the real disk.
//!
//! They stand in a crate of their own, so that the crates below are proved once.
#![tactic(auto)]

#[cfg(test)]
mod outside_tests;
