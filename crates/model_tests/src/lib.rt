//! Tests of calls of `kripke_model` that no model read from text shows.
//!
//! They stand in a crate of their own, so that the crate below is proved once.
#![tactic(auto)]

#[cfg(test)]
mod definition_tests;
