//! Specifications without path operators, by their numbers.
#![tactic(auto)]

pub mod named;
