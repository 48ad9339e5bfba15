//! Texts that are read line by line.
#![tactic(auto)]

pub mod cursor;
pub mod faults;
mod halves;
pub mod numbers;
pub mod words;
