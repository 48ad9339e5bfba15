//! Texts of models that several crates read, each once.
#![tactic(auto)]

pub mod manual;
pub mod small;
