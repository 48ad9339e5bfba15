//! Texts that grow at their end, and the values of a model as they are written.
#![tactic(auto)]

pub mod text;
pub mod values;
