//! Trace files: looping paths that are to falsify a specification, as texts.
#![tactic(auto)]

mod fronts;
mod heads;
pub mod laws;
mod numbered;
mod path_reading;
pub mod reading;
pub mod refusals;
mod small;
mod state_reading;
pub mod trace;
mod values;
pub mod writing;
