//! The static rules of flat models, and the formulas of those that keep them.
#![tactic(auto)]

mod acceptance;
mod assignments;
mod cycles;
mod formulas;
mod groups;
pub mod laws;
mod numbers;
mod operators;
mod parts;
mod sections;
mod targets;
mod ways;

pub use acceptance::accept;
pub use kripke_model::refusals::StaticRefusal;
