//! What the paths of a program denote, and what its definitions are refused for.
#![tactic(auto)]

mod arithmetic;
pub mod checks;
mod deciding;
mod definitions;
pub mod measures;
pub mod mentions;
mod nodes;
mod numbers;
mod paths;
pub mod resolving;
pub mod sizes;
mod states;
pub mod tables;
pub mod targets;
pub mod texts;
pub mod uses;
pub mod walk;

pub use paths::Paths;
pub use resolving::Targets;
pub use targets::{Bracket, Target};
