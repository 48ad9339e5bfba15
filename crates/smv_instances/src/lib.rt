//! The instances of a program, and what its declarations are refused for.
#![tactic(auto)]

pub mod body;
pub mod constants;
pub mod counts;
pub mod entries;
pub mod found;
pub mod instances;
pub mod modules;
pub mod names;
pub mod rows;
pub mod types;
pub mod walk;

pub use entries::{Entity, Entry};
pub use found::Found;
pub use instances::Instances;
