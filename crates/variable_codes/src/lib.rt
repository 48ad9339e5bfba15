//! The bits of one variable among those of a pair of states: their levels, and the diagrams of its codes.
#![tactic(auto)]

mod codes;
mod levels;

pub use codes::code_region;
pub use levels::{bit_level, half_of, values_of};
