//! The states of a flat model as lists of bits, in an order of its variables.
#![tactic(auto)]

pub mod binary;
mod domains;
pub mod laws;
pub mod layout;
pub mod orders;

/// The most bits that the states of a model may have.
pub const MAX_STATE_BITS: u32 = 128;
