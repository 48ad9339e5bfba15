//! The sets that a proof claims for the nodes of formulas, as pins of an object of sets.
#![tactic(auto)]

pub mod claims;
pub mod constraint_pins;
pub mod entry_sets;
pub mod free_claims;
pub mod joins;
