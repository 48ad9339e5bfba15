//! From the sets that fixpoints found to a proof.
#![tactic(auto)]

pub mod copying;
pub mod entries;
pub mod extraction;
pub mod free_part;
pub mod free_whole;
pub mod laws;
pub mod rules;
pub mod written;
