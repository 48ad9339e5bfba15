//! From proofs over diagrams to the text of their blocks.
#![tactic(auto)]

mod listing;
pub mod writing;
