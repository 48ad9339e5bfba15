//! The search for strong paths over diagrams: what it gave, as a path or as a certificate over the nodes of one list.
#![tactic(auto)]

pub mod finding;
mod numbering;
mod parting;
pub mod writing;
