//! Tests of diagrams: the node table, the operations and their cost, quantification, and walks.
//!
//! They stand in a crate of their own, so that the crates below are proved once.
#![tactic(auto)]

#[cfg(test)]
mod making;
#[cfg(test)]
mod nodes_tests;
#[cfg(test)]
mod ops_tests;
#[cfg(test)]
mod quantify_tests;
#[cfg(test)]
mod walk_tests;
