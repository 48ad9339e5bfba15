//! Tests of the codes of states, and of value tables, over small models.
//!
//! They stand in a crate of their own, so that the crates below are proved once.
#![tactic(auto)]

#[cfg(test)]
mod layout_tests;
#[cfg(test)]
mod models;
#[cfg(test)]
mod operands;
#[cfg(test)]
mod operator_tests;
#[cfg(test)]
mod table_tests;
#[cfg(test)]
mod tables;
