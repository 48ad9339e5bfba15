//! Tests of what searches for delays and for strong paths, of the tests of their proofs, and of traces, over trees.
//!
//! They stand in a crate of their own, so that the crates below are proved once.
#![tactic(auto)]

#[cfg(test)]
mod certificate_tests;
#[cfg(test)]
mod certificates;
#[cfg(test)]
mod delay_proof_tests;
#[cfg(test)]
mod delay_proofs;
#[cfg(test)]
mod delay_tests;
#[cfg(test)]
mod found_delays;
#[cfg(test)]
mod found_strong;
#[cfg(test)]
mod judged_traces;
#[cfg(test)]
mod leaves;
#[cfg(test)]
mod refused_texts;
#[cfg(test)]
mod replay;
#[cfg(test)]
mod rows;
#[cfg(test)]
mod strong_tests;
#[cfg(test)]
mod ways;
#[cfg(test)]
mod written_traces;
