//! Tests of the lines of a proof, whose sets are pins of an object of sets.
#![tactic(auto)]

pub mod block_tests;
pub mod cases;
pub mod checks;
pub mod claim_ends;
pub mod entries;
pub mod entry_lists;
pub mod frames;
pub mod free_tests;
pub mod lines;
pub mod shared_parts;
pub mod testing;
