//! Value tables: for each value and each fault of an expression of a flat model, the region of pairs of states where
//! the expression comes to it, as a reduced ordered binary decision diagram (Bryant).
#![tactic(auto)]

mod binary;
mod build;
mod cell_lists;
mod cells;
mod counts;
mod operands;
mod operators;
mod orders;
mod pairs;
mod pick;
mod regions;
mod sets;
mod spread;
mod value_regions;
mod variables;

pub use value_regions::{FaultRow, Regions, Row, table};
