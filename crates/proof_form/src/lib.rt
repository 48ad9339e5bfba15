//! Proofs of CTL specifications over fair paths, as they are written, and what each line of them has to show.
#![tactic(auto)]

pub mod form;
pub mod free_shapes;
pub mod gathering;
pub mod laws;
pub mod numbering;
pub mod preorder;
pub mod releasing;
pub mod shapes;
