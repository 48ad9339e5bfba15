//! Directed graphs over numbers, and an order in which their nodes can be worked off.
#![tactic(auto)]

mod graph;
mod order;

pub use graph::Graph;
pub use order::{Order, order_of};
