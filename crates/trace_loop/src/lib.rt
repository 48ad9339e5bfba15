//! Fair paths that falsify a formula.
#![tactic(auto)]

mod above;
pub mod descent;
pub mod falsifying;
pub mod loops;
mod places;
pub mod rounds;
pub mod shape;
pub mod tracing;
pub mod ways;
