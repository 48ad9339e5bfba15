//! Operations on reduced ordered binary decision diagrams (Bryant), which remember earlier answers
//! in a cache of bounded size.
#![tactic(auto)]

mod engine;
mod key;
pub mod laws;
mod operand;
mod operation;

pub use engine::Engine;
pub use key::Key;
pub use operand::{Cofactors, cofactors_of};
