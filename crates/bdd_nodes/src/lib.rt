//! The node table of reduced ordered binary decision diagrams (Bryant): each triple of a level and
//! two children stands once, so that each function of the bits has one diagram.
#![tactic(auto)]

pub mod laws;
mod makes;
mod reference;
mod refusal;
mod steps;
mod store;
mod triple;

pub use reference::Ref;
pub use refusal::{Held, StoreRefusal};
pub use steps::Steps;
pub use store::Store;
pub use triple::Triple;
