//! Quantification and renaming of reduced ordered binary decision diagrams (Bryant), with the store
//! and the cache of a `bdd_ops::Engine`.
#![tactic(auto)]

mod entry;
mod level;
mod node;
mod quantification;
mod renaming;

pub use level::skip;
pub use quantification::{and_exists, exists};
pub use renaming::rename;
