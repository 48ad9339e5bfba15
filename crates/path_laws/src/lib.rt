//! Laws of infinite paths, over the definitions of flat models. The functions compute nothing.
#![tactic(auto)]

pub mod laws;
