//! Tests as data: named cases that stand in texts, and what is said of each.
//!
//! A program of cases reads files of cases, judges each case, and prints a line for it. What a case holds is the
//! program's own matter, or a text with questions and answers (`asking`).
#![tactic(auto)]

pub mod asking;
pub mod expected;
pub mod fault;
pub mod notation;
pub mod running;
pub mod section;
pub mod telling;
