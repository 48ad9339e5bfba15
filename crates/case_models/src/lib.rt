//! Models of cases, the two kinds of sets of states over them, and what answers say.
#![tactic(auto)]

pub mod formulas;
pub mod initials;
pub mod kinds;
pub mod reading;
pub mod telling;
