//! A proof whose sets are numbers of nodes, as a proof over pins: which numbers it has, and a pin
//! for each.
#![tactic(auto)]

pub mod letting_go;
pub mod marking;
pub mod numbered;
pub mod pinning;
