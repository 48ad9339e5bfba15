//! The program: from its words and files to the text that it puts and its status.
#![tactic(auto)]

mod bits;
mod compassion;
mod decision;
mod delaying;
mod finishing;
pub mod laws;
mod rechecking;
mod relation;
mod replaying;
mod seconds;
mod session;
mod source;
mod trials;
mod work;

pub use session::run;
pub use smv_rings::gen_text;
pub use smv_texts::Status;
