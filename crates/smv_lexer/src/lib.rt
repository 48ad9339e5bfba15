//! The tokens of a text of the SMV language: its words, numbers, reserved words and signs, with their places and lines.
//!
//! The language is that of McMillan's SMV manual, in a profile of its own where the manual is silent: see `specs/Text.antt`.
#![tactic(auto)]

mod bytes;
mod keyword;
pub mod laws;
mod lexing;
mod piece;
mod sign;
mod token;

pub use keyword::Keyword;
pub use lexing::{MOST_BYTES, lex};
pub use sign::Sign;
pub use token::{LexRefusal, Token, TokenKind};
