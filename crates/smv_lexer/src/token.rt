//! Tokens, and why a text has none.

use crate::keyword::Keyword;
use crate::sign::Sign;
use kripke_model::Name;
use std::alloc::{AllocError, AllocFailed, Global};

/// What a token is.
#[derive(Debug, Drop)]
pub enum TokenKind {
    /// An atom: a letter, and then letters, digits, `_` and `-`. A `-` belongs to it only before a letter, a digit or `_`.
    Word(Name),
    /// A run of decimal digits, from 0 to 2,147,483,647.
    Number(i32),
    Key(Keyword),
    Sign(Sign),
}

/// A token and its place in the text.
#[derive(Debug, Drop)]
pub struct Token {
    pub kind: TokenKind,
    /// The byte that it begins at, counted from 0.
    pub at: u32,
    /// The byte after its last one.
    pub end: u32,
    /// Its line, counted from 1. A line ends with its line feed.
    pub line: u32,
}

/// Why a text has no tokens. Of a bad byte and a number that is too large the first is answered.
#[derive(Debug, Drop)]
pub enum LexRefusal {
    /// The byte at this place begins no token.
    BadByte { at: u32 },
    /// The number that begins at this place is above 2,147,483,647.
    NumberTooLarge { at: u32 },
    /// The text has more than 1,048,576 bytes. This is answered before any other.
    SourceTooLong,
    /// Memory ran out.
    Memory,
}

impl From<AllocError> for LexRefusal {
    ghost use Rattle.std.specs.Prelude.{◌≡◌};
    ghost use Rattle.smv_lexer.specs.declared.token.LexRefusal.TheVariants.{Memory};

    ghost from_gives = { λ _ e. e ≡ Memory };

    fn from(_: AllocError) -> Self {
        LexRefusal::Memory
    }
}

impl<T: Drop> From<AllocFailed<T>> for LexRefusal {
    ghost use Rattle.std.specs.Prelude.{◌≡◌};
    ghost use Rattle.smv_lexer.specs.declared.token.LexRefusal.TheVariants.{Memory};

    ghost from_gives = { λ _ e. e ≡ Memory };

    fn from(_: AllocFailed<T>) -> Self {
        LexRefusal::Memory
    }
}
