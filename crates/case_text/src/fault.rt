//! What can be wrong with a case, so that it is not run.

use std::alloc::AllocError;
use thiserror::Error;

/// Why a case is not run.
#[derive(Debug, Drop, Error)]
pub enum Fault {
    #[error("no line of a case begins with this word")]
    UnknownWord,
    #[error("the line is out of place")]
    OutOfPlace,
    #[error("this text belongs to no line above it")]
    LooseText,
    #[error("a space at the end of a line is written \\x20")]
    SpaceAtTheEnd,
    #[error("a number is wanted here")]
    NoNumber,
    #[error("a backslash is followed by something that it gives no meaning")]
    BadBackslash,
    #[error("an empty word is written \"\"")]
    EmptyWord,
    #[error("a word is no text")]
    NoText,
    #[error("the case does not end with a status")]
    NoStatus,
    #[error("nothing is asked")]
    NothingAsked,
    #[error("this can't be asked")]
    Unasked,
    #[error("memory ran out")]
    Memory(#[from(alloc)] AllocError),
}

/// Why a case is not run, and the number of the line that is to blame, from 1.
#[derive(Drop)]
pub struct Blame {
    pub line: usize,
    pub fault: Fault,
}
