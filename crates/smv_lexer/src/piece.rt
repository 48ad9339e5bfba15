//! The longest piece at the front of a text: white space, a comment or a token.

ghost use Rattle.std.specs.Prelude.{◌≡◌, ◌<◌, ◌≤◌, length, MatchOption, IfOk, IfErr, pos, true};
ghost use Rattle.kripke_model.specs.Names.{has_shape};
ghost use Rattle.smv_lexer.specs.Bytes.{decimal};
ghost use Rattle.smv_lexer.specs.Scan.{IsFront};
ghost use Rattle.smv_lexer.specs.Text.{IsSmall, Kind, Spells, greatest_number};
ghost use Rattle.smv_lexer.specs.View.{kind, kind_of, IsFaultOf};

use crate::bytes::{atom_len, digit_len, is_digit, is_letter, is_white, line_len};
use crate::keyword::Keyword;
use crate::sign::Sign;
use crate::token::TokenKind;
use kripke_model::Name;
use std::alloc::{AllocError, Global};

// The greatest number that a text may write.
const GREATEST_NUMBER: u32 = 2_147_483_647;

/// A token, or none where the piece is skipped, and how many bytes it takes.
#[derive(Drop)]
pub struct Piece {
    pub kind: Option<TokenKind>,
    pub len: usize,
}

/// Why no piece comes first.
#[derive(Drop)]
pub enum PieceFault {
    BadByte,
    NumberTooLarge,
    Memory,
}

impl From<AllocError> for PieceFault {
    ghost use Rattle.smv_lexer.specs.declared.piece.PieceFault.TheVariants.{Memory};

    ghost from_gives = { λ _ e. e ≡ Memory };

    fn from(_: AllocError) -> Self {
        PieceFault::Memory
    }
}

/// The number that the digits write, unless it is too large.
pub fn number(digits: &[u8]) -> Option<i32>
    ensures { MatchOption result (greatest_number < decimal digits.now)
        (λ n. (n ≡ pos (decimal digits.now)) × (decimal digits.now ≤ greatest_number)) }
{
    let mut value: u32 = 0;
    for byte in digits {
        let digit = u32::from(byte.saturating_sub(b'0'));
        if value > (GREATEST_NUMBER - digit) / 10 {
            return None;
        }
        value = value * 10 + digit;
    }
    Some(value as i32)
}

// A word is reserved, or an atom.
fn word_kind(alloc: Global, word: &[u8]) -> Result<TokenKind, AllocError>
    requires { has_shape word.now ≡ true }
    ensures spells { IfOk result (λ k. Spells word.now (Some (kind k))) }
    ensures small { IfOk result (λ k. IsSmall (Some (kind k))) }
{
    if let Some(keyword) = Keyword::find(word) {
        return Ok(TokenKind::Key(keyword));
    }
    Ok(TokenKind::Word(Name::from_bytes(alloc, word)?))
}

// The digits as a token, unless the number is too large.
fn number_kind(digits: &[u8]) -> Option<TokenKind>
    ensures { MatchOption result (greatest_number < decimal digits.now)
        (λ k. (kind k ≡ Kind.number (pos (decimal digits.now)))
        × (decimal digits.now ≤ greatest_number)) }
{
    let value = number(digits)?;
    Some(TokenKind::Number(value))
}

/// The longest piece at the front. Its first byte, or its first two, tell its sort.
pub fn next_piece(alloc: Global, bytes: &[u8]) -> Result<Piece, PieceFault>
    requires { 0 < length bytes.now }
    ensures piece { IfOk result (λ p. IsFront bytes.now p.len (kind_of p.kind)) }
    ensures small { IfOk result (λ p. IsSmall (kind_of p.kind)) }
    ensures fault { IfErr result (IsFaultOf bytes.now) }
{
    let Some((first, rest)) = bytes.split_first() else {
        unreachable!()
    };
    if is_white(*first) {
        return Ok(Piece { kind: None, len: 1 });
    }
    if is_letter(*first) {
        let len = 1 + atom_len(rest);
        let kind = word_kind(alloc, &bytes[..len])?;
        return Ok(Piece {
            kind: Some(kind),
            len,
        });
    }
    if is_digit(*first) {
        let len = 1 + digit_len(rest);
        let Some(kind) = number_kind(&bytes[..len]) else {
            return Err(PieceFault::NumberTooLarge);
        };
        return Ok(Piece {
            kind: Some(kind),
            len,
        });
    }
    if bytes.starts_with(b"--") {
        return Ok(Piece {
            kind: None,
            len: 2 + line_len(&bytes[2..]),
        });
    }
    match Sign::find(bytes) {
        Some(sign) => Ok(Piece {
            kind: Some(TokenKind::Sign(sign)),
            len: sign.text().len(),
        }),
        None => Err(PieceFault::BadByte),
    }
}
