//! What readers of tokens share.

ghost use Rattle.std.specs.Prelude.{◌≡◌, ◌<◌, length, map, IfOk};
ghost use Rattle.reader_laws.specs.Reading.{accept, expect, first_is};
ghost use Rattle.smv_lexer.specs.View as tokens;
ghost use Rattle.smv_lexer.specs.View.{views};
ghost use Rattle.smv_parser.specs.Gives.{Gives, GivesRest};
ghost use Rattle.smv_parser.specs.Reading.{front_line};
ghost use Rattle.smv_parser.specs.Tests.{is_sign, is_key, name_of};

use kripke_model::Name;
use smv_lexer::{Keyword, Sign, Token, TokenKind};
use std::alloc::{AllocError, AllocFailed, Global};

/// Why reading stops, with the number of tokens that are left there.
#[derive(Drop)]
pub enum Failure {
    /// Nothing goes on with the token there.
    Syntax(usize),
    /// Only something too deep goes on with it.
    TooDeep(usize),
    Memory,
}

impl From<AllocError> for Failure {
    ghost use Rattle.smv_parser.specs.declared.reader.Failure.TheVariants.{Memory};

    ghost from_gives = { λ _ e. e ≡ Memory };

    fn from(_: AllocError) -> Self {
        Failure::Memory
    }
}

impl<T: Drop> From<AllocFailed<T>> for Failure {
    ghost use Rattle.smv_parser.specs.declared.reader.Failure.TheVariants.{Memory};

    ghost from_gives = { λ _ e. e ≡ Memory };

    fn from(_: AllocFailed<T>) -> Self {
        Failure::Memory
    }
}

/// Whether the token is this sign.
pub fn token_is_sign(token: &Token, sign: Sign) -> bool
    ensures { result ≡ is_sign sign (tokens.view token.now) }
{
    match &token.kind {
        TokenKind::Sign(other) => *other == sign,
        TokenKind::Word(_) | TokenKind::Number(_) | TokenKind::Key(_) => false,
    }
}

/// Whether the token is this reserved word.
pub fn token_is_key(token: &Token, key: Keyword) -> bool
    ensures { result ≡ is_key key (tokens.view token.now) }
{
    match &token.kind {
        TokenKind::Key(other) => *other == key,
        TokenKind::Word(_) | TokenKind::Number(_) | TokenKind::Sign(_) => false,
    }
}

/// The tokens after a sign.
#[tactic(auto, unfolding(reader_laws::specs::Reading::expect))]
pub fn after_sign(tokens: &[Token], sign: Sign) -> Result<&[Token], Failure>
    ensures reads { GivesRest (λ r. views r.now) result (expect (is_sign sign) (views tokens.now)) }
    ensures shorter { IfOk result (λ r. length r.now < length tokens.now) }
{
    match tokens.split_first() {
        None => Err(Failure::Syntax(0)),
        Some((token, rest)) => {
            if token_is_sign(token, sign) {
                Ok(rest)
            } else {
                Err(Failure::Syntax(tokens.len()))
            }
        }
    }
}

/// The tokens after a reserved word.
#[tactic(auto, unfolding(reader_laws::specs::Reading::expect))]
pub fn after_key(tokens: &[Token], key: Keyword) -> Result<&[Token], Failure>
    ensures reads { GivesRest (λ r. views r.now) result (expect (is_key key) (views tokens.now)) }
    ensures shorter { IfOk result (λ r. length r.now < length tokens.now) }
{
    match tokens.split_first() {
        None => Err(Failure::Syntax(0)),
        Some((token, rest)) => {
            if token_is_key(token, key) {
                Ok(rest)
            } else {
                Err(Failure::Syntax(tokens.len()))
            }
        }
    }
}

/// The name that comes first, with the tokens after it.
#[tactic(auto, unfolding(reader_laws::specs::Reading::accept, reader_laws::specs::Reading::accepted))]
pub fn after_name(alloc: Global, tokens: &[Token]) -> Result<(Name, &[Token]), Failure>
    ensures reads { Gives (λ x. x.0) (λ x. views x.1.now) result
        (accept name_of (views tokens.now)) }
    ensures shorter { IfOk result (λ x. length x.1.now < length tokens.now) }
{
    match tokens.split_first() {
        None => Err(Failure::Syntax(0)),
        Some((token, rest)) => match &token.kind {
            TokenKind::Word(name) => Ok((name.copy(alloc)?, rest)),
            TokenKind::Number(_) | TokenKind::Key(_) | TokenKind::Sign(_) => {
                Err(Failure::Syntax(tokens.len()))
            }
        },
    }
}

/// The line of the first token, and 0 where there is none.
pub fn first_line(tokens: &[Token]) -> u32
    ensures { result ≡ front_line (views tokens.now) }
{
    match tokens.split_first() {
        None => 0,
        Some((token, _)) => token.line,
    }
}

/// Whether this sign comes next.
pub fn begins_with_sign(tokens: &[Token], sign: Sign) -> bool
    ensures { result ≡ first_is (is_sign sign) (views tokens.now) }
{
    match tokens.split_first() {
        None => false,
        Some((token, _)) => token_is_sign(token, sign),
    }
}
