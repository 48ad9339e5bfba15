//! What is read in lists: one after the other, between commas, and in parentheses.

ghost use Rattle.std.specs.Prelude.{◌≡◌, ◌≤◌, ◌<◌, ◌∷◌, ℕ, Bool, List, length, map, IfOk};
ghost use Rattle.smv_lexer.specs.Text.{Placed};
ghost use Rattle.smv_lexer.specs.View as tokens;
ghost use Rattle.smv_lexer.specs.View.{views};
ghost use Rattle.smv_parser.specs.Gives.{Gives};
ghost use Rattle.smv_parser.specs.ProgramReading.{commas, inside, parameters};
ghost use Rattle.smv_parser.specs.Tests.{is_sign};
ghost use Rattle.reader_laws.specs.Reading.{Reading, both, enclosed, first_is, many};

use crate::reader::{Failure, after_sign, begins_with_sign};
use smv_lexer::{Sign, Token};
use std::alloc::Global;

/// What is read from the tokens that begin with it.
pub trait Item: Drop {
    ghost Tree: { Type 0 };

    ghost tree: { Self → Tree };

    ghost reading: { List Placed → Reading Placed Tree };

    /// It, with the tokens after it.
    fn read(alloc: Global, tokens: &[Token]) -> Result<(Self, &[Token]), Failure>
        ensures reads { Gives (λ x. tree x.0) (λ x. views x.1.now) result
            (reading (views tokens.now)) }
        ensures shorter { IfOk result (λ x. length x.1.now < length tokens.now) };
}

/// An item that is known by its first token.
pub trait Led: Item {
    ghost begins: { Placed → Bool };

    /// Whether this token begins one.
    fn is_begun_by(token: &Token) -> bool
        ensures { result ≡ begins (tokens.view token.now) };
}

fn begins<T: Led>(tokens: &[Token]) -> bool
    ensures { result ≡ first_is T.begins (views tokens.now) }
{
    match tokens.split_first() {
        None => false,
        Some((token, _)) => T::is_begun_by(token),
    }
}

/// Items as long as the next token begins one.
pub fn read_items<T: Led>(alloc: Global, tokens: &[Token]) -> Result<(Vec<T>, &[Token]), Failure>
    ensures reads { Gives (λ x. map T.tree x.0.items) (λ x. views x.1.now) result
        (many T.begins T.reading (length (views tokens.now)) (views tokens.now)) }
    ensures within { IfOk result (λ x. length x.1.now ≤ length tokens.now) }
{
    let mut items = Vec::new(alloc);
    let mut rest = tokens;
    while begins::<T>(rest) {
        let (item, after) = T::read(alloc, rest)?;
        items.push(item)?;
        rest = after;
    }
    Ok((items, rest))
}

/// One item, and then any number with a comma before each.
pub fn read_commas<T: Item>(alloc: Global, tokens: &[Token]) -> Result<(Vec<T>, &[Token]), Failure>
    ensures reads { Gives (λ x. map T.tree x.0.items) (λ x. views x.1.now) result
        (commas T.reading (views tokens.now)) }
    ensures shorter { IfOk result (λ x. length x.1.now < length tokens.now) }
{
    let (first, mut rest) = T::read(alloc, tokens)?;
    let mut items = Vec::new(alloc);
    items.push(first)?;
    while begins_with_sign(rest, Sign::Comma) {
        let after = after_sign(rest, Sign::Comma)?;
        let (next, after) = T::read(alloc, after)?;
        items.push(next)?;
        rest = after;
    }
    Ok((items, rest))
}

/// What stands behind an opening parenthesis, up to the one that closes it.
fn read_inside<T: Item>(alloc: Global, tokens: &[Token]) -> Result<(Vec<T>, &[Token]), Failure>
    ensures reads { Gives (λ x. map T.tree x.0.items) (λ x. views x.1.now) result
        (inside T.reading (views tokens.now)) }
    ensures shorter { IfOk result (λ x. length x.1.now < length tokens.now) }
{
    if begins_with_sign(tokens, Sign::CloseParen) {
        let rest = after_sign(tokens, Sign::CloseParen)?;
        return Ok((Vec::new(alloc), rest));
    }
    let (items, rest) = read_commas(alloc, tokens)?;
    let rest = after_sign(rest, Sign::CloseParen)?;
    Ok((items, rest))
}

/// Parameters in parentheses, and none where no parenthesis opens.
pub fn read_parameters<T: Item>(
    alloc: Global,
    tokens: &[Token],
) -> Result<(Vec<T>, &[Token]), Failure>
    ensures reads { Gives (λ x. map T.tree x.0.items) (λ x. views x.1.now) result
        (parameters T.reading (views tokens.now)) }
    ensures within { IfOk result (λ x. length x.1.now ≤ length tokens.now) }
{
    if begins_with_sign(tokens, Sign::OpenParen) {
        let rest = after_sign(tokens, Sign::OpenParen)?;
        let (items, rest) = read_inside(alloc, rest)?;
        return Ok((items, rest));
    }
    Ok((Vec::new(alloc), tokens))
}

/// Two items, the first with the sign `middle` after it and the second with a semicolon.
pub fn read_both<A: Item, B: Item>(
    alloc: Global,
    tokens: &[Token],
    middle: Sign,
) -> Result<(A, B, &[Token]), Failure>
    ensures reads { Gives (λ x. (A.tree x.0, B.tree x.1)) (λ x. views x.2.now) result
        (both (enclosed (is_sign middle) A.reading) (enclosed (is_sign Sign.Semicolon) B.reading)
        (views tokens.now)) }
    ensures shorter { IfOk result (λ x. length x.2.now < length tokens.now) }
{
    let (first, rest) = A::read(alloc, tokens)?;
    let rest = after_sign(rest, middle)?;
    let (second, rest) = B::read(alloc, rest)?;
    let rest = after_sign(rest, Sign::Semicolon)?;
    Ok((first, second, rest))
}
