//! The tokens of a text, and its program.

use case_text::fault::Fault;
use case_text::telling::Telling;
use smv_lexer::{LexRefusal, Token, TokenKind, lex};
use smv_parser::{ParseRefusal, Program, parse};
use std::alloc::{AllocError, Global};

/// Adds why a text has no tokens.
fn tell_unread(refusal: LexRefusal, answer: &mut Telling) {
    match refusal {
        LexRefusal::BadByte { at } => write!(answer, "bad byte {at}"),
        LexRefusal::NumberTooLarge { at } => write!(answer, "number too large {at}"),
        LexRefusal::SourceTooLong => answer.add("too long"),
        LexRefusal::Memory => answer.fail(Fault::Memory(AllocError)),
    }
}

/// Adds why tokens are no program.
fn tell_refused(refusal: ParseRefusal, answer: &mut Telling) {
    match refusal {
        ParseRefusal::Syntax { at } => write!(answer, "syntax {at}"),
        ParseRefusal::TooDeep { at } => write!(answer, "deep {at}"),
        ParseRefusal::Memory => answer.fail(Fault::Memory(AllocError)),
    }
}

/// The tokens of a text. Where it has none, adds why.
fn tokens_of(alloc: Global, text: &[u8], answer: &mut Telling) -> Option<Vec<Token>> {
    match lex(alloc, text) {
        Ok(tokens) => Some(tokens),
        Err(refusal) => {
            tell_unread(refusal, answer);
            None
        }
    }
}

/// The program of tokens. Where they have none, adds why.
fn parsed(alloc: Global, tokens: &[Token], answer: &mut Telling) -> Option<Program> {
    match parse(alloc, tokens) {
        Ok(program) => Some(program),
        Err(refusal) => {
            tell_refused(refusal, answer);
            None
        }
    }
}

/// The program of a text. Where it has none, adds why.
pub fn program_of(alloc: Global, text: &[u8], answer: &mut Telling) -> Option<Program> {
    let tokens = tokens_of(alloc, text, answer)?;
    parsed(alloc, &tokens, answer)
}

/// Adds what a token is.
fn tell_kind(kind: &TokenKind, answer: &mut Telling) {
    match kind {
        TokenKind::Word(name) => write!(answer, "word {}", name.as_str()),
        TokenKind::Number(number) => write!(answer, "number {number}"),
        TokenKind::Key(key) => write!(answer, "{key:?}"),
        TokenKind::Sign(sign) => write!(answer, "{sign:?}"),
    }
}

/// Adds the token: what it is, its first byte, the byte after its last one, and its line.
fn tell_token(token: &Token, answer: &mut Telling) {
    tell_kind(&token.kind, answer);
    let Token { at, end, line, .. } = token;
    write!(answer, " {at} {end} {line}");
}

fn tell_list(tokens: &[Token], answer: &mut Telling) {
    if tokens.is_empty() {
        answer.add("none");
    }
    for (index, token) in tokens.iter().enumerate() {
        if index > 0 {
            answer.add("; ");
        }
        tell_token(token, answer);
    }
}

/// Adds the tokens of a text, or why it has none.
pub fn tell_tokens(alloc: Global, text: &[u8], answer: &mut Telling) {
    if let Some(tokens) = tokens_of(alloc, text, answer) {
        tell_list(&tokens, answer);
    }
}
