// From a model's text to its model.
ghost use Rattle.std.specs.Prelude.{◌≡◌, ◌≤◌, IfErr, IfOk, List, length, ℕ};
ghost use Rattle.kripke_model.specs.Flat.{IsFlat};
ghost use Rattle.smv_lexer.specs.Text as bytes_and_tokens;
ghost use Rattle.smv_lexer.specs.Text.{most_bytes};
ghost use Rattle.smv_lexer.specs.View.{views};
ghost use Rattle.smv_parser.specs.ProgramView as programs;
ghost use Rattle.smv_session.specs.Source.{HasFlat, HasProgram, HasRuled, HasTokens};
ghost use Rattle.smv_session.specs.Source.{line_at as line_at_byte, token_line as line_of_token};
ghost use Rattle.smv_session.specs.Told.{Applies};

use kripke_model::models::{FlatModel, Ruled};
use smv_instantiate::flatten;
use smv_lexer::{LexRefusal, Token, lex};
use smv_parser::{ParseRefusal, Program, parse};
use smv_static::accept;
use smv_texts::Refusal;
use std::alloc::Global;

fn line_feeds(bytes: &[u8]) -> usize
    ensures { result ≡ bytes_and_tokens.line_feeds bytes.now }
{
    bytes.iter().filter(|byte| **byte == b'\n').count()
}

/// The line of the byte at this place, counted from 1. The place after the last byte is on the line
/// that the last line feed begins.
fn line_at(text: &[u8], at: usize) -> u32
    requires few { length text.now ≤ most_bytes }
    requires within { at ≤ length text.now }
    ensures { result ≡ line_at_byte text.now at }
{
    1 + line_feeds(&text[..at]) as u32
}

/// The line of the token at this place among the tokens, or of the end of the text.
fn token_line(text: &[u8], tokens: &[Token], at: usize) -> u32
    requires { length text.now ≤ most_bytes }
    ensures { result ≡ line_of_token text.now (views tokens.now) at }
{
    match tokens.get(at) {
        Some(token) => token.line,
        None => line_at(text, text.len()),
    }
}

/// The tokens of the text.
fn tokens_of(alloc: Global, text: &[u8]) -> Result<Vec<Token>, Refusal>
    ensures tokens { IfOk result (λ ts. HasTokens text.now (views ts.items)) }
    ensures refused { IfErr result (Applies text.now) }
{
    match lex(alloc, text) {
        Ok(tokens) => Ok(tokens),
        Err(LexRefusal::BadByte { at }) => Err(Refusal::BadByte {
            line: line_at(text, at as usize),
        }),
        Err(LexRefusal::NumberTooLarge { at }) => Err(Refusal::NumberTooLarge {
            line: line_at(text, at as usize),
        }),
        Err(LexRefusal::SourceTooLong) => Err(Refusal::TooLong),
        Err(LexRefusal::Memory) => Err(Refusal::Memory),
    }
}

/// The program of the text, whose tokens these are.
fn program_of(alloc: Global, text: &[u8], tokens: &[Token]) -> Result<Program, Refusal>
    requires { HasTokens text.now (views tokens.now) }
    ensures program { IfOk result (λ p. HasProgram text.now (programs.program p)) }
    ensures refused { IfErr result (Applies text.now) }
{
    match parse(alloc, tokens) {
        Ok(program) => Ok(program),
        Err(ParseRefusal::Syntax { at }) => Err(Refusal::NoProgram {
            line: token_line(text, tokens, at),
        }),
        Err(ParseRefusal::TooDeep { at }) => Err(Refusal::TooDeep {
            line: token_line(text, tokens, at),
        }),
        Err(ParseRefusal::Memory) => Err(Refusal::Memory),
    }
}

/// The flat model of a text with this program.
fn flat_of(alloc: Global, program: &Program) -> Result<FlatModel, Refusal>
    requires { (bytes : List ℕ) × HasProgram bytes (programs.program program.now) }
    ensures flat { (bytes : List ℕ) → HasProgram bytes (programs.program program.now)
        → IfOk result (HasFlat bytes) }
    ensures shape { IfOk result (λ m. IsFlat m) }
    ensures refused { (bytes : List ℕ) → HasProgram bytes (programs.program program.now)
        → IfErr result (Applies bytes) }
{
    match flatten(alloc, program) {
        Ok(flat) => Ok(flat),
        Err(refusal) => Err(Refusal::NotFlat(refusal)),
    }
}

/// The model of a text with this flat model.
fn ruled_of(alloc: Global, flat: FlatModel) -> Result<Ruled, Refusal>
    requires { IsFlat flat }
    ensures ruled { (bytes : List ℕ) → HasFlat bytes flat → IfOk result (HasRuled bytes) }
    ensures refused { (bytes : List ℕ) → HasFlat bytes flat → IfErr result (Applies bytes) }
{
    match accept(alloc, flat) {
        Ok(model) => Ok(model),
        Err(refusal) => Err(Refusal::BreaksRule(refusal)),
    }
}

/// The model of the text, if no refusal that comes before the count of its bits applies.
pub(crate) fn read_model(alloc: Global, text: &[u8]) -> Result<Ruled, Refusal>
    ensures ruled { IfOk result (HasRuled text.now) }
    ensures refused { IfErr result (Applies text.now) }
{
    let tokens = tokens_of(alloc, text)?;
    let program = program_of(alloc, text, &tokens)?;
    let flat = flat_of(alloc, &program)?;
    ruled_of(alloc, flat)
}
