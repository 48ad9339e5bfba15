//! From a text to its model.

use kripke_model::models::Ruled;
use kripke_model::refusals::{FlatRefusal, StaticRefusal};
use smv_instantiate::flatten;
use smv_lexer::{LexRefusal, lex};
use smv_parser::{ParseRefusal, parse};
use smv_static::accept;
use std::alloc::{AllocError, Global};
use thiserror::Error;

/// The most states of a model: trees have a leaf for each.
const MOST_STATES: usize = 10_000;

/// Why a text has no model that is decided.
#[derive(Debug, Drop, Error)]
pub enum Refusal {
    #[error("no tokens, {0:?}")]
    NoTokens(#[from] LexRefusal),
    #[error("no program, {0:?}")]
    NoProgram(#[from] ParseRefusal),
    #[error("no flat model, {0:?}")]
    NoFlatModel(#[from] FlatRefusal),
    #[error("a rule is broken, {0:?}")]
    BreaksRule(#[from] StaticRefusal),
    #[error("too many states")]
    TooManyStates,
}

/// How many states the model has, where they are few.
fn state_count(model: &Ruled) -> usize {
    let mut count: usize = 1;
    for var in model.vars() {
        count = count.saturating_mul(var.values().len());
    }
    count
}

/// The model of the text.
pub fn model_of(alloc: Global, text: &[u8]) -> Result<Ruled, Refusal> {
    let tokens = lex(alloc, text)?;
    let program = parse(alloc, &tokens)?;
    let flat = flatten(alloc, &program)?;
    let model = accept(alloc, flat)?;
    if state_count(&model) > MOST_STATES {
        return Err(Refusal::TooManyStates);
    }
    Ok(model)
}

/// The text with one more specification.
pub fn with_spec(alloc: Global, text: &[u8], spec: &[u8]) -> Result<Vec<u8>, AllocError> {
    let mut whole = text.to_vec(alloc)?;
    whole.extend_from_slice(b"SPEC ")?;
    whole.extend_from_slice(spec)?;
    Ok(whole)
}
