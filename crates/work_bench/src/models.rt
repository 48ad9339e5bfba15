//! From a text to its model.

use kripke_model::models::Ruled;
use smv_instantiate::flatten;
use smv_lexer::lex;
use smv_parser::parse;
use smv_static::accept;
use std::alloc::Global;

/// The model of the text. None where it has none.
pub fn model_of(alloc: Global, text: &[u8]) -> Option<Ruled> {
    let tokens = lex(alloc, text).ok()?;
    let program = parse(alloc, &tokens).ok()?;
    let flat = flatten(alloc, &program).ok()?;
    accept(alloc, flat).ok()
}
