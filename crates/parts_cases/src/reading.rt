//! From a text to its model.

use kripke_model::models::Ruled;
use smv_instantiate::flatten;
use smv_lexer::lex;
use smv_parser::parse;
use smv_static::accept;
use std::alloc::Global;

/// The model of the text, where it has one that keeps the static rules.
pub fn model_of(alloc: Global, text: &[u8]) -> Option<Ruled> {
    let Ok(tokens) = lex(alloc, text) else {
        return None;
    };
    let Ok(program) = parse(alloc, &tokens) else {
        return None;
    };
    let Ok(flat) = flatten(alloc, &program) else {
        return None;
    };
    accept(alloc, flat).ok()
}
