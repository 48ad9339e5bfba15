//! From a text to its model.

ghost use Rattle.std.specs.Prelude.{IfSome};
ghost use Rattle.kripke_model.specs.Flat.{IsFlat};

use case_text::fault::Fault;
use case_text::telling::Telling;
use kripke_model::models::{FlatModel, Ruled};
use kripke_model::refusals::StaticRefusal;
use smv_instantiate::flatten;
use smv_lexer::lex;
use smv_parser::parse;
use smv_static::accept;
use std::alloc::{AllocError, Global};

/// The flat model of the text. None where it has none.
fn flat_of(alloc: Global, text: &[u8]) -> Option<FlatModel>
    ensures { IfSome result (λ model. IsFlat model) }
{
    let tokens = lex(alloc, text).ok()?;
    let program = parse(alloc, &tokens).ok()?;
    flatten(alloc, &program).ok()
}

/// The model of the text, or the static rule that it breaks. None where the text has no flat model.
pub fn model_of(alloc: Global, text: &[u8]) -> Option<Result<Ruled, StaticRefusal>> {
    Some(accept(alloc, flat_of(alloc, text)?))
}

/// The number of the static rule, and the line.
fn rule_of(refusal: StaticRefusal) -> Result<(u32, u32), Fault> {
    match refusal {
        StaticRefusal::AssignedTwice { line } => Ok((17, line)),
        StaticRefusal::CurrentBesideOther { line } => Ok((18, line)),
        StaticRefusal::CircularAssignment { line } => Ok((19, line)),
        StaticRefusal::NextNotAllowed { line } => Ok((20, line)),
        StaticRefusal::FormulaNotAllowed { line } => Ok((21, line)),
        StaticRefusal::Memory => Err(Fault::Memory(AllocError)),
    }
}

/// Adds the number of the static rule that is broken, and the line.
pub fn tell_refusal(refusal: StaticRefusal, answer: &mut Telling) {
    match rule_of(refusal) {
        Ok((number, line)) => write!(answer, "E{number} line {line}"),
        Err(fault) => answer.fail(fault),
    }
}
