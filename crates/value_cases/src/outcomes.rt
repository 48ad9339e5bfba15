//! What an expression comes to at two states of a model, of which the second is the next one.
//!
//! The states are those that the model's assignments name: `init` gives the values now, `next` those of the next state.

ghost use Rattle.kripke_model.specs.Evaluable.{IsEvaluable};

use crate::models::model_of;
use case_text::fault::Fault;
use case_text::telling::Telling;
use kripke_model::expressions::{Expr, Outcome, Value};
use kripke_model::models::{Item, Part, Ruled};
use kripke_model::states::State;
use single_states::evaluation::is_state;
use single_states::outcomes::eval_state;
use std::alloc::{AllocError, Global};

/// What the variable's assignment of this part has as its right side, where that is a constant.
fn constant_of(model: &Ruled, part: Part, var: usize) -> Option<Value> {
    for given in model.assigns() {
        if given.part == part && given.var as usize == var {
            return match given.right {
                Expr::Const(value) => Some(value),
                _ => None,
            };
        }
    }
    None
}

/// The state that the assignments of this part name.
fn state_of(alloc: Global, model: &Ruled, part: Part) -> Result<State, Fault> {
    let mut state = State::new(alloc);
    for var in 0..model.vars().len() {
        let value = constant_of(model, part, var).ok_or(Fault::Unasked)?;
        state.push(value)?;
    }
    if !is_state(model, &state) {
        return Err(Fault::Unasked);
    }
    Ok(state)
}

/// What an item's expression comes to at a state and the next one.
#[tactic(auto, using(single_states::proofs::BracesLemmas::evaluable_filled))]
fn outcome_of(
    alloc: Global,
    model: &Ruled,
    item: &Item,
    now: &State,
    next: &State,
) -> Result<Outcome, AllocError>
    requires { IsEvaluable model.now item.now.expr }
{
    eval_state(alloc, model, &item.expr, now, next)
}

/// What the one condition of a model comes to.
fn condition_outcome(alloc: Global, model: &Ruled) -> Result<Outcome, Fault> {
    let now = state_of(alloc, model, Part::Init)?;
    let next = state_of(alloc, model, Part::Next)?;
    match model.trans() {
        [item] => Ok(outcome_of(alloc, model, item, &now, &next)?),
        _ => Err(Fault::Unasked),
    }
}

fn tell_one(model: &Ruled, value: Value, answer: &mut Telling) {
    match value {
        Value::Number(number) => write!(answer, "{number}"),
        Value::Symbol(place) => match model.symbols().get(place as usize) {
            Some(name) => answer.add(name.as_str()),
            None => answer.fail(Fault::Unasked),
        },
    }
}

fn tell_values(model: &Ruled, values: &[Value], answer: &mut Telling) {
    for (index, value) in values.iter().enumerate() {
        if index > 0 {
            answer.add(" ");
        }
        tell_one(model, *value, answer);
    }
}

/// Adds what the one condition of a model comes to: the values, with a space between two, or the kind of the fault.
fn tell_outcome(alloc: Global, model: &Ruled, answer: &mut Telling) {
    match condition_outcome(alloc, model) {
        Ok(Outcome::Values(values)) => tell_values(model, &values, answer),
        Ok(Outcome::Fault(kind)) => write!(answer, "{kind:?}"),
        Err(fault) => answer.fail(fault),
    }
}

/// The text with the expression as one more condition of its last module.
fn with_condition(alloc: Global, text: &[u8], expr: &[u8]) -> Result<Vec<u8>, AllocError> {
    let mut whole = text.to_vec(alloc)?;
    whole.extend_from_slice(b"TRANS ")?;
    whole.extend_from_slice(expr)?;
    Ok(whole)
}

/// Adds what an expression comes to in the model of a text. It is read as a condition of the text's last module, which
/// is `main`.
pub fn tell_value(alloc: Global, text: &[u8], expr: &[u8], answer: &mut Telling) {
    match with_condition(alloc, text, expr) {
        Ok(whole) => tell_read(alloc, &whole, answer),
        Err(error) => answer.fail(Fault::Memory(error)),
    }
}

fn tell_read(alloc: Global, text: &[u8], answer: &mut Telling) {
    match model_of(alloc, text) {
        Some(Ok(model)) => tell_outcome(alloc, &model, answer),
        _ => answer.fail(Fault::Unasked),
    }
}
