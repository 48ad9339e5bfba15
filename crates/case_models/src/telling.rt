//! What answers say of states and of refusals.

use bdd_nodes::Held;
use kripke_model::Name;
use kripke_model::expressions::Value;
use kripke_model::models::Ruled;
use kripke_model::states::State;
use std::alloc::AllocError;
use trans_parts::BuildRefusal;

/// The text of the name at a place.
fn name_at(names: &[Name], place: usize) -> &str {
    match names.get(place) {
        Some(name) => name.as_str(),
        None => "?",
    }
}

/// Adds a number that variable x has. A number of the selector is told as its process.
fn tell_number(
    model: &Ruled,
    x: usize,
    number: i32,
    answer: &mut String,
) -> Result<(), AllocError> {
    if x > 0 || !model.has_selector() {
        return write!(answer, "{number}");
    }
    match usize::try_from(number) {
        Ok(place) => answer.push_str(name_at(model.processes(), place)),
        Err(_) => answer.push('?'),
    }
}

/// Adds the value of variable x, behind the variable's name.
fn tell_value(
    model: &Ruled,
    x: usize,
    value: &Value,
    answer: &mut String,
) -> Result<(), AllocError> {
    let name = match model.vars().get(x) {
        Some(var) => var.name.as_str(),
        None => "?",
    };
    write!(answer, " {name}=")?;
    match value {
        Value::Symbol(c) => answer.push_str(name_at(model.symbols(), *c as usize)),
        Value::Number(number) => tell_number(model, x, *number, answer),
    }
}

/// Adds each variable in declared order with its value, the selector first, each behind a space.
pub fn tell_state(model: &Ruled, state: &State, answer: &mut String) -> Result<(), AllocError> {
    for (x, value) in state.values().iter().enumerate() {
        tell_value(model, x, value, answer)?;
    }
    Ok(())
}

/// Adds that a store was full.
pub fn tell_full(held: &Held, answer: &mut String) -> Result<(), AllocError> {
    let nodes = held.number();
    write!(answer, "unknown, {nodes} nodes are too few")
}

/// Adds why there are no diagrams of a model.
pub fn tell_refusal(refusal: &BuildRefusal, answer: &mut String) -> Result<(), AllocError> {
    match refusal {
        BuildRefusal::TooManyBits { bits } => write!(answer, "refused, {bits} bits"),
        BuildRefusal::Fault(fault) => {
            let (kind, line) = (fault.kind, fault.line);
            write!(answer, "refused, {kind:?} in line {line}")
        }
        BuildRefusal::Full { held } => tell_full(held, answer),
        BuildRefusal::BadOrder => answer.push_str("refused, an order of other variables"),
        BuildRefusal::Memory => Err(AllocError),
    }
}
