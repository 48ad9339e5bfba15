//! What comes of building the parts of a model.

ghost use Rattle.std.specs.Prelude.{◌<◌, ◌^◌};
ghost use Rattle.bdd_nodes.specs.Steps.{IsBlankOf};

use bdd_nodes::Steps;
use case_text::fault::Fault;
use kripke_model::expressions::{FaultKind, Value};
use kripke_model::models::Ruled;
use kripke_model::states::State;
use std::alloc::{AllocError, Global};
use std::marker::Brand;
use std::sync::ledger::{Blank, Ledger};
use trans_parts::{BuildRefusal, Parts};

/// How many answers an engine remembers.
const CACHE: u32 = 1_000;

/// The refusal of the model; `None` where it has parts.
fn build_refusal<L: Ledger>(
    alloc: Global,
    model: Ruled,
    order: &[u32],
    limit: u32,
    blank: Blank,
) -> Option<BuildRefusal>
    requires blank { IsBlankOf L.name L.parts blank }
    requires limit { limit < 2 ^ 31 }
{
    let mut steps = Steps::<L>::new(blank);
    match Parts::build(alloc, model, order, limit, CACHE, &mut steps) {
        Ok(_) => None,
        Err(refusal) => Some(refusal),
    }
}

fn tell_value(model: &Ruled, value: Value, answer: &mut String) -> Result<(), AllocError> {
    match value {
        Value::Number(i) => write!(answer, "{i}"),
        Value::Symbol(c) => match model.symbols().get(c as usize) {
            Some(name) => answer.push_str(name.as_str()),
            None => write!(answer, "symbol {c}"),
        },
    }
}

/// Adds the values of all variables, each name between these two texts.
fn tell_state(
    model: &Ruled,
    front: &str,
    behind: &str,
    s: &State,
    answer: &mut String,
) -> Result<(), AllocError> {
    for (var, value) in model.vars().iter().zip(s.values()) {
        answer.push_str(front)?;
        answer.push_str(var.name.as_str())?;
        answer.push_str(behind)?;
        tell_value(model, *value, answer)?;
    }
    Ok(())
}

fn tell_fault(
    model: &Ruled,
    kind: FaultKind,
    line: u32,
    here: &State,
    after: Option<State>,
    answer: &mut String,
) -> Result<(), AllocError> {
    write!(answer, "fault line {line} {kind:?}")?;
    tell_state(model, " ", "=", here, answer)?;
    match after {
        Some(next) => tell_state(model, " next(", ")=", &next, answer),
        None => Ok(()),
    }
}

/// Adds what comes of building the parts of the model, with its variables in this order, in a store of this limit.
pub fn tell_build(
    alloc: Global,
    model: &Ruled,
    order: &[u32],
    limit: u32,
    answer: &mut String,
) -> Result<(), Fault>
    requires { limit < 2 ^ 31 }
{
    let copy = model.copy(alloc)?;
    match build_refusal::<Brand>(alloc, copy, order, limit, Blank::new(1)) {
        None => answer.push_str("built")?,
        Some(BuildRefusal::TooManyBits { bits }) => write!(answer, "{bits} bits")?,
        Some(BuildRefusal::BadOrder) => answer.push_str("bad order")?,
        Some(BuildRefusal::Fault(fault)) => {
            let after = fault.after;
            tell_fault(model, fault.kind, fault.line, &fault.here, after, answer)?
        }
        Some(BuildRefusal::Full { held }) => {
            let levels = held.levels();
            let nodes = held.number();
            write!(answer, "full {levels} levels {nodes} nodes")?
        }
        Some(BuildRefusal::Memory) => return Err(Fault::Memory(AllocError)),
    }
    Ok(())
}
