//! The values of an expression at a pair of states, as one list.

ghost use Rattle.std.specs.Prelude.{◌≡◌, IfOk, OnOk};
ghost use Rattle.single_states.specs.Braces.{IsFilled, AreFilled, AreFilledArms};
ghost use Rattle.kripke_model.specs.Evaluation.{eval, eval_elements, eval_arms};
ghost use Rattle.kripke_model.specs.Reading.{term_of, terms_in, arms_in};
ghost use Rattle.single_states.specs.Outcomes.{result_of, pushed, added, first_added, gathered};

use crate::evaluation::{Summary, boolean_of, truth};
use crate::valuation::summarize;
use kripke_model::expressions::{Arm, BinOp, Expr, FaultKind, Outcome, Value};
use kripke_model::models::Ruled;
use kripke_model::states::State;
use std::alloc::{AllocError, Global};

/// The values of an expression at the state s with the next state t, each once, or its first fault. The values of
/// braces stand in the order of the elements, and those of `union` with the left ones first.
pub fn eval_state(
    alloc: Global,
    model: &Ruled,
    expr: &Expr,
    s: &State,
    t: &State,
) -> Result<Outcome, AllocError>
    requires { IsFilled (term_of expr.now) }
    ensures { IfOk result (λ o. result_of o ≡ eval model.now (term_of expr.now) s.now t.now) }
{
    let mut values = Vec::new(alloc);
    match gather(model, expr, s, t, &mut values)? {
        Ok(()) => Ok(Outcome::Values(values)),
        Err(kind) => Ok(Outcome::Fault(kind)),
    }
}

/// Adds the value where it is not there yet.
fn push_distinct(values: &mut Vec<Value>, value: Value) -> Result<(), AllocError>
    ensures { OnOk result (values.new.items ≡ pushed value values.old.items) }
{
    if values.contains(&value) {
        return Ok(());
    }
    values.push(value)?;
    Ok(())
}

/// Adds the first value, where there is no fault.
fn add_first(
    values: &mut Vec<Value>,
    x: Result<Summary, FaultKind>,
) -> Result<Result<(), FaultKind>, AllocError>
    ensures { IfOk result (λ r. gathered r values.new.items ≡ first_added values.old.items x) }
{
    match x {
        Ok(x) => {
            push_distinct(values, x.first)?;
            Ok(Ok(()))
        }
        Err(kind) => Ok(Err(kind)),
    }
}

/// Adds the values of an expression that are not there yet, up to its first fault.
#[cycle(gather)]
fn gather(
    model: &Ruled,
    expr: &Expr,
    s: &State,
    t: &State,
    values: &mut Vec<Value>,
) -> Result<Result<(), FaultKind>, AllocError>
    requires { IsFilled (term_of expr.now) }
    ensures { IfOk result
        (λ r. gathered r values.new.items
        ≡ added values.old.items (eval model.now (term_of expr.now) s.now t.now)) }
{
    match expr {
        Expr::Next(e) => gather(model, e, t, t, values),
        Expr::Binary(op, a, b) => match op {
            BinOp::Union => match gather(model, a, s, t, values)? {
                Ok(()) => gather(model, b, s, t, values),
                Err(kind) => Ok(Err(kind)),
            },
            _ => add_first(values, summarize(model, expr, s, t)),
        },
        Expr::Braces(elements) => gather_elements(model, elements, s, t, values),
        Expr::Case(arms) => gather_chosen(model, arms, s, t, values),
        Expr::Const(_)
        | Expr::Var(_)
        | Expr::Running(_)
        | Expr::Not(_)
        | Expr::Quant(_, _)
        | Expr::Until(_, _, _) => add_first(values, summarize(model, expr, s, t)),
    }
}

/// Adds the values of each element that are not there yet, up to the first fault.
#[cycle(gather)]
fn gather_elements(
    model: &Ruled,
    elements: &[Expr],
    s: &State,
    t: &State,
    values: &mut Vec<Value>,
) -> Result<Result<(), FaultKind>, AllocError>
    requires { AreFilled (terms_in elements.now) }
    ensures { IfOk result
        (λ r. gathered r values.new.items
        ≡ added values.old.items (eval_elements model.now (terms_in elements.now) s.now t.now)) }
{
    for e in elements {
        if let Err(kind) = gather(model, e, s, t, values)? {
            return Ok(Err(kind));
        }
    }
    Ok(Ok(()))
}

/// Adds the values of the first right side whose guard is 1, or the number 1 where there is none.
#[cycle(gather)]
fn gather_chosen(
    model: &Ruled,
    arms: &[Arm],
    s: &State,
    t: &State,
    values: &mut Vec<Value>,
) -> Result<Result<(), FaultKind>, AllocError>
    requires { AreFilledArms (arms_in arms.now) }
    ensures { IfOk result
        (λ r. gathered r values.new.items
        ≡ added values.old.items (eval_arms model.now (arms_in arms.now) s.now t.now)) }
{
    for arm in arms {
        match boolean_of(summarize(model, &arm.guard, s, t)) {
            Ok(true) => return gather(model, &arm.right, s, t, values),
            Ok(false) => {}
            Err(kind) => return Ok(Err(kind)),
        }
    }
    add_first(values, Ok(Summary::one(truth(true))))
}
