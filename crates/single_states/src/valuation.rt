//! The values of an expression at a pair of states, by what the tests of states need of them. Nothing here takes memory.

ghost use Rattle.std.specs.Prelude.{◌≡◌, ◌<◌, length};
ghost use Rattle.kripke_model.specs.Evaluation.{eval, eval_elements, eval_arms};
ghost use Rattle.single_states.specs.Summary.{summarized, found};
ghost use Rattle.single_states.specs.Braces.{IsFilled, AreFilled, AreFilledArms};
ghost use Rattle.kripke_model.specs.Reading.{term_of, terms_in, arms_in};

use crate::evaluation::{
    Summary, boolean_of, combined, decided, either, first_is, negated, runs, single_of, truth,
    united,
};
use kripke_model::expressions::{Arm, BinOp, Expr, FaultKind, Value};
use kripke_model::models::Ruled;
use kripke_model::states::State;

/// The summary of the values of an expression, or its first fault.
#[cycle(evaluate)]
pub(crate) fn summarize(
    model: &Ruled,
    expr: &Expr,
    s: &State,
    t: &State,
) -> Result<Summary, FaultKind>
    requires { IsFilled (term_of expr.now) }
    ensures { result ≡ summarized (eval model.now (term_of expr.now) s.now t.now) }
{
    match expr {
        Expr::Const(value) => Ok(Summary::one(*value)),
        Expr::Var(x) => Ok(Summary::one(s.value(*x))),
        Expr::Running(p) => Ok(Summary::one(truth(runs(model, s, *p)))),
        Expr::Next(e) => summarize(model, e, t, t),
        Expr::Not(e) => negated(summarize(model, e, s, t)),
        Expr::Binary(op, a, b) => match op {
            BinOp::Union => united(summarize(model, a, s, t), summarize(model, b, s, t)),
            BinOp::Member => {
                let v = single_of(summarize(model, a, s, t))?;
                decided(has(model, b, s, t, v))
            }
            _ => combined(*op, summarize(model, a, s, t), summarize(model, b, s, t)),
        },
        Expr::Braces(elements) => summarize_elements(model, elements, s, t),
        Expr::Case(arms) => summarize_arms(model, arms, s, t),
        Expr::Quant(_, _) | Expr::Until(_, _, _) => Err(FaultKind::NotBoolean),
    }
}

#[cycle(evaluate)]
pub(crate) fn summarize_elements(
    model: &Ruled,
    elements: &[Expr],
    s: &State,
    t: &State,
) -> Result<Summary, FaultKind>
    requires some { 0 < length elements.now }
    requires filled { AreFilled (terms_in elements.now) }
    ensures { result ≡ summarized (eval_elements model.now (terms_in elements.now) s.now t.now) }
{
    let mut all = summarize(model, &elements[0], s, t)?;
    for i in 1..elements.len() {
        let next = summarize(model, &elements[i], s, t)?;
        all = all.join(next);
    }
    Ok(all)
}

#[cycle(evaluate)]
pub(crate) fn summarize_arms(
    model: &Ruled,
    arms: &[Arm],
    s: &State,
    t: &State,
) -> Result<Summary, FaultKind>
    requires { AreFilledArms (arms_in arms.now) }
    ensures { result ≡ summarized (eval_arms model.now (arms_in arms.now) s.now t.now) }
{
    for arm in arms {
        let chosen = boolean_of(summarize(model, &arm.guard, s, t))?;
        if chosen {
            return summarize(model, &arm.right, s, t);
        }
    }
    Ok(Summary::one(truth(true)))
}

/// Whether v is among the values of an expression, or its first fault.
#[cycle(evaluate)]
pub(crate) fn has(
    model: &Ruled,
    expr: &Expr,
    s: &State,
    t: &State,
    v: Value,
) -> Result<bool, FaultKind>
    requires { IsFilled (term_of expr.now) }
    ensures { result ≡ found v (eval model.now (term_of expr.now) s.now t.now) }
{
    match expr {
        Expr::Next(e) => has(model, e, t, t, v),
        Expr::Binary(op, a, b) => match op {
            BinOp::Union => either(has(model, a, s, t, v), has(model, b, s, t, v)),
            _ => first_is(summarize(model, expr, s, t), v),
        },
        Expr::Braces(elements) => has_in_elements(model, elements, s, t, v),
        Expr::Case(arms) => has_in_arms(model, arms, s, t, v),
        Expr::Const(_)
        | Expr::Var(_)
        | Expr::Running(_)
        | Expr::Not(_)
        | Expr::Quant(_, _)
        | Expr::Until(_, _, _) => first_is(summarize(model, expr, s, t), v),
    }
}

#[cycle(evaluate)]
pub(crate) fn has_in_elements(
    model: &Ruled,
    elements: &[Expr],
    s: &State,
    t: &State,
    v: Value,
) -> Result<bool, FaultKind>
    requires { AreFilled (terms_in elements.now) }
    ensures { result ≡ found v (eval_elements model.now (terms_in elements.now) s.now t.now) }
{
    let mut seen = false;
    for e in elements {
        if has(model, e, s, t, v)? {
            seen = true;
        }
    }
    Ok(seen)
}

#[cycle(evaluate)]
pub(crate) fn has_in_arms(
    model: &Ruled,
    arms: &[Arm],
    s: &State,
    t: &State,
    v: Value,
) -> Result<bool, FaultKind>
    requires { AreFilledArms (arms_in arms.now) }
    ensures { result ≡ found v (eval_arms model.now (arms_in arms.now) s.now t.now) }
{
    for arm in arms {
        let chosen = boolean_of(summarize(model, &arm.guard, s, t))?;
        if chosen {
            return has(model, &arm.right, s, t, v);
        }
    }
    Ok(v == Value::Number(1))
}
