//! Certificates over two models: one in which x may be set where y was, and y is free; and one in which no state has a
//! next one.

ghost use Rattle.kripke_model.specs.Leaves.{IsModelLeaf};
ghost use Rattle.kripke_model.specs.Reading.{term_of};

use crate::certificates::{Plan, holds};
use crate::leaves::{leaf_in, pair_of};
use crate::rows::Which;
use case_models::formulas::spec_formulas;
use case_models::kinds::trees;
use case_models::reading::model_of;
use kripke_model::expressions::Expr;
use kripke_model::models::Ruled;
use region_sets::SetRefusal;
use std::alloc::Global;
use std::slice::from_ref;
use std::test::Fail;
use strong_fair::certificate::Reason;

/// The pair of y and what never holds. y comes again and again on each fair path.
const Y_AND_NEVER: &[u8] = b"MODULE main
VAR x : boolean; y : boolean;
ASSIGN
  init(x) := 0;
  next(x) := case y : {0, 1}; 1 : 0; esac;
FAIRNESS y
SPEC y
SPEC 0
";

/// The pair of x and what never holds. x may stay 0.
const X_AND_NEVER: &[u8] = b"MODULE main
VAR x : boolean; y : boolean;
ASSIGN
  init(x) := 0;
  next(x) := case y : {0, 1}; 1 : 0; esac;
FAIRNESS y
SPEC x
SPEC 0
";

/// The pair of y and x. x may come again and again.
const Y_AND_X: &[u8] = b"MODULE main
VAR x : boolean; y : boolean;
ASSIGN
  init(x) := 0;
  next(x) := case y : {0, 1}; 1 : 0; esac;
FAIRNESS y
SPEC y
SPEC x
";

/// No pair, and no step.
const NO_STEP: &[u8] = b"MODULE main
VAR x : boolean;
TRANS 0
SPEC x
";

/// Whether the plan's certificate holds for the pair, over trees. The leaf of its sets is p.
fn holds_for_pair(
    alloc: Global,
    model: &Ruled,
    p: &Expr,
    q: &Expr,
    plan: &Plan,
) -> Result<bool, SetRefusal>
    requires p { IsModelLeaf model.now (term_of p.now) }
    requires q { IsModelLeaf model.now (term_of q.now) }
{
    let pair = pair_of(alloc, model, p, q)?;
    let mut sets = trees(alloc, model)?;
    holds(alloc, &mut sets, model, from_ref(&pair), p, plan)
}

/// The same without pairs.
fn holds_alone(alloc: Global, model: &Ruled, leaf: &Expr, plan: &Plan) -> Result<bool, SetRefusal>
    requires { IsModelLeaf model.now (term_of leaf.now) }
{
    let mut sets = trees(alloc, model)?;
    holds(alloc, &mut sets, model, &[], leaf, plan)
}

/// Whether it holds for the pair of the model's two specifications, or without pairs where there is one. `None` where
/// one of them is no leaf.
fn holds_over(alloc: Global, model: &Ruled, plan: &Plan) -> Result<Option<bool>, SetRefusal> {
    match spec_formulas(model) {
        [p, q] => match (leaf_in(model, p), leaf_in(model, q)) {
            (Some(p), Some(q)) => Ok(Some(holds_for_pair(alloc, model, p, q, plan)?)),
            _ => Ok(None),
        },
        [one] => match leaf_in(model, one) {
            Some(leaf) => Ok(Some(holds_alone(alloc, model, leaf, plan)?)),
            None => Ok(None),
        },
        _ => Ok(None),
    }
}

/// The same, of a text.
fn holds_in(alloc: Global, text: &[u8], plan: &Plan) -> Result<Option<bool>, Fail> {
    let Ok(model) = model_of(alloc, text) else {
        return Err(Fail::new("a text has no model"));
    };
    Ok(holds_over(alloc, &model, plan)?)
}

/// With all states inside, and all in the set of each row.
fn all_rows(alloc: Global, text: &[u8], reasons: &[Reason]) -> Result<Option<bool>, Fail> {
    let mut rows = Vec::new(alloc);
    for reason in reasons {
        rows.push((Which::All, *reason))?;
    }
    let plan = Plan {
        inside: Which::All,
        rows: &rows,
    };
    holds_in(alloc, text, &plan)
}

/// The pair takes the states with y away, and the others avoid y.
#[test]
fn the_worked_certificate(rt: HostRuntime) -> Result<(), Fail> {
    let alloc = rt.alloc();
    let reasons = [Reason::Pair(1), Reason::Avoid(1)];
    assert!(rt; all_rows(alloc, Y_AND_NEVER, &reasons)? == Some(true));
    assert!(rt; all_rows(alloc, NO_STEP, &[Reason::Dead])? == Some(true));
    Ok(())
}

/// A pair leaves the states without its p, and no row may be missing or come before its time.
#[test]
fn a_row_too_few(rt: HostRuntime) -> Result<(), Fail> {
    let alloc = rt.alloc();
    assert!(rt; all_rows(alloc, Y_AND_NEVER, &[])? == Some(false));
    assert!(rt; all_rows(alloc, Y_AND_NEVER, &[Reason::Pair(1)])? == Some(false));
    assert!(rt; all_rows(alloc, Y_AND_NEVER, &[Reason::Avoid(1)])? == Some(false));
    assert!(rt; all_rows(alloc, Y_AND_NEVER, &[Reason::Dead])? == Some(false));
    assert!(rt; all_rows(alloc, Y_AND_NEVER, &[Reason::Avoid(1), Reason::Pair(1)])? == Some(false));
    Ok(())
}

/// Where there is a strong path the same rows don't hold: x may stay 0, or come again and again.
#[test]
fn a_strong_path_is_there(rt: HostRuntime) -> Result<(), Fail> {
    let alloc = rt.alloc();
    assert!(rt; all_rows(alloc, X_AND_NEVER, &[Reason::Pair(1)])? == Some(false));
    assert!(rt; all_rows(alloc, X_AND_NEVER, &[Reason::Pair(1), Reason::Avoid(1)])? == Some(false));
    assert!(rt; all_rows(alloc, Y_AND_X, &[Reason::Pair(1), Reason::Avoid(1)])? == Some(false));
    Ok(())
}

/// Constraints and pairs are counted from 1, and there is one of each.
#[test]
fn numbers_out_of_range(rt: HostRuntime) -> Result<(), Fail> {
    let alloc = rt.alloc();
    assert!(rt; all_rows(alloc, Y_AND_NEVER, &[Reason::Pair(0), Reason::Avoid(1)])? == Some(false));
    assert!(rt; all_rows(alloc, Y_AND_NEVER, &[Reason::Pair(2), Reason::Avoid(1)])? == Some(false));
    assert!(rt; all_rows(alloc, Y_AND_NEVER, &[Reason::Pair(1), Reason::Avoid(0)])? == Some(false));
    assert!(rt; all_rows(alloc, Y_AND_NEVER, &[Reason::Pair(1), Reason::Avoid(2)])? == Some(false));
    assert!(rt; all_rows(alloc, NO_STEP, &[Reason::Avoid(1)])? == Some(false));
    assert!(rt; all_rows(alloc, NO_STEP, &[Reason::Pair(1)])? == Some(false));
    Ok(())
}

/// The first row's states are those with y, whose next states may be others.
#[test]
fn a_step_out_of_a_row(rt: HostRuntime) -> Result<(), Fail> {
    let plan = Plan {
        inside: Which::All,
        rows: &[
            (Which::Ones, Reason::Pair(1)),
            (Which::All, Reason::Avoid(1)),
        ],
    };
    assert!(rt; holds_in(rt.alloc(), Y_AND_NEVER, &plan)? == Some(false));
    Ok(())
}

/// No row is needed where nothing is inside, but the initial states have to be.
#[test]
fn initial_states_outside(rt: HostRuntime) -> Result<(), Fail> {
    let plan = Plan {
        inside: Which::Nothing,
        rows: &[],
    };
    assert!(rt; holds_in(rt.alloc(), Y_AND_NEVER, &plan)? == Some(false));
    assert!(rt; holds_in(rt.alloc(), NO_STEP, &plan)? == Some(false));
    Ok(())
}
