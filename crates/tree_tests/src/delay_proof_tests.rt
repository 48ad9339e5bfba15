//! Proofs of the delays from go to x in a model in which x is 1 from the step on in which go was 1.

ghost use Rattle.kripke_model.specs.WellFormed.{ctl_of};
ghost use Rattle.kripke_model.specs.Leaves.{HasModelLeaves};

use crate::delay_proofs::{Case, is_shown};
use crate::leaves::leaf_in;
use case_models::formulas::spec_formulas;
use case_models::kinds::trees;
use case_models::reading::model_of;
use kripke_model::expressions::Formula;
use kripke_model::models::Ruled;
use region_sets::SetRefusal;
use std::alloc::Global;
use std::test::Fail;

/// x is set once go was 1. Go is free.
const LATCH: &[u8] = b"MODULE main
VAR x : boolean; go : boolean;
ASSIGN
  init(x) := 0;
  next(x) := case go : 1; 1 : x; esac;
SPEC go
SPEC x
";

/// Whether the case's proof shows its delays, over trees. `None` where a formula is no leaf.
fn shown_between(
    alloc: Global,
    model: &Ruled,
    go: &Formula,
    x: &Formula,
    case: &Case,
) -> Result<Option<bool>, SetRefusal>
    requires go { HasModelLeaves model.now (ctl_of go.now) }
    requires x { HasModelLeaves model.now (ctl_of x.now) }
{
    let mut sets = trees(alloc, model)?;
    match (leaf_in(model, go), leaf_in(model, x)) {
        (Some(go), Some(x)) => Ok(Some(is_shown(alloc, &mut sets, model, go, x, case)?)),
        _ => Ok(None),
    }
}

/// The same, from the first specification of the model to the second.
fn shown_in(alloc: Global, model: &Ruled, case: &Case) -> Result<Option<bool>, SetRefusal> {
    match spec_formulas(model) {
        [go, x] => shown_between(alloc, model, go, x, case),
        _ => Ok(None),
    }
}

/// The same, in the latch.
fn shown(alloc: Global, case: &Case) -> Result<Option<bool>, Fail> {
    let Ok(model) = model_of(alloc, LATCH) else {
        return Err(Fail::new("a text has no model"));
    };
    Ok(shown_in(alloc, &model, case)?)
}

/// From (1, 1) x is 1 at once, and from (0, 1) after one step.
#[test]
fn a_worked_proof(rt: HostRuntime) -> Result<(), Fail> {
    let case = Case {
        lead: &[(0, 1), (1, 1)],
        lead_start: 1,
        has_idle: true,
        wait: &[(0, 1)],
        wait_start: 0,
    };
    assert!(rt; shown(rt.alloc(), &case)? == Some(true));
    Ok(())
}

/// Where go is 1, x may still be 0, so the longest delay isn't 0.
#[test]
fn a_set_too_few(rt: HostRuntime) -> Result<(), Fail> {
    let case = Case {
        lead: &[(0, 1), (1, 1)],
        lead_start: 1,
        has_idle: false,
        wait: &[(0, 1)],
        wait_start: 0,
    };
    assert!(rt; shown(rt.alloc(), &case)? == Some(false));
    Ok(())
}

/// From (0, 0) no step leads to a state where x is 1.
#[test]
fn a_way_that_is_no_path(rt: HostRuntime) -> Result<(), Fail> {
    let case = Case {
        lead: &[(0, 0), (1, 1)],
        lead_start: 1,
        has_idle: true,
        wait: &[(0, 1)],
        wait_start: 0,
    };
    assert!(rt; shown(rt.alloc(), &case)? == Some(false));
    Ok(())
}
