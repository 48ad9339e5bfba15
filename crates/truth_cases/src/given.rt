//! What is found of a path that a question gives.

ghost use Rattle.std.specs.Prelude.{◌≡◌, Contains, map};
ghost use Rattle.kripke_model.specs.Ctl.{formula_of};
ghost use Rattle.kripke_model.specs.WellFormed.{ctl_of};

use kripke_model::expressions::Formula;
use kripke_model::models::Ruled;
use kripke_model::states::Lasso;
use single_states::steps::{has_leaf_constraints, is_fair_path, is_path};
use std::alloc::AllocError;
use trace_loop::falsifying::falsifies;
use trace_loop::shape::is_traceable;

/// Whether the path is one, and falsifies the formula.
fn is_falsifying(model: &Ruled, formula: &Formula, path: &Lasso) -> bool
    requires { Contains (map (λ c. formula_of c.expr) model.now.specs) (ctl_of formula.now) }
{
    if !is_path(model, path) || !is_traceable(formula) {
        return false;
    }
    falsifies(model, formula, path)
}

/// Whether the tests of single states, which can be asked where no constraint holds a path operator, say otherwise.
fn is_fair_otherwise(model: &Ruled, path: &Lasso, fair: bool) -> bool {
    if !has_leaf_constraints(model) {
        return false;
    }
    is_fair_path(model, path) != fair
}

/// Adds what is found of the path, which by the sets of the constraints is fair or isn't.
pub fn tell_path(
    model: &Ruled,
    formula: &Formula,
    path: &Lasso,
    fair: bool,
    answer: &mut String,
) -> Result<(), AllocError>
    requires { Contains (map (λ c. formula_of c.expr) model.now.specs) (ctl_of formula.now) }
{
    let falsifying = is_falsifying(model, formula, path);
    let otherwise = is_fair_otherwise(model, path, fair);
    answer.push_str(if is_path(model, path) {
        "a path"
    } else {
        "no path"
    })?;
    answer.push_str(if fair { ", fair" } else { "" })?;
    answer.push_str(if falsifying { ", falsifying" } else { "" })?;
    answer.push_str(if otherwise {
        ", otherwise by single states"
    } else {
        ""
    })
}
