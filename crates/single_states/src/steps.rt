//! The tests of initial states, steps and fair paths. Nothing here takes memory.

ghost use Rattle.std.specs.Prelude.{◌≡◌, ◌↔◌, IsTrue, All, Any, pos};
ghost use Rattle.kripke_model.specs.declared.expressions.Value.{Value};
ghost use Rattle.kripke_model.specs.declared.models.Part.{Part};
ghost use Rattle.kripke_model.specs.Evaluable.{IsEvaluable};
ghost use Rattle.kripke_model.specs.Evaluation.{Holds, runs};
ghost use Rattle.kripke_model.specs.Leaves.{HasLeafConstraints, is_leaf};
ghost use Rattle.kripke_model.specs.Reading.{term_of};
ghost use Rattle.kripke_model.specs.Step.{IsValueOf, IsCurrent, IsInvariant, Assigned, IsDriven, HasNextAssign, Initial, Step};
ghost use Rattle.kripke_model.specs.Path.{IsPath};
ghost use Rattle.kripke_model.specs.Truth.{IsFair};
ghost use Rattle.kripke_model.specs.System.{value_in};
ghost use Rattle.kripke_model.specs.WellFormed.{ctl_of};
ghost use Rattle.single_states.specs.Braces.{IsFilled};

use crate::evaluation::{is_state, runs, single_of};
use crate::valuation::{has, summarize};
use kripke_model::expressions::{Expr, Formula, Value};
use kripke_model::models::{Assign, Item, Part, Ruled};
use kripke_model::states::{Lasso, State};

fn is_one(value: Value) -> bool
    ensures { IsTrue result ↔ (value ≡ Value.Number (pos 1)) }
{
    value == Value::Number(1)
}

/// Whether the expression is the one value 1 at the state s with the next state t. A fault is no value.
pub fn holds(model: &Ruled, expr: &Expr, s: &State, t: &State) -> bool
    requires { IsFilled (term_of expr.now) }
    ensures { IsTrue result ↔ Holds model.now (term_of expr.now) s.now t.now }
{
    match single_of(summarize(model, expr, s, t)) {
        Ok(value) => is_one(value),
        Err(_) => false,
    }
}

/// Whether v is among the values of the expression.
fn admits(model: &Ruled, expr: &Expr, s: &State, t: &State, v: Value) -> bool
    requires { IsFilled (term_of expr.now) }
    ensures { IsTrue result ↔ IsValueOf model.now (term_of expr.now) s.now t.now v }
{
    match has(model, expr, s, t, v) {
        Ok(found) => found,
        Err(_) => false,
    }
}

/// Whether the item's expression is the one value 1.
#[tactic(auto, using(crate::proofs::BracesLemmas::evaluable_filled))]
pub fn item_holds(model: &Ruled, item: &Item, s: &State, t: &State) -> bool
    requires { IsEvaluable model.now item.now.expr }
    ensures { IsTrue result ↔ Holds model.now item.now.expr s.now t.now }
{
    holds(model, &item.expr, s, t)
}

fn all_hold(model: &Ruled, items: &[Item], s: &State, t: &State) -> bool
    requires { All (λ c. IsEvaluable model.now c.expr) items.now }
    ensures { IsTrue result ↔ All (λ c. Holds model.now c.expr s.now t.now) items.now }
{
    for item in items {
        if !item_holds(model, item, s, t) {
            return false;
        }
    }
    true
}

/// Whether the value of the assigned variable in u is among those of the right side at s and t.
#[tactic(auto, using(crate::proofs::BracesLemmas::evaluable_filled))]
fn meets(model: &Ruled, a: &Assign, s: &State, t: &State, u: &State) -> bool
    requires { IsEvaluable model.now a.now.right }
    ensures { IsTrue result
        ↔ IsValueOf model.now a.now.right s.now t.now (value_in u.now a.now.var) }
{
    admits(model, &a.right, s, t, u.value(a.var))
}

fn is_part(a: &Assign, part: Part) -> bool
    ensures { IsTrue result ↔ (a.now.part ≡ part) }
{
    a.part == part
}

fn part_met(model: &Ruled, a: &Assign, part: Part, s: &State) -> bool
    requires { IsEvaluable model.now a.now.right }
    ensures { IsTrue result
        ↔ (a.now.part ≡ part
        → IsValueOf model.now a.now.right s.now s.now (value_in s.now a.now.var)) }
{
    !is_part(a, part) || meets(model, a, s, s, s)
}

/// Whether the initial or current-value assignments hold at s.
fn all_met(model: &Ruled, part: Part, s: &State) -> bool
    ensures { IsTrue result
        ↔ Assigned model.now part
        (λ a. IsValueOf model.now a.right s.now s.now (value_in s.now a.var)) }
{
    let assigns = model.assigns();
    for a in assigns {
        if !part_met(model, a, part, s) {
            return false;
        }
    }
    true
}

/// Whether each `INVAR` holds at s.
fn is_invariant(model: &Ruled, s: &State) -> bool
    ensures { IsTrue result ↔ IsInvariant model.now s.now }
{
    all_hold(model, model.invars(), s, s)
}

/// Whether s meets the initial and current-value assignments, each `INIT` and each `INVAR`.
pub fn is_initial(model: &Ruled, s: &State) -> bool
    ensures { IsTrue result ↔ Initial model.now s.now }
{
    all_met(model, Part::Init, s)
        && all_hold(model, model.inits(), s, s)
        && all_met(model, Part::Now, s)
        && is_invariant(model, s)
}

fn next_met(model: &Ruled, a: &Assign, s: &State, t: &State) -> bool
    requires { IsEvaluable model.now a.now.right }
    ensures { IsTrue result
        ↔ (a.now.part ≡ Part.Next → IsTrue (runs model.now s.now a.now.process)
        → IsValueOf model.now a.now.right s.now t.now (value_in t.now a.now.var)) }
{
    !is_part(a, Part::Next) || !runs(model, s, a.process) || meets(model, a, s, t, t)
}

/// Whether the next-value assignments of the process selected in s hold.
fn all_next_met(model: &Ruled, s: &State, t: &State) -> bool
    ensures { IsTrue result
        ↔ Assigned model.now Part.Next
        (λ a. IsTrue (runs model.now s.now a.process)
        → IsValueOf model.now a.right s.now t.now (value_in t.now a.var)) }
{
    let assigns = model.assigns();
    for a in assigns {
        if !next_met(model, a, s, t) {
            return false;
        }
    }
    true
}

fn drives(model: &Ruled, a: &Assign, s: &State, x: u32) -> bool
    ensures { IsTrue result
        ↔ ((a.now.part ≡ Part.Next) × (a.now.var ≡ x)
        × IsTrue (runs model.now s.now a.now.process)) }
{
    is_part(a, Part::Next) && a.var == x && runs(model, s, a.process)
}

/// Whether the process selected in s gives x a next value.
fn is_driven(model: &Ruled, s: &State, x: u32) -> bool
    ensures { IsTrue result ↔ IsDriven model.now s.now x }
{
    let assigns = model.assigns();
    for a in assigns {
        if drives(model, a, s, x) {
            return true;
        }
    }
    false
}

fn is_kept(model: &Ruled, a: &Assign, s: &State, t: &State) -> bool
    ensures { IsTrue result
        ↔ (a.now.part ≡ Part.Next → (IsDriven model.now s.now a.now.var → ⊥)
        → value_in t.now a.now.var ≡ value_in s.now a.now.var) }
{
    !is_part(a, Part::Next) || is_driven(model, s, a.var) || t.value(a.var) == s.value(a.var)
}

/// Whether each variable that another process alone assigns keeps its value.
fn all_kept(model: &Ruled, s: &State, t: &State) -> bool
    ensures { IsTrue result
        ↔ All (λ a. a.part ≡ Part.Next → (IsDriven model.now s.now a.var → ⊥)
        → value_in t.now a.var ≡ value_in s.now a.var) model.now.assigns }
{
    let assigns = model.assigns();
    for a in assigns {
        if !is_kept(model, a, s, t) {
            return false;
        }
    }
    true
}

/// Whether the process selected in s can step to t: each of its next-value assignments gives t one of its values, each
/// other variable with a next value keeps it, each `TRANS` holds, and the current-value assignments and each `INVAR`
/// hold in both states.
pub fn is_step(model: &Ruled, s: &State, t: &State) -> bool
    ensures { IsTrue result ↔ Step model.now s.now t.now }
{
    all_next_met(model, s, t)
        && all_kept(model, s, t)
        && all_hold(model, model.trans(), s, t)
        && all_met(model, Part::Now, s)
        && all_met(model, Part::Now, t)
        && is_invariant(model, s)
        && is_invariant(model, t)
}

/// Whether the lasso is an infinite path of the model: the cycle is not empty, and each member is a state and steps to
/// the one that comes next, which after the last one is the cycle's first. Constraints are not asked for.
pub fn is_path(model: &Ruled, lasso: &Lasso) -> bool
    ensures { IsTrue result ↔ IsPath model.now lasso.now }
{
    if !lasso.has_cycle() {
        return false;
    }
    for n in 0..lasso.member_count() {
        if !is_state(model, lasso.at(n)) {
            return false;
        }
    }
    for n in 0..lasso.member_count() {
        if !is_step(model, lasso.at(n), lasso.at(n + 1)) {
            return false;
        }
    }
    true
}

/// Whether the item holds at some of the states.
fn is_visited(model: &Ruled, item: &Item, states: &[State]) -> bool
    requires { IsEvaluable model.now item.now.expr }
    ensures { IsTrue result ↔ Any (λ s. Holds model.now item.now.expr s s) states.now }
{
    for s in states {
        if item_holds(model, item, s, s) {
            return true;
        }
    }
    false
}

/// Whether each item holds at some of the states.
fn all_visited(model: &Ruled, items: &[Item], states: &[State]) -> bool
    requires { All (λ c. IsEvaluable model.now c.expr) items.now }
    ensures { IsTrue result
        ↔ All (λ c. Any (λ s. Holds model.now c.expr s s) states.now) items.now }
{
    for item in items {
        if !is_visited(model, item, states) {
            return false;
        }
    }
    true
}

/// Whether each formula is a leaf.
fn are_leaves(formulas: &[Formula]) -> bool
    ensures { IsTrue result ↔ All (λ f. IsTrue (is_leaf (ctl_of f))) formulas.now }
{
    for formula in formulas {
        if !matches!(formula, Formula::Leaf(_)) {
            return false;
        }
    }
    true
}

/// Whether no constraint of the model holds a path operator, as `is_fair_path` asks for.
pub fn has_leaf_constraints(model: &Ruled) -> bool
    ensures { IsTrue result ↔ HasLeafConstraints model.now }
{
    model.rules_law();
    are_leaves(model.fair())
}

/// Whether the lasso is an infinite path of the model, with a cycle that is not empty, on which each constraint holds
/// somewhere on the cycle, and so infinitely often. A constraint with a path operator can't be tested at one state, so
/// there may be none.
pub fn is_fair_path(model: &Ruled, lasso: &Lasso) -> bool
    requires leaves { HasLeafConstraints model.now }
    ensures { IsTrue result ↔ IsFair model.now lasso.now }
{
    is_path(model, lasso) && all_visited(model, model.constraints(), lasso.cycle())
}
