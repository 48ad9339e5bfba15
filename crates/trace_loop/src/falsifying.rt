//! Whether a path falsifies a formula.

ghost use Rattle.std.specs.Prelude.{◌≡◌, ◌↔◌, ℕ, ◌+◌, ◌<◌, ◌≤◌, true, false, length, Contains, IsTrue, map, MatchOption};
ghost use Rattle.kripke_model.specs.declared.expressions.PathOp.{PathOp};
ghost use Rattle.kripke_model.specs.Ctl.{Ctl, formula_of};
ghost use Rattle.kripke_model.specs.Evaluation.{Holds};
ghost use Rattle.kripke_model.specs.Falsifies.{is_traceable, FalsifiesFrom};
ghost use Rattle.kripke_model.specs.Path.{IsPath, at, member_count};
ghost use Rattle.kripke_model.specs.Reading.{term_of};
ghost use Rattle.kripke_model.specs.WellFormed.{ctl_of};
ghost use Rattle.single_states.specs.Braces.{IsFilled};
ghost use Rattle.kripke_model.specs.Leaves.{is_leaf};
ghost use Rattle.trace_loop.specs.Places.{HasFilledLeaves};
ghost use Rattle.trace_loop.specs.Above.{AreFilled, FalsifiesAmong, FalsifiesBelow, IsMetAfter};

use crate::above::{Above, Starts, first_led, last_led, led_to};
use crate::places::{first_place, holds_at, next_place};
use kripke_model::expressions::{Expr, Formula, PathOp};
use kripke_model::models::Ruled;
use kripke_model::states::Lasso;

/// The expression of a leaf.
fn leaf_of(formula: &Formula) -> Option<&Expr>
    ensures { MatchOption result (is_leaf (ctl_of formula.now) ≡ false)
        (λ e. ctl_of formula.now ≡ Ctl.Leaf (term_of e.now)) }
{
    match formula {
        Formula::Leaf(expr) => Some(expr),
        _ => None,
    }
}

/// Whether the expression is the one value 1 at some member from the first one on.
fn some_holds(model: &Ruled, expr: &Expr, lasso: &Lasso, first: u64) -> bool
    requires filled { IsFilled (term_of expr.now) }
    requires loops { 0 < length lasso.now.cycle }
    ensures { IsTrue result ↔ ((j : ℕ) × (first ≤ j) × (j < member_count lasso.now)
        × Holds model.now (term_of expr.now) (at lasso.now j) (at lasso.now j)) }
{
    for j in first..lasso.member_count() {
        if holds_at(model, expr, lasso, j) {
            return true;
        }
    }
    false
}

/// Whether a leaf is falsified from some place to which the operators lead.
fn leaf_fails<'a>(
    model: &Ruled,
    expr: &Expr,
    above: &'a Above<'a>,
    lasso: &Lasso,
    starts: Starts,
) -> bool
    requires filled { IsFilled (term_of expr.now) }
    requires above_filled { AreFilled above.now }
    requires loops { 0 < length lasso.now.cycle }
    requires members { starts.end ≤ member_count lasso.now }
    ensures { IsTrue result ↔ FalsifiesAmong model.now (at lasso.now) above.now
        (Ctl.Leaf (term_of expr.now)) starts.first starts.end }
{
    for i in starts.first..starts.end {
        if leaf_fails_below(model, expr, above, lasso, i) {
            return true;
        }
    }
    false
}

/// Whether a leaf is falsified from the place to which the operators lead from member i.
fn leaf_fails_below<'a>(
    model: &Ruled,
    expr: &Expr,
    above: &'a Above<'a>,
    lasso: &Lasso,
    i: u64,
) -> bool
    requires filled { IsFilled (term_of expr.now) }
    requires above_filled { AreFilled above.now }
    requires loops { 0 < length lasso.now.cycle }
    requires member { i < member_count lasso.now }
    ensures { IsTrue result ↔ FalsifiesBelow model.now (at lasso.now) above.now
        (Ctl.Leaf (term_of expr.now)) i }
{
    match led_to(model, above, lasso, i) {
        Some(j) => !holds_at(model, expr, lasso, j),
        None => false,
    }
}

/// Whether `AF f` is falsified from some place to which the operators lead. Where it is from one,
/// it is from each later one, so the last one tells.
fn finally_fails<'a>(
    model: &Ruled,
    expr: &Expr,
    above: &'a Above<'a>,
    lasso: &Lasso,
    starts: Starts,
) -> bool
    requires filled { IsFilled (term_of expr.now) }
    requires above_filled { AreFilled above.now }
    requires loops { 0 < length lasso.now.cycle }
    requires members { starts.end ≤ member_count lasso.now }
    ensures { IsTrue result ↔ FalsifiesAmong model.now (at lasso.now) above.now
        (Ctl.Quant PathOp.AF (Ctl.Leaf (term_of expr.now))) starts.first starts.end }
{
    match last_led(model, above, lasso, starts) {
        Some(j) => !some_holds(model, expr, lasso, first_place(lasso, j)),
        None => false,
    }
}

/// After how many places from place i on e is 1, where d is before. There is none where `A[d U e]`
/// is falsified from there. As many places as the path has members are looked at, so each of its
/// states is that stands on it from there on.
fn met_after(model: &Ruled, d: &Expr, e: &Expr, lasso: &Lasso, i: u64) -> Option<u64>
    requires first_filled { IsFilled (term_of d.now) }
    requires second_filled { IsFilled (term_of e.now) }
    requires loops { 0 < length lasso.now.cycle }
    requires member { i < member_count lasso.now }
    ensures { MatchOption result (FalsifiesFrom model.now (at lasso.now)
        (Ctl.Until true (Ctl.Leaf (term_of d.now)) (Ctl.Leaf (term_of e.now))) i)
        (IsMetAfter model.now (at lasso.now) (term_of d.now) (term_of e.now) i) }
{
    let mut place = i;
    for step in 0..lasso.member_count() {
        if holds_at(model, e, lasso, place) {
            return Some(step);
        }
        if !holds_at(model, d, lasso, place) {
            return None;
        }
        place = next_place(lasso, place);
    }
    None
}

/// How many members behind member i are like it: `A[d U e]` isn't falsified from where the
/// operators lead from them. There is none where it is from member i.
fn clear_behind<'a>(
    model: &Ruled,
    d: &Expr,
    e: &Expr,
    above: &'a Above<'a>,
    lasso: &Lasso,
    i: u64,
) -> Option<u64>
    requires first_filled { IsFilled (term_of d.now) }
    requires second_filled { IsFilled (term_of e.now) }
    requires above_filled { AreFilled above.now }
    requires loops { 0 < length lasso.now.cycle }
    requires member { i < member_count lasso.now }
    ensures { MatchOption result (FalsifiesBelow model.now (at lasso.now) above.now
        (Ctl.Until true (Ctl.Leaf (term_of d.now)) (Ctl.Leaf (term_of e.now))) i)
        (λ n. (k : ℕ) → i ≤ k → k ≤ i + n → FalsifiesBelow model.now (at lasso.now) above.now
        (Ctl.Until true (Ctl.Leaf (term_of d.now)) (Ctl.Leaf (term_of e.now))) k → ⊥) }
{
    match led_to(model, above, lasso, i) {
        Some(j) => met_after(model, d, e, lasso, j),
        None => Some(0),
    }
}

/// Whether `A[d U e]` is falsified from some place to which the operators lead. No place is walked
/// over twice, but for those of the last walk.
fn until_fails<'a>(
    model: &Ruled,
    d: &Expr,
    e: &Expr,
    above: &'a Above<'a>,
    lasso: &Lasso,
    starts: Starts,
) -> bool
    requires first_filled { IsFilled (term_of d.now) }
    requires second_filled { IsFilled (term_of e.now) }
    requires above_filled { AreFilled above.now }
    requires loops { 0 < length lasso.now.cycle }
    requires members { starts.end ≤ member_count lasso.now }
    ensures { IsTrue result ↔ FalsifiesAmong model.now (at lasso.now) above.now
        (Ctl.Until true (Ctl.Leaf (term_of d.now)) (Ctl.Leaf (term_of e.now)))
        starts.first starts.end }
{
    let mut clear = 0;
    for i in starts.first..starts.end {
        if clear > 0 {
            clear -= 1;
        } else {
            match clear_behind(model, d, e, above, lasso, i) {
                Some(count) => clear = count,
                None => return true,
            }
        }
    }
    false
}

/// Whether the formula is falsified from some place to which the operators lead. Only formulas of
/// the shape ever are. Of the places to which they lead an `AG` asks for the first one alone, since
/// all that stand behind another one stand behind it too. So each part of the formula goes over the
/// members once, with the operators above it up to the next `AG`.
fn fails_among<'a>(
    model: &Ruled,
    formula: &'a Formula,
    above: &'a Above<'a>,
    lasso: &Lasso,
    starts: Starts,
) -> bool
    requires filled { HasFilledLeaves (ctl_of formula.now) }
    requires above_filled { AreFilled above.now }
    requires loops { 0 < length lasso.now.cycle }
    requires members { starts.end ≤ member_count lasso.now }
    ensures { IsTrue result ↔ FalsifiesAmong model.now (at lasso.now) above.now
        (ctl_of formula.now) starts.first starts.end }
{
    match formula {
        Formula::Leaf(expr) => leaf_fails(model, expr, above, lasso, starts),
        Formula::And(f, g) => {
            fails_among(model, f, above, lasso, starts)
                || fails_among(model, g, above, lasso, starts)
        }
        Formula::Or(f, g) => match leaf_of(f) {
            Some(expr) => fails_among(model, g, &Above::Unless(expr, above), lasso, starts),
            None => false,
        },
        Formula::Implies(f, g) => match leaf_of(f) {
            Some(expr) => fails_among(model, g, &Above::Where(expr, above), lasso, starts),
            None => false,
        },
        Formula::Quant(op, f) => match op {
            PathOp::AX => fails_among(model, f, &Above::Next(above), lasso, starts),
            PathOp::AG => match first_led(model, above, lasso, starts) {
                Some(j) => fails_among(model, f, &Above::Nothing, lasso, Starts::behind(lasso, j)),
                None => false,
            },
            PathOp::AF => match leaf_of(f) {
                Some(expr) => finally_fails(model, expr, above, lasso, starts),
                None => false,
            },
            PathOp::EX | PathOp::EF | PathOp::EG => false,
        },
        Formula::Until(true, f, g) => match (leaf_of(f), leaf_of(g)) {
            (Some(d), Some(e)) => until_fails(model, d, e, above, lasso, starts),
            _ => false,
        },
        Formula::Until(false, _, _) | Formula::Not(_) | Formula::Iff(_, _) => false,
    }
}

/// Whether the path shows that the formula, one of the model's specifications, is false at the path's first state.
/// Takes no memory.
pub fn falsifies(model: &Ruled, formula: &Formula, lasso: &Lasso) -> bool
    requires path { IsPath model.now lasso.now }
    requires formula { Contains (map (λ c. formula_of c.expr) model.now.specs)
        (ctl_of formula.now) }
    requires traceable { IsTrue (is_traceable (ctl_of formula.now)) }
    ensures { IsTrue result ↔ FalsifiesFrom model.now (at lasso.now) (ctl_of formula.now) 0 }
{
    model.rules_law();
    fails_among(
        model,
        formula,
        &Above::Nothing,
        lasso,
        Starts { first: 0, end: 1 },
    )
}
