//! The operators that stand around a part of a formula.

ghost use Rattle.std.specs.Prelude.{◌≡◌, ◌<◌, ◌≤◌, length, MatchOption};
ghost use Rattle.kripke_model.specs.Path.{at, member_count};
ghost use Rattle.trace_loop.specs.Above.{AreFilled, IsFirstLed, IsLastLed, IsLed, IsLedTo, IsNoneLed};
ghost use Rattle.trace_loop.specs.Places.{IsFirst};

use crate::places::{first_place, holds_at, next_place};
use kripke_model::expressions::Expr;
use kripke_model::models::Ruled;
use kripke_model::states::Lasso;

/// The operators around a part of a formula, the innermost first, up to the next `AG` around it.
#[derive(Clone, Copy)]
pub(crate) enum Above<'a> {
    /// There is none.
    Nothing,
    /// `e -> `, for a leaf e: only where e is the one value 1.
    Where(&'a Expr, &'a Above<'a>),
    /// `e | `, for a leaf e: only where e isn't.
    Unless(&'a Expr, &'a Above<'a>),
    /// `AX`: one place further on.
    Next(&'a Above<'a>),
}

/// The member to which the operators lead from member i, where each leaf among them lets it pass.
pub(crate) fn led_to<'a>(model: &Ruled, above: &'a Above<'a>, lasso: &Lasso, i: u64) -> Option<u64>
    requires filled { AreFilled above.now }
    requires loops { 0 < length lasso.now.cycle }
    requires member { i < member_count lasso.now }
    ensures { MatchOption result (IsLed model.now (at lasso.now) above.now i → ⊥)
        (IsLedTo model.now lasso.now above.now i) }
{
    match above {
        Above::Nothing => Some(i),
        Above::Where(expr, up) => match led_to(model, up, lasso, i) {
            Some(j) if holds_at(model, expr, lasso, j) => Some(j),
            _ => None,
        },
        Above::Unless(expr, up) => match led_to(model, up, lasso, i) {
            Some(j) if !holds_at(model, expr, lasso, j) => Some(j),
            _ => None,
        },
        Above::Next(up) => match led_to(model, up, lasso, i) {
            Some(j) => Some(next_place(lasso, j)),
            None => None,
        },
    }
}

/// The members at which the outermost of some operators stands: those from the first on below the end.
#[derive(Clone, Copy)]
pub(crate) struct Starts {
    pub first: u64,
    pub end: u64,
}

impl Starts {
    /// The members that stand on the path from member j on.
    pub fn behind(lasso: &Lasso, j: u64) -> Starts
        requires loops { 0 < length lasso.now.cycle }
        requires member { j < member_count lasso.now }
        ensures first { IsFirst (at lasso.now) (member_count lasso.now) j result.first }
        ensures end { result.end ≡ member_count lasso.now }
    {
        Starts {
            first: first_place(lasso, j),
            end: lasso.member_count(),
        }
    }
}

/// Where the operators lead from the first start from which they lead somewhere.
pub(crate) fn first_led<'a>(
    model: &Ruled,
    above: &'a Above<'a>,
    lasso: &Lasso,
    starts: Starts,
) -> Option<u64>
    requires filled { AreFilled above.now }
    requires loops { 0 < length lasso.now.cycle }
    requires members { starts.end ≤ member_count lasso.now }
    ensures { MatchOption result
        (IsNoneLed model.now (at lasso.now) above.now starts.first starts.end)
        (IsFirstLed model.now lasso.now above.now starts.first starts.end) }
{
    for i in starts.first..starts.end {
        if let Some(j) = led_to(model, above, lasso, i) {
            return Some(j);
        }
    }
    None
}

/// Where the operators lead from the last start from which they lead somewhere.
pub(crate) fn last_led<'a>(
    model: &Ruled,
    above: &'a Above<'a>,
    lasso: &Lasso,
    starts: Starts,
) -> Option<u64>
    requires filled { AreFilled above.now }
    requires loops { 0 < length lasso.now.cycle }
    requires members { starts.end ≤ member_count lasso.now }
    ensures { MatchOption result
        (IsNoneLed model.now (at lasso.now) above.now starts.first starts.end)
        (IsLastLed model.now lasso.now above.now starts.first starts.end) }
{
    for i in (starts.first..starts.end).rev() {
        if let Some(j) = led_to(model, above, lasso, i) {
            return Some(j);
        }
    }
    None
}
