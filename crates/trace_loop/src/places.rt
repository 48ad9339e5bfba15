//! The members of a path, and what holds at them.

ghost use Rattle.std.specs.Prelude.{◌≡◌, ◌↔◌, ◌+◌, ◌<◌, length, IsTrue};
ghost use Rattle.kripke_model.specs.Evaluation.{Holds};
ghost use Rattle.kripke_model.specs.Path.{at, member_count};
ghost use Rattle.kripke_model.specs.Reading.{term_of};
ghost use Rattle.single_states.specs.Braces.{IsFilled};
ghost use Rattle.trace_loop.specs.Places.{SameFrom, IsFirst};

use kripke_model::expressions::Expr;
use kripke_model::models::Ruled;
use kripke_model::states::Lasso;
use single_states::steps::holds;

/// How many states stand in the stem, which is the place of the cycle's first.
pub(crate) fn stem_count(lasso: &Lasso) -> u64
    ensures { result ≡ length lasso.now.stem }
{
    lasso.stem.len() as u64
}

/// The member that comes after member i. After the last one it is the cycle's first.
pub(crate) fn next_place(lasso: &Lasso, i: u64) -> u64
    requires loops { 0 < length lasso.now.cycle }
    requires member { i < member_count lasso.now }
    ensures member { result < member_count lasso.now }
    ensures same { SameFrom (at lasso.now) (i + 1) result }
{
    let members = lasso.member_count();
    if i + 1 < members {
        i + 1
    } else {
        stem_count(lasso)
    }
}

/// The first of the members that stand on the path from place i on.
pub(crate) fn first_place(lasso: &Lasso, i: u64) -> u64
    requires loops { 0 < length lasso.now.cycle }
    requires member { i < member_count lasso.now }
    ensures { IsFirst (at lasso.now) (member_count lasso.now) i result }
{
    i.min(stem_count(lasso))
}

/// Whether the expression is the one value 1 at place i.
pub(crate) fn holds_at(model: &Ruled, expr: &Expr, lasso: &Lasso, i: u64) -> bool
    requires filled { IsFilled (term_of expr.now) }
    requires loops { 0 < length lasso.now.cycle }
    ensures { IsTrue result ↔ Holds model.now (term_of expr.now) (at lasso.now i) (at lasso.now i) }
{
    let s = lasso.at(i);
    holds(model, expr, s, s)
}
