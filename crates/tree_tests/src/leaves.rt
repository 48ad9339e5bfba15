//! The expressions of specifications without path operators, and pairs of them.

ghost use Rattle.std.specs.Prelude.{IfOk, IfSome};
ghost use Rattle.kripke_model.specs.Leaves.{IsModelLeaf, HasModelLeaves};
ghost use Rattle.kripke_model.specs.Reading.{term_of};
ghost use Rattle.kripke_model.specs.WellFormed.{ctl_of};

use kripke_model::expressions::{Expr, Formula};
use kripke_model::models::Ruled;
use std::alloc::{AllocError, Global};
use strong_fair::certificate::Pair;

/// The formula's expression, where it has no path operators.
pub fn leaf_in<'a>(model: &Ruled, formula: &'a Formula) -> Option<&'a Expr>
    requires { HasModelLeaves model.now (ctl_of formula.now) }
    ensures { IfSome result (λ e. IsModelLeaf model.now (term_of e.now)) }
{
    let _ = model;
    match formula {
        Formula::Leaf(expr) => Some(expr),
        _ => None,
    }
}

/// A pair of copies.
pub fn pair_of(alloc: Global, model: &Ruled, p: &Expr, q: &Expr) -> Result<Pair, AllocError>
    requires p { IsModelLeaf model.now (term_of p.now) }
    requires q { IsModelLeaf model.now (term_of q.now) }
    ensures { IfOk result (λ pair. IsModelLeaf model.now pair.p × IsModelLeaf model.now pair.q) }
{
    let _ = model;
    let first = p.copy(alloc)?;
    let second = q.copy(alloc)?;
    Ok(Pair {
        p: first,
        q: second,
    })
}
