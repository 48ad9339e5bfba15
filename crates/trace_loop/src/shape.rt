//! The shape of the formulas that a path can falsify.

ghost use Rattle.std.specs.Prelude.{◌≡◌};
ghost use Rattle.kripke_model.specs.Falsifies.{is_traceable};
ghost use Rattle.kripke_model.specs.WellFormed.{ctl_of};
ghost use Rattle.kripke_model.specs.Leaves.{is_leaf};

use kripke_model::expressions::{Formula, PathOp};

fn is_leaf(formula: &Formula) -> bool
    ensures { result ≡ is_leaf (ctl_of formula.now) }
{
    matches!(formula, Formula::Leaf(_))
}

/// Whether a path can show that the formula is false: a leaf, `u & u`, a leaf `| u`, a leaf `-> u`, `AX u`, `AG u`, `AF`
/// of a leaf, `A[ U ]` of leaves, where u is such a formula. Takes no memory.
pub fn is_traceable(formula: &Formula) -> bool
    ensures { result ≡ is_traceable (ctl_of formula.now) }
{
    match formula {
        Formula::Leaf(_) => true,
        Formula::And(f, g) => is_traceable(f) && is_traceable(g),
        Formula::Or(f, g) | Formula::Implies(f, g) => is_leaf(f) && is_traceable(g),
        Formula::Quant(op, f) => match op {
            PathOp::AX | PathOp::AG => is_traceable(f),
            PathOp::AF => is_leaf(f),
            PathOp::EX | PathOp::EF | PathOp::EG => false,
        },
        Formula::Until(all, f, g) => *all && is_leaf(f) && is_leaf(g),
        Formula::Not(_) | Formula::Iff(_, _) => false,
    }
}
