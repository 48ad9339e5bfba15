//! The specifications that numbers name, where they hold no path operator.

ghost use Rattle.std.specs.Prelude.{◌≡◌, All, IfSome, MatchOption, option_map};
ghost use Rattle.kripke_model.specs.Leaves.{IsModelLeaf};
ghost use Rattle.kripke_model.specs.Reading.{term_of};
ghost use Rattle.kripke_model.specs.WellFormed.{ctl_of};
ghost use Rattle.spec_leaves.specs.Named.{IsFirstOther, NamesLeaf, leaf_term, spec_leaf as leaf_of_spec};

use kripke_model::expressions::{Expr, Formula};
use kripke_model::models::Ruled;

/// The expression of a formula that is a leaf.
fn leaf_of(formula: &Formula) -> Option<&Expr>
    ensures { option_map (λ expr. term_of expr.now) result ≡ leaf_term (ctl_of formula.now) }
{
    match formula {
        Formula::Leaf(expr) => Some(expr),
        _ => None,
    }
}

/// The expression of specification j, counted from 1. None where there is no such specification, or it holds a path
/// operator.
pub fn spec_leaf(model: &Ruled, j: u32) -> Option<&Expr>
    ensures leaf { option_map (λ expr. term_of expr.now) result ≡ leaf_of_spec model.now j }
    ensures of_model { IfSome result (λ expr. IsModelLeaf model.now (term_of expr.now)) }
{
    model.rules_law();
    if j == 0 {
        return None;
    }
    let formula = model.formulas().get(j as usize - 1)?;
    leaf_of(formula)
}

/// The first of the numbers whose specification isn't there, or holds a path operator.
pub fn first_other(model: &Ruled, numbers: &[u32]) -> Option<u32>
    ensures { MatchOption result (All (NamesLeaf model.now) numbers.now)
        (IsFirstOther model.now numbers.now) }
{
    let [j, rest @ ..] = numbers else {
        return None;
    };
    if spec_leaf(model, *j).is_none() {
        return Some(*j);
    }
    first_other(model, rest)
}
