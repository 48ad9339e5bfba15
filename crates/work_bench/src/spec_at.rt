//! A specification of a model, by its number.

ghost use Rattle.std.specs.Prelude.{◌≡◌, ◌+◌, Some, IfSome};
ghost use Rattle.kripke_model.specs.WellFormed.{ctl_of};
ghost use Rattle.kripke_model.specs.Leaves.{HasModelLeaves};
ghost use Rattle.proof_form.specs.Shape.{spec_formula};

use case_models::formulas::spec_formulas;
use kripke_model::expressions::Formula;
use kripke_model::models::Ruled;

/// The formula of the specification before which there are so many.
pub fn spec_at(model: &Ruled, before: u32) -> Option<&Formula>
    ensures spec { IfSome result (λ f. spec_formula model.now (before + 1) ≡ Some (ctl_of f.now)) }
    ensures leaves { IfSome result (λ f. HasModelLeaves model.now (ctl_of f.now)) }
{
    let formulas = spec_formulas(model);
    let k = before as usize;
    if k < formulas.len() {
        Some(&formulas[k])
    } else {
        None
    }
}
