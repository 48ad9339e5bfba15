//! The formulas of a model's specifications.

ghost use Rattle.std.specs.Prelude.{◌≡◌, map, All};
ghost use Rattle.kripke_model.specs.Ctl.{formula_of};
ghost use Rattle.kripke_model.specs.WellFormed.{ctl_of};
ghost use Rattle.kripke_model.specs.Leaves.{HasModelLeaves};

use fair_fixpoint::laws::leaves_law;
use kripke_model::expressions::Formula;
use kripke_model::models::Ruled;

/// The formulas of the specifications, which have the model's leaves alone.
pub fn spec_formulas(model: &Ruled) -> &[Formula]
    ensures leaves { All (λ f. HasModelLeaves model.now (ctl_of f)) result.now }
    ensures formulas { map ctl_of result.now ≡ map (λ c. formula_of c.expr) model.now.specs }
{
    leaves_law(model);
    model.formulas()
}
