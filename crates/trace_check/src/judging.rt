//! Whether a trace shows that its specification is false.

ghost use Rattle.std.specs.Prelude.{◌≡◌, ◌↔◌, ◌<◌, ℕ, All, Contains, IsTrue, length, map};
ghost use Rattle.kripke_model.specs.Ctl.{formula_of};
ghost use Rattle.kripke_model.specs.Falsifies.{FalsifiesFrom, is_traceable};
ghost use Rattle.kripke_model.specs.Path.{IsPath, at};
ghost use Rattle.kripke_model.specs.Step.{Initial};
ghost use Rattle.kripke_model.specs.WellFormed.{ctl_of};
ghost use Rattle.region_sets.specs.Ranks.{AreLive, regions, slots};
ghost use Rattle.fair_fixpoint.specs.Fairness.{AreConstraints};
ghost use Rattle.trace_files.specs.Spells.{IsLasso, IsTrace};
ghost use Rattle.trace_check.specs.Judged.{IsFalse, IsJudged, JudgedAs, WitnessOf};
ghost use Rattle.trace_check.specs.declared.judged.Judged.TheVariants.{Accepted as IsAccepted};

use crate::judged::Judged;
use crate::places::first_break;
use crate::visits::first_unmet;
use fair_fixpoint::constraints::Constraints;
use kripke_model::expressions::Formula;
use kripke_model::models::Ruled;
use kripke_model::states::Lasso;
use region_sets::StateSets;
use single_states::steps::is_initial;
use trace_files::trace::TraceFile;
use trace_loop::falsifying::falsifies;
use trace_loop::shape::is_traceable;

/// What is found of a path of the model that begins at an initial state: whether it is fair, and
/// falsifies the formula, which has the shape.
fn judge_path<S: StateSets>(
    sets: &S,
    model: &Ruled,
    constraints: &Constraints,
    formula: &Formula,
    lasso: &Lasso,
) -> Judged
    requires over { model.now ≡ (S.seen sets.now).over }
    requires live { AreLive (S.seen sets.now) (slots constraints.now.visits.items) }
    requires made { AreConstraints model.now
        (regions (S.seen sets.now) constraints.now.visits.items) }
    requires formula { Contains (map (λ c. formula_of c.expr) model.now.specs)
        (ctl_of formula.now) }
    requires traceable { IsTrue (is_traceable (ctl_of formula.now)) }
    requires initial { Initial model.now (at lasso.now 0) }
    requires path { IsPath model.now lasso.now }
    ensures { IsJudged model.now (ctl_of formula.now) lasso.now result }
{
    if let Some(constraint) = first_unmet(sets, model, constraints, lasso) {
        return Judged::Unfair { constraint };
    }
    if falsifies(model, formula, lasso) {
        Judged::Accepted
    } else {
        Judged::Property
    }
}

/// What is found of a path for a formula, one of the model's specifications.
fn judge_formula<S: StateSets>(
    sets: &S,
    model: &Ruled,
    constraints: &Constraints,
    formula: &Formula,
    lasso: &Lasso,
) -> Judged
    requires over { model.now ≡ (S.seen sets.now).over }
    requires live { AreLive (S.seen sets.now) (slots constraints.now.visits.items) }
    requires made { AreConstraints model.now
        (regions (S.seen sets.now) constraints.now.visits.items) }
    requires formula { Contains (map (λ c. formula_of c.expr) model.now.specs)
        (ctl_of formula.now) }
    requires lasso { IsLasso model.now lasso.now }
    ensures { IsJudged model.now (ctl_of formula.now) lasso.now result }
{
    if !is_traceable(formula) {
        return Judged::Shape;
    }
    if !is_initial(model, lasso.at(0)) {
        return Judged::Initial;
    }
    if let Some(at) = first_break(model, lasso) {
        return Judged::Step { at };
    }
    judge_path(sets, model, constraints, formula, lasso)
}

/// The first thing that is wrong with the trace, or that it shows that its specification is false.
/// The states needn't step to one another. The sets are those of the model's constraints. It takes
/// no memory, and makes no set.
pub fn judge<S: StateSets>(
    sets: &S,
    model: &Ruled,
    constraints: &Constraints,
    file: &TraceFile,
) -> Judged
    requires over { model.now ≡ (S.seen sets.now).over }
    requires live { AreLive (S.seen sets.now) (slots constraints.now.visits.items) }
    requires made { AreConstraints model.now
        (regions (S.seen sets.now) constraints.now.visits.items) }
    requires trace { IsTrace model.now file.now }
    ensures judged { JudgedAs model.now file.now result }
    ensures accepted { (result ≡ IsAccepted) ↔ WitnessOf model.now file.now }
    ensures sound { result ≡ IsAccepted → IsFalse model.now file.now }
{
    let place = file.spec as usize - 1;
    judge_formula(
        sets,
        model,
        constraints,
        &model.formulas()[place],
        &file.lasso,
    )
}
