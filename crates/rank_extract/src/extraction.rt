//! A whole proof, from the sets of a formula.

ghost use Rattle.std.specs.Prelude.{◌≡◌, ◌≤◌, ◌+◌, Some, IfOk, IsSome, IsSomeAnd, is_none, length};
ghost use Rattle.kripke_model.specs.WellFormed.{ctl_of};
ghost use Rattle.fair_rules.specs.FreePart.{constraint_nodes};
ghost use Rattle.region_sets.specs.Sets.{IsCall};
ghost use Rattle.path_laws.specs.StateCount.{state_count};
ghost use Rattle.fair_fixpoint.specs.SatSets.{pin_bound};
ghost use Rattle.proof_form.specs.Meaning.{ProvesSpec};
ghost use Rattle.proof_form.specs.Pinned.{over_states, proof_result_slots, spec_nodes};
ghost use Rattle.proof_form.specs.Shape as shapes;
ghost use Rattle.rank_extract.specs.Extracts.{IsLiveRun, Shows};

use crate::free_whole::free_part;
use crate::laws::written_law;
use crate::written::{MainPart, main_part};
use fair_fixpoint::runs::Run;
use kripke_model::expressions::Formula;
use kripke_model::models::Ruled;
use kripke_model::states::State;
use proof_form::form::Proof;
use region_sets::{Pin, SetRefusal, StateSets};
use std::alloc::Global;

/// The formula of the specification, counted from 1.
fn formula_of(model: &Ruled, spec: u32) -> &Formula
    requires { IsSome (shapes.spec_formula model.now spec) }
    ensures { shapes.spec_formula model.now spec ≡ Some (ctl_of result.now) }
{
    &model.formulas()[spec as usize - 1]
}

/// A proof of the specification, counted from 1, from the sets of its formula: that it is true, or that it is false at
/// the state. The proof has pins of its own, and the run keeps those that it has.
pub fn extract<S: StateSets>(
    alloc: Global,
    sets: &mut S,
    model: &Ruled,
    run: &Run,
    spec: u32,
    at: Option<State>,
) -> Result<Proof<Pin>, SetRefusal>
    requires over { (S.seen sets.old).over ≡ model.now }
    requires run { IsSomeAnd (shapes.spec_formula model.now spec)
        (λ f. IsLiveRun model.now f (S.seen sets.old) run.now) }
    requires shown { Shows model.now (S.seen sets.old) run.now at }
    ensures call { IsCall (pin_bound model.now (spec_nodes model.now spec + constraint_nodes
        model.now) (state_count model.now)) (S.seen sets.old) (S.seen sets.new)
        (proof_result_slots result) result }
    ensures few { length (proof_result_slots result) ≤ pin_bound model.now
        (spec_nodes model.now spec + constraint_nodes model.now) (state_count model.now) }
    ensures claim { IfOk result (λ proof. proof.claim ≡ is_none at) }
    ensures state { IfOk result (λ proof. proof.at ≡ at) }
    ensures proof { IfOk result
        (λ proof. ProvesSpec model.now spec (over_states (S.seen sets.new) proof)) }
{
    model.rules_law();
    written_law(model);
    let formula = formula_of(model, spec);
    let main = main_part(alloc, sets, run, formula, &at)?;
    match free_part(alloc, sets, model) {
        Ok(free) => {
            let MainPart {
                nonfair,
                fair,
                entries,
            } = main;
            Ok(Proof {
                claim: at.is_none(),
                free,
                nonfair,
                fair,
                entries,
                at,
            })
        }
        Err(refusal) => {
            main.release(sets);
            Err(refusal)
        }
    }
}
