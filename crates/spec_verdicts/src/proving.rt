// What is found of a specification with a proof of it, over any sets of states.
ghost use Rattle.std.specs.Prelude.{◌≡◌, ◌≤◌, ◌+◌, ◌*◌, IfOk, IsSomeAnd, Some, is_none, length};
ghost use Rattle.kripke_model.specs.Signs.{node_count};
ghost use Rattle.kripke_model.specs.WellFormed.{ctl_of};
ghost use Rattle.fair_rules.specs.FreePart.{constraint_nodes};
ghost use Rattle.fair_rules.specs.SetLists.{everything};
ghost use Rattle.region_sets.specs.Ranks.{AreLive};
ghost use Rattle.region_sets.specs.Sets.{IsCall};
ghost use Rattle.path_laws.specs.StateCount.{state_count};
ghost use Rattle.fair_fixpoint.specs.Runs.{run_slots};
ghost use Rattle.fair_fixpoint.specs.SatSets.{IsDecided as IsParted, IsWholeRun, pin_bound};
ghost use Rattle.kripke_model.specs.Leaves.{HasModelLeaves};
ghost use Rattle.proof_form.specs.Meaning.{ProvesSpec};
ghost use Rattle.proof_form.specs.Pinned.{over_states, proof_result_slots, spec_nodes};
ghost use Rattle.proof_form.specs.Shape.{spec_formula};
ghost use Rattle.rank_extract.specs.Extracts.{IsLiveRun, Shows};
ghost use Rattle.smv_texts.specs.Outcomes.{outcome_of};
ghost use Rattle.spec_verdicts.specs.Proved.{HasProof, fails_at, proved_slots};
ghost use Rattle.spec_verdicts.specs.Verdicts.{IsDecided};

use crate::failing::outcome_by;
use fair_fixpoint::runs::Run;
use fair_fixpoint::sat::sat_sets;
use kripke_model::expressions::Formula;
use kripke_model::models::Ruled;
use kripke_model::states::State;
use proof_form::form::Proof;
use rank_extract::extraction::extract;
use region_sets::{Pin, SetRefusal, StateSets};
use smv_texts::Outcome;
use std::alloc::{AllocError, Global};

/// What is found of a specification, with a proof of it, whose pins must be released.
pub struct Proved {
    pub outcome: Outcome,
    pub proof: Proof<Pin>,
}

/// The state that is shown.
fn failing_state(alloc: Global, outcome: &Outcome) -> Result<Option<State>, AllocError>
    ensures { IfOk result (λ at. at ≡ fails_at (outcome_of outcome.now)) }
{
    match outcome {
        Outcome::False { state, .. } => Ok(Some(state.copy(alloc)?)),
        Outcome::True | Outcome::Unknown(_) => Ok(None),
    }
}

/// A proof of the outcome by the sets of the specification's formula.
fn proof_by<S: StateSets>(
    alloc: Global,
    sets: &mut S,
    model: &Ruled,
    run: &Run,
    spec: u32,
    outcome: &Outcome,
) -> Result<Proof<Pin>, SetRefusal>
    requires over { (S.seen sets.old).over ≡ model.now }
    requires run { IsSomeAnd (spec_formula model.now spec)
        (λ f. IsLiveRun model.now f (S.seen sets.old) run.now) }
    requires shown { Shows model.now (S.seen sets.old) run.now (fails_at (outcome_of outcome.now)) }
    ensures call { IsCall (pin_bound model.now (spec_nodes model.now spec + constraint_nodes
        model.now) (state_count model.now)) (S.seen sets.old) (S.seen sets.new)
        (proof_result_slots result) result }
    ensures few { length (proof_result_slots result) ≤ pin_bound model.now
        (spec_nodes model.now spec + constraint_nodes model.now) (state_count model.now) }
    ensures claim { IfOk result
        (λ proof. proof.claim ≡ is_none (fails_at (outcome_of outcome.now))) }
    ensures state { IfOk result (λ proof. proof.at ≡ fails_at (outcome_of outcome.now)) }
    ensures proof { IfOk result (λ proof.
        ProvesSpec model.now spec (over_states (S.seen sets.new) proof)) }
{
    match failing_state(alloc, outcome) {
        Ok(at) => extract(alloc, sets, model, run, spec, at),
        Err(_) => Err(SetRefusal::Memory),
    }
}

/// What the sets of the specification's formula show of it, with a proof by them.
fn proved_by<S: StateSets>(
    alloc: Global,
    sets: &mut S,
    model: &Ruled,
    run: &Run,
    formula: &Formula,
    spec: u32,
) -> Result<Proved, SetRefusal>
    requires model { model.now ≡ (S.seen sets.old).over }
    requires run { IsWholeRun model.now (ctl_of formula.now) (S.seen sets.old) run.now }
    requires parted { IsParted model.now everything (ctl_of formula.now) (S.seen sets.old) run.now }
    requires live { AreLive (S.seen sets.old) (run_slots run.now) }
    requires spec { spec_formula model.now spec ≡ Some (ctl_of formula.now) }
    ensures call { IsCall (pin_bound model.now
        (node_count (ctl_of formula.now) + constraint_nodes model.now) (state_count model.now))
        (S.seen sets.old) (S.seen sets.new) (proved_slots result) result }
    ensures few { length (proved_slots result) ≤ pin_bound model.now
        (node_count (ctl_of formula.now) + constraint_nodes model.now) (state_count model.now) }
    ensures found { IfOk result (λ found.
        IsDecided model.now (ctl_of formula.now) (outcome_of found.outcome)) }
    ensures proof { IfOk result (HasProof model.now spec (S.seen sets.new)) }
{
    let outcome = outcome_by(alloc, sets, model, run, formula)?;
    let proof = proof_by(alloc, sets, model, run, spec, &outcome)?;
    Ok(Proved { outcome, proof })
}

/// The same as `find`, with a proof of what is found. `spec` is the number of the specification with
/// this formula, counted from 1.
///
/// `Full` comes only from a store that met its limit. The pins of the proof alone are live after the
/// call and were not before; they are at most those of `pin_bound`.
pub fn prove<S: StateSets>(
    alloc: Global,
    sets: &mut S,
    model: &Ruled,
    formula: &Formula,
    spec: u32,
) -> Result<Proved, SetRefusal>
    requires model { model.now ≡ (S.seen sets.old).over }
    requires leaves { HasModelLeaves model.now (ctl_of formula.now) }
    requires spec { spec_formula model.now spec ≡ Some (ctl_of formula.now) }
    ensures call { IsCall (2 * pin_bound model.now
        (node_count (ctl_of formula.now) + constraint_nodes model.now) (state_count model.now))
        (S.seen sets.old) (S.seen sets.new) (proved_slots result) result }
    ensures few { length (proved_slots result) ≤ pin_bound model.now
        (node_count (ctl_of formula.now) + constraint_nodes model.now) (state_count model.now) }
    ensures found { IfOk result (λ found.
        IsDecided model.now (ctl_of formula.now) (outcome_of found.outcome)) }
    ensures proof { IfOk result (HasProof model.now spec (S.seen sets.new)) }
{
    let run = sat_sets(alloc, sets, model, formula)?;
    let proved = proved_by(alloc, sets, model, &run, formula, spec);
    run.release(sets);
    proved
}
