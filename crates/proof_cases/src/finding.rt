//! The proof that a formula is true, or that it is false, and whether it is one.

ghost use Rattle.std.specs.Prelude.{◌≡◌, [], ◌∷◌, IsSomeAnd, IfOk, map};
ghost use Rattle.kripke_model.specs.Ctl.{formula_of};
ghost use Rattle.kripke_model.specs.WellFormed.{ctl_of};
ghost use Rattle.region_sets.specs.Ranks.{AreLive};
ghost use Rattle.fair_rules.specs.SetLists.{everything};
ghost use Rattle.fair_fixpoint.specs.Runs.{run_slots};
ghost use Rattle.fair_fixpoint.specs.SatSets.{IsDecided, IsWholeRun};
ghost use Rattle.kripke_model.specs.Leaves.{HasModelLeaves};
ghost use Rattle.proof_form.specs.Pinned.{proof_slots};
ghost use Rattle.proof_form.specs.Shape.{spec_formula};
ghost use Rattle.rank_extract.specs.Extracts.{IsLiveRun, Shows};
ghost use Rattle.proof_cases.specs.LetGo.{HasPins, Keeps, Lessens, LetsGo};

use crate::added::with_spare;
use crate::bare::without_layers;
use crate::wrong::{Change, changed};
use case_models::initials::least_initial;
use fair_fixpoint::runs::Run;
use fair_fixpoint::sat::sat_sets;
use kripke_model::expressions::Formula;
use kripke_model::models::Ruled;
use kripke_model::states::State;
use proof_form::form::Proof;
use proof_lines::testing::obligations;
use rank_extract::extraction::extract;
use region_sets::{Pin, SetRefusal, StateSets};
use std::alloc::{AllocError, Global};

/// What is found of a formula and of its proof.
#[derive(Drop)]
pub struct Found {
    /// The least initial state where the formula is false.
    pub failing: Option<State>,
    /// Whether the proof is one.
    pub proved: bool,
    /// Whether it is one without its layers.
    pub bare: bool,
}

/// Whether a proof is one, and whether it is one without its layers.
#[derive(Drop)]
struct Tested {
    proved: bool,
    bare: bool,
}

/// Whether the proof of the model's first specification is one without its layers. Each pin of it is released.
fn is_proved_bare<S: StateSets>(
    alloc: Global,
    sets: &mut S,
    model: &Ruled,
    proof: Proof<Pin>,
) -> Result<bool, SetRefusal>
    requires over { (S.seen sets.old).over ≡ model.now }
    requires pins { HasPins (S.seen sets.old) (proof_slots proof) }
    ensures { Lessens (S.seen sets.old) (S.seen sets.new) (proof_slots proof) [] }
{
    let bare = without_layers(alloc, sets, proof);
    let proved = obligations(alloc, sets, model, 1, &bare);
    bare.release(sets);
    proved
}

/// Whether the proof is one of the specification, with its layers, and one of the first, without. Each pin of it is
/// released.
fn test_both<S: StateSets>(
    alloc: Global,
    sets: &mut S,
    model: &Ruled,
    spec: u32,
    proof: Proof<Pin>,
) -> Result<Tested, SetRefusal>
    requires over { (S.seen sets.old).over ≡ model.now }
    requires pins { HasPins (S.seen sets.old) (proof_slots proof) }
    ensures { Lessens (S.seen sets.old) (S.seen sets.new) (proof_slots proof) [] }
{
    let proved = obligations(alloc, sets, model, spec, &proof);
    let bare = is_proved_bare(alloc, sets, model, proof);
    Ok(Tested {
        proved: proved?,
        bare: bare?,
    })
}

/// Makes a change to the proof, and tests it. Each pin of it is released, and the spare one, which
/// has no state.
fn test_changed<S: StateSets>(
    alloc: Global,
    sets: &mut S,
    model: &Ruled,
    proof: Proof<Pin>,
    spare: Pin,
    change: Change,
) -> Result<Tested, SetRefusal>
    requires over { (S.seen sets.old).over ≡ model.now }
    requires pins { HasPins (S.seen sets.old) (spare.slot ∷ proof_slots proof) }
    ensures { Lessens (S.seen sets.old) (S.seen sets.new) (spare.slot ∷ proof_slots proof) [] }
{
    let proof = with_spare(alloc, sets, proof, spare, change);
    let proof = changed(alloc, sets, proof, change);
    test_both(alloc, sets, model, change.spec(), proof)
}

/// Tests the proof with the change. Each pin of it is released.
fn test_beside<S: StateSets>(
    alloc: Global,
    sets: &mut S,
    model: &Ruled,
    proof: Proof<Pin>,
    change: Change,
) -> Result<Tested, SetRefusal>
    requires over { (S.seen sets.old).over ≡ model.now }
    requires pins { HasPins (S.seen sets.old) (proof_slots proof) }
    ensures { LetsGo (S.seen sets.old) (S.seen sets.new) (proof_slots proof) }
{
    match sets.empty() {
        Ok(spare) => test_changed(alloc, sets, model, proof, spare, change),
        Err(refusal) => {
            proof.release(sets);
            Err(refusal)
        }
    }
}

/// Makes a proof of the model's first specification, or that it is false at the state, and tests it with the change.
fn test_extracted<S: StateSets>(
    alloc: Global,
    sets: &mut S,
    model: &Ruled,
    run: &Run,
    at: Option<State>,
    change: Change,
) -> Result<Tested, SetRefusal>
    requires over { (S.seen sets.old).over ≡ model.now }
    requires run { IsSomeAnd (spec_formula model.now 1)
        (λ f. IsLiveRun model.now f (S.seen sets.old) run.now) }
    requires shown { Shows model.now (S.seen sets.old) run.now at }
    ensures { Keeps (S.seen sets.old) (S.seen sets.new) }
{
    let proof = extract(alloc, sets, model, run, 1, at)?;
    test_beside(alloc, sets, model, proof, change)
}

/// The same state.
fn copy_of(alloc: Global, at: &Option<State>) -> Result<Option<State>, AllocError>
    ensures { IfOk result (λ copy. copy ≡ at.now) }
{
    match at {
        None => Ok(None),
        Some(state) => {
            let copy = state.copy(alloc)?;
            Ok(Some(copy))
        }
    }
}

/// What the sets of the model's first specification say, and whether its proof by them, with the change, is one.
fn decide_by<S: StateSets>(
    alloc: Global,
    sets: &mut S,
    model: &Ruled,
    formula: &Formula,
    run: &Run,
    change: Change,
) -> Result<Found, SetRefusal>
    requires over { (S.seen sets.old).over ≡ model.now }
    requires spec { ctl_of formula.now ∷ [] ≡ map (λ c. formula_of c.expr) model.now.specs }
    requires run { IsWholeRun model.now (ctl_of formula.now) (S.seen sets.old) run.now }
    requires decided { IsDecided model.now everything (ctl_of formula.now) (S.seen sets.old)
        run.now }
    requires live { AreLive (S.seen sets.old) (run_slots run.now) }
    ensures { Keeps (S.seen sets.old) (S.seen sets.new) }
{
    let failing = least_initial(sets, run.minus(1))?;
    let at = copy_of(alloc, &failing)?;
    let tested = test_extracted(alloc, sets, model, run, at, change)?;
    let Tested { proved, bare } = tested;
    Ok(Found {
        failing,
        proved,
        bare,
    })
}

/// The least initial state where the model's first specification is false, and whether the proof of that,
/// with the change, is one.
pub fn decide<S: StateSets>(
    alloc: Global,
    sets: &mut S,
    model: &Ruled,
    formula: &Formula,
    change: Change,
) -> Result<Found, SetRefusal>
    requires over { (S.seen sets.old).over ≡ model.now }
    requires spec { ctl_of formula.now ∷ [] ≡ map (λ c. formula_of c.expr) model.now.specs }
    requires leaves { HasModelLeaves model.now (ctl_of formula.now) }
{
    let run = sat_sets(alloc, sets, model, formula)?;
    let found = decide_by(alloc, sets, model, formula, &run, change);
    run.release(sets);
    found
}
