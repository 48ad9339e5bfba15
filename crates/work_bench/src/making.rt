//! The run of a formula and the proof from it, with the time of both.

ghost use Rattle.std.specs.Prelude.{◌≡◌, [], Some, IsSomeAnd};
ghost use Rattle.kripke_model.specs.WellFormed.{ctl_of};
ghost use Rattle.region_sets.specs.Sets.{Adds};
ghost use Rattle.region_sets.specs.Ranks.{AreLive};
ghost use Rattle.fair_rules.specs.SetLists.{everything};
ghost use Rattle.fair_fixpoint.specs.Runs.{run_slots};
ghost use Rattle.fair_fixpoint.specs.SatSets.{IsDecided, IsWholeRun};
ghost use Rattle.kripke_model.specs.Leaves.{HasModelLeaves};
ghost use Rattle.proof_form.specs.Shape.{spec_formula};
ghost use Rattle.proof_text.specs.Written.{own_order};
ghost use Rattle.rank_extract.specs.Extracts.{IsLiveRun, Shows};

use crate::counting::{Counts, run_pins};
use crate::times::{Times, cpu_nanos};
use crate::writing::file_of;
use case_models::initials::least_initial;
use diagram_sets::DiagramSets;
use fair_fixpoint::runs::Run;
use fair_fixpoint::sat::sat_sets;
use kripke_model::expressions::Formula;
use kripke_model::models::Ruled;
use kripke_model::states::State;
use rank_extract::extraction::extract;
use region_sets::{Pin, SetRefusal, StateSets};

/// What is made of a run.
#[derive(Drop)]
struct Made {
    /// Whether the proof is one that the specification is true.
    holds: bool,
    counts: Counts,
    nanos: u128,
    /// The file with the proof.
    text: Vec<u8>,
}

/// What is measured of a specification.
#[derive(Drop)]
pub struct Measured {
    /// Whether it is true at all initial states.
    pub holds: bool,
    pub counts: Counts,
    /// How many pins the run has.
    pub pins: usize,
    pub times: Times,
    /// The file with the proof.
    pub text: Vec<u8>,
}

/// Makes the proof, and releases it.
fn make_proof(
    rt: &HostRuntime,
    sets: &mut DiagramSets,
    model: &Ruled,
    run: &Run,
    spec: u32,
    at: Option<State>,
) -> Result<Made, SetRefusal>
    requires over { (⟦<DiagramSets as StateSets>⟧.seen sets.old).over ≡ model.now }
    requires order { (⟦<DiagramSets as StateSets>⟧.seen sets.old).gauge.order
        ≡ own_order model.now }
    requires run { IsSomeAnd (spec_formula model.now spec) (λ f. IsLiveRun model.now f
        (⟦<DiagramSets as StateSets>⟧.seen sets.old) run.now) }
    requires shown { Shows model.now (⟦<DiagramSets as StateSets>⟧.seen sets.old) run.now at }
    ensures { Adds (⟦<DiagramSets as StateSets>⟧.seen sets.old)
        (⟦<DiagramSets as StateSets>⟧.seen sets.new) [] }
{
    let holds = at.is_none();
    let start = cpu_nanos(rt);
    let proof = extract(rt.alloc(), sets, model, run, spec, at)?;
    let end = cpu_nanos(rt);
    let counts = Counts::of_proof(&proof);
    let text = file_of(rt.alloc(), sets, model, spec, &proof);
    proof.release(sets);
    Ok(Made {
        holds,
        counts,
        nanos: end.saturating_sub(start),
        text: text?,
    })
}

/// Makes the proof of what the run says of the specification.
fn make_by(
    rt: &HostRuntime,
    sets: &mut DiagramSets,
    model: &Ruled,
    formula: &Formula,
    run: &Run,
    spec: u32,
) -> Result<Made, SetRefusal>
    requires over { (⟦<DiagramSets as StateSets>⟧.seen sets.old).over ≡ model.now }
    requires order { (⟦<DiagramSets as StateSets>⟧.seen sets.old).gauge.order
        ≡ own_order model.now }
    requires spec { spec_formula model.now spec ≡ Some (ctl_of formula.now) }
    requires run { IsWholeRun model.now (ctl_of formula.now)
        (⟦<DiagramSets as StateSets>⟧.seen sets.old) run.now }
    requires decided { IsDecided model.now everything (ctl_of formula.now)
        (⟦<DiagramSets as StateSets>⟧.seen sets.old) run.now }
    requires live { AreLive (⟦<DiagramSets as StateSets>⟧.seen sets.old) (run_slots run.now) }
    ensures { Adds (⟦<DiagramSets as StateSets>⟧.seen sets.old)
        (⟦<DiagramSets as StateSets>⟧.seen sets.new) [] }
{
    let failing = least_initial(sets, run.minus(1))?;
    make_proof(rt, sets, model, run, spec, failing)
}

/// Makes the run and the proof of a specification, counted from 1, and releases both.
pub fn measure(
    rt: &HostRuntime,
    sets: &mut DiagramSets,
    model: &Ruled,
    formula: &Formula,
    spec: u32,
) -> Result<Measured, SetRefusal>
    requires over { (⟦<DiagramSets as StateSets>⟧.seen sets.old).over ≡ model.now }
    requires order { (⟦<DiagramSets as StateSets>⟧.seen sets.old).gauge.order
        ≡ own_order model.now }
    requires spec { spec_formula model.now spec ≡ Some (ctl_of formula.now) }
    requires leaves { HasModelLeaves model.now (ctl_of formula.now) }
{
    let start = cpu_nanos(rt);
    let run = sat_sets(rt.alloc(), sets, model, formula)?;
    let end = cpu_nanos(rt);
    let made = make_by(rt, sets, model, formula, &run, spec);
    let pins = run_pins(&run);
    run.release(sets);
    let Made {
        holds,
        counts,
        nanos,
        text,
    } = made?;
    Ok(Measured {
        holds,
        counts,
        pins,
        times: Times {
            run: end.saturating_sub(start),
            proof: nanos,
            ..Times::zero()
        },
        text,
    })
}
