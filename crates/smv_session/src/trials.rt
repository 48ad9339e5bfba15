// A specification is tried: it is decided, and a proof of what is found is written where that is
// asked for.
ghost use Rattle.std.specs.Prelude.{◌≡◌, [], ℕ, false, IfOk, OnOk, Some, true};
ghost use Rattle.kripke_model.specs.WellFormed.{ctl_of};
ghost use Rattle.kripke_model.specs.Leaves.{HasModelLeaves};
ghost use Rattle.proof_form.specs.Shape.{spec_formula};
ghost use Rattle.proof_text.specs.Written.{own_order};
ghost use Rattle.region_sets.specs.Sets.{IsCall};
ghost use Rattle.smv_session.specs.Relation.{IsBuiltFor, IsTrial, IsTried, trial_pins};

use bdd_nodes::Held;
use diagram_sets::DiagramSets;
use diagram_sets::laws::state_count_law;
use kripke_model::expressions::Formula;
use kripke_model::models::Ruled;
use proof_export::writing::block_text;
use region_sets::{SetRefusal, StateSets};
use smv_texts::Outcome;
use spec_verdicts::{Proved, find, prove};
use std::alloc::{AllocError, Global};

/// What trying a specification gave.
#[derive(Drop)]
pub(crate) enum Tried {
    Decided(Outcome),
    /// It is decided, and this is the text of its proof's block.
    Proved(Outcome, Vec<u8>),
    /// A store was full.
    Full(Held),
}

/// A specification that is to be tried: its number, counted from 1, its formula, and whether it is
/// to be proved.
#[derive(Clone, Copy)]
pub(crate) struct Trial<'a> {
    pub(crate) spec: u32,
    pub(crate) formula: &'a Formula,
    pub(crate) proves: bool,
}

/// Decides a specification over the sets.
fn find_over(
    alloc: Global,
    sets: &mut DiagramSets,
    model: &Ruled,
    formula: &Formula,
) -> Result<Tried, SetRefusal>
    requires over { (⟦<DiagramSets as StateSets>⟧.seen sets.old).over ≡ model.now }
    requires leaves { HasModelLeaves model.now (ctl_of formula.now) }
    ensures call { IsCall (trial_pins model.now (ctl_of formula.now))
        (⟦<DiagramSets as StateSets>⟧.seen sets.old) (⟦<DiagramSets as StateSets>⟧.seen sets.new)
        [] result }
    ensures found { (limit spec : ℕ) → IfOk result
        (IsTried model.now limit false spec (ctl_of formula.now)) }
{
    let outcome = find(alloc, sets, model, formula)?;
    Ok(Tried::Decided(outcome))
}

/// Decides a specification over the sets, and writes a proof of what is found. Its pins are
/// released.
fn prove_over(
    alloc: Global,
    sets: &mut DiagramSets,
    model: &Ruled,
    formula: &Formula,
    spec: u32,
) -> Result<Tried, SetRefusal>
    requires over { (⟦<DiagramSets as StateSets>⟧.seen sets.old).over ≡ model.now }
    requires order { (⟦<DiagramSets as StateSets>⟧.seen sets.old).gauge.order
        ≡ own_order model.now }
    requires leaves { HasModelLeaves model.now (ctl_of formula.now) }
    requires spec { spec_formula model.now spec ≡ Some (ctl_of formula.now) }
    ensures call { IsCall (trial_pins model.now (ctl_of formula.now))
        (⟦<DiagramSets as StateSets>⟧.seen sets.old) (⟦<DiagramSets as StateSets>⟧.seen sets.new)
        [] result }
    ensures found { (limit : ℕ) → IfOk result
        (IsTried model.now limit true spec (ctl_of formula.now)) }
{
    let Proved { outcome, proof } = prove(alloc, sets, model, formula, spec)?;
    let block = block_text(alloc, sets, model, spec, &proof);
    proof.release(sets);
    Ok(Tried::Proved(outcome, block?))
}

/// Tries a specification over the sets. No set is live after the call that was not before.
fn try_over(
    alloc: Global,
    sets: &mut DiagramSets,
    model: &Ruled,
    trial: Trial<'_>,
) -> Result<Tried, SetRefusal>
    requires over { (⟦<DiagramSets as StateSets>⟧.seen sets.old).over ≡ model.now }
    requires order { (⟦<DiagramSets as StateSets>⟧.seen sets.old).gauge.order
        ≡ own_order model.now }
    requires trial { IsTrial model.now trial }
    ensures call { IsCall (trial_pins model.now (ctl_of trial.entry.formula.now))
        (⟦<DiagramSets as StateSets>⟧.seen sets.old) (⟦<DiagramSets as StateSets>⟧.seen sets.new)
        [] result }
    ensures found { (limit : ℕ) → IfOk result (IsTried model.now limit trial.entry.proves
        trial.entry.spec (ctl_of trial.entry.formula.now)) }
{
    if trial.proves {
        prove_over(alloc, sets, model, trial.formula, trial.spec)
    } else {
        find_over(alloc, sets, model, trial.formula)
    }
}

/// Tries the next specification. The store is collected before, so that it begins with the
/// relation's diagrams alone.
pub(crate) fn try_next(
    alloc: Global,
    sets: &mut DiagramSets,
    model: &Ruled,
    trial: Trial<'_>,
) -> Result<Tried, AllocError>
    requires over { (⟦<DiagramSets as StateSets>⟧.seen sets.old).over ≡ model.now }
    requires order { (⟦<DiagramSets as StateSets>⟧.seen sets.old).gauge.order
        ≡ own_order model.now }
    requires trial { IsTrial model.now trial }
    ensures ready { (limit : ℕ)
        → IsBuiltFor model.now limit (⟦<DiagramSets as StateSets>⟧.seen sets.old)
        → OnOk result (IsBuiltFor model.now limit (⟦<DiagramSets as StateSets>⟧.seen sets.new)) }
    ensures tried { (limit : ℕ)
        → IsBuiltFor model.now limit (⟦<DiagramSets as StateSets>⟧.seen sets.old)
        → IfOk result (IsTried model.now limit trial.entry.proves
        trial.entry.spec (ctl_of trial.entry.formula.now)) }
{
    state_count_law(model);
    sets.collect()?;
    match try_over(alloc, sets, model, trial) {
        Ok(tried) => Ok(tried),
        Err(SetRefusal::Full { held }) => Ok(Tried::Full(held)),
        Err(SetRefusal::Memory) => Err(AllocError),
    }
}
