//! What is written of a run: all of a proof but its free part.

ghost use Rattle.std.specs.Prelude.{◌≡◌, ◌<◌, None, length};
ghost use Rattle.kripke_model.specs.Signs.{node_count};
ghost use Rattle.kripke_model.specs.WellFormed.{ctl_of};
ghost use Rattle.region_sets.specs.Sets.{Adds, AreDistinct};
ghost use Rattle.region_sets.specs.Ranks.{AreLive};
ghost use Rattle.fair_fixpoint.specs.Runs.{run_slots};
ghost use Rattle.rank_extract.specs.Extracts.{run_proof};
ghost use Rattle.rank_extract.specs.Made.{IsMade};
ghost use Rattle.rank_extract.specs.Parts.{behind_own, behind_seen, behind_size, main_own, main_seen, main_size, run_behind};

use crate::copying::{copy_fair, copy_layers};
use crate::entries::all_entries;
use fair_fixpoint::runs::Run;
use kripke_model::expressions::Formula;
use kripke_model::states::State;
use proof_form::form::{Entry, FairPart, Layer};
use proof_form::releasing::{release_entries, release_layers};
use region_sets::{Pin, SetRefusal, StateSets};
use std::alloc::Global;

/// The fair part of a proof and its entries.
struct Behind {
    fair: FairPart<Pin>,
    entries: Vec<Entry<Pin>>,
}

/// What a proof has over fair paths: all but its claim, its state and its free part.
pub struct MainPart {
    pub nonfair: Vec<Layer<Pin>>,
    pub fair: FairPart<Pin>,
    pub entries: Vec<Entry<Pin>>,
}

impl MainPart {
    /// Releases each pin.
    pub fn release<S: StateSets>(self, sets: &mut S)
        requires live { AreLive (S.seen sets.old) (main_own self) }
        requires once { AreDistinct (main_own self) }
        ensures pins { Adds (S.seen sets.new) (S.seen sets.old) (main_own self) }
        ensures fulls { (S.seen sets.new).fulls ≡ (S.seen sets.old).fulls }
    {
        let MainPart {
            nonfair,
            fair,
            entries,
        } = self;
        release_layers(sets, nonfair);
        fair.release(sets);
        release_entries(sets, entries);
    }
}

/// The fair part, and the entries that the claim at the state needs.
fn behind_layers<S: StateSets>(
    alloc: Global,
    sets: &mut S,
    run: &Run,
    formula: &Formula,
    at: &Option<State>,
) -> Result<Behind, SetRefusal>
    requires live { AreLive (S.seen sets.old) (run_slots run.now) }
    requires count { length run.now.nodes.items ≡ node_count (ctl_of formula.now) }
    requires few { length run.now.nodes.items < 4294967295 }
    ensures { IsMade behind_own behind_seen behind_size (S.seen sets.old) (S.seen sets.new)
        (run_behind (ctl_of formula.now) (S.seen sets.old) run.now at.now) result }
{
    let fair = copy_fair(alloc, sets, &run.fair, &run.reach)?;
    match all_entries(
        alloc,
        sets,
        &run.fair,
        &run.nodes,
        formula,
        at.is_none(),
        at.is_some(),
    ) {
        Ok(entries) => Ok(Behind { fair, entries }),
        Err(refusal) => {
            fair.release(sets);
            Err(refusal)
        }
    }
}

/// The layers, the fair part, and the entries that the claim at the state needs, from the sets of the formula. They have
/// pins of their own, and the run keeps those that it has.
pub fn main_part<S: StateSets>(
    alloc: Global,
    sets: &mut S,
    run: &Run,
    formula: &Formula,
    at: &Option<State>,
) -> Result<MainPart, SetRefusal>
    requires live { AreLive (S.seen sets.old) (run_slots run.now) }
    requires count { length run.now.nodes.items ≡ node_count (ctl_of formula.now) }
    requires few { length run.now.nodes.items < 4294967295 }
    ensures { IsMade main_own (main_seen at.now) main_size (S.seen sets.old) (S.seen sets.new)
        (run_proof (ctl_of formula.now) (S.seen sets.old) run.now at.now None) result }
{
    let nonfair = copy_layers(alloc, sets, &run.nonfair)?;
    match behind_layers(alloc, sets, run, formula, at) {
        Ok(behind) => {
            let Behind { fair, entries } = behind;
            Ok(MainPart {
                nonfair,
                fair,
                entries,
            })
        }
        Err(refusal) => {
            release_layers(sets, nonfair);
            Err(refusal)
        }
    }
}
