//! The test of a proof over the nodes of a block.

ghost use Rattle.std.specs.Prelude.{◌≤◌, ◌<◌, ◌+◌, ◌^◌, ℕ, IfErr, IfOk, length};
ghost use Rattle.proof_lines.specs.LineCounts.{set_line_count};
ghost use Rattle.proof_checker.specs.Found.{IsFound};
ghost use Rattle.proof_checker.specs.Givens.{IsGiven, given_lines};
ghost use Rattle.proof_checker.specs.NoRoom.{IsNoRoom};
ghost use Rattle.proof_checker.specs.Ready.{IsClear, IsKept, IsReady};

use crate::counting::{Job, Tested, test_job};
use crate::importing::{Imported, import_numbers};
use crate::kept::{KeptSets, keep, take};
use bdd_nodes::{Steps, Triple};
use diagram_sets::DiagramSets;
use kripke_model::expressions::Formula;
use kripke_model::models::Ruled;
use proof_form::form::Proof;
use region_sets::{SetRefusal, release_all};
use std::alloc::Global;
use std::sync::ledger::Ledger;

/// A proof over the nodes of a block.
#[derive(Drop)]
pub(crate) struct Given<'a> {
    pub(crate) model: &'a Ruled,
    /// The variables, in the order in which their bits stand in the code of a state.
    pub(crate) order: &'a [u32],
    pub(crate) formula: &'a Formula,
    pub(crate) nodes: &'a [Triple],
    pub(crate) proof: &'a Proof<u32>,
}

/// Tests the proof over these sets, and gives them back without the proof's pins.
fn tested_over<L: Ledger>(
    alloc: Global,
    mut sets: DiagramSets,
    given: &Given<'_>,
    limit: u32,
    steps: &mut Steps<L>,
) -> Tested
    requires ready { IsReady given.now.model.now given.now.order.now limit sets }
    requires given { IsGiven given.now }
    ensures clear { IsClear given.now.model.now given.now.order.now limit result.0 }
    ensures found { IfOk result.1 (IsFound given.now.model.now (given_lines given.now)) }
    ensures refused { (lines : ℕ) → length given.now.nodes.now + 2 ≤ lines
        → IfErr result.1 (IsNoRoom given.now.model.now limit lines) }
    ensures counted { steps.old ≤ steps.new }
    ensures local { steps.new ≤ steps.old + set_line_count given.now.proof.now }
{
    sets.coding_law();
    match import_numbers(alloc, &mut sets, given.nodes, given.proof) {
        Ok(Imported { table, pins }) => {
            sets.coding_law();
            let job = Job {
                alloc,
                sets,
                model: given.model,
                formula: given.formula,
                proof: given.proof,
                table: &table,
            };
            let (mut after, found) = test_job(job, steps);
            release_all(&mut after, pins);
            (after, found)
        }
        Err(refusal) => (sets, Err(refusal)),
    }
}

/// The first line of the proof that fails, counted from 0 while the numbers of 64 bits last, if one
/// does. The test has a store of at most `limit` nodes. A step is one product with the transition
/// relation.
pub(crate) fn test_nodes<L: Ledger>(
    alloc: Global,
    given: &Given<'_>,
    limit: u32,
    kept: &mut KeptSets,
    steps: &mut Steps<L>,
) -> Result<Option<u64>, SetRefusal>
    requires limit { limit < 2 ^ 31 }
    requires given { IsGiven given.now }
    requires kept { IsKept given.now.model.now given.now.order.now limit kept.old }
    ensures kept { IsKept given.now.model.now given.now.order.now limit kept.new }
    ensures found { IfOk result (IsFound given.now.model.now (given_lines given.now)) }
    ensures refused { (lines : ℕ) → length given.now.nodes.now + 2 ≤ lines
        → IfErr result (IsNoRoom given.now.model.now limit lines) }
    ensures counted { steps.old ≤ steps.new }
    ensures local { steps.new ≤ steps.old + set_line_count given.now.proof.now }
{
    let sets = take(alloc, given.model, given.order, limit, kept)?;
    let (after, found) = tested_over(alloc, sets, given, limit, steps);
    keep(after, kept);
    found
}
