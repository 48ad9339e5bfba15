//! The test of a proof over numbers whose pins are there, with its products counted in the caller's
//! steps.

ghost use Rattle.std.specs.Prelude.{◌≡◌, ◌≤◌, ◌+◌, IfOk};
ghost use Rattle.proof_lines.specs.LineCounts.{set_line_count};
ghost use Rattle.proof_checker.specs.Found.{IsFound};
ghost use Rattle.proof_checker.specs.Imported.{seen_in};
ghost use Rattle.proof_checker.specs.Jobs.{IsJob, IsTestCall, lines_in};

use crate::numbers::first_bad_number;
use bdd_nodes::Steps;
use core::mem::replace_with;
use counted_sets::{CountedSets, Floor};
use diagram_sets::DiagramSets;
use kripke_model::expressions::Formula;
use kripke_model::models::Ruled;
use proof_form::form::Proof;
use region_sets::SetRefusal;
use std::alloc::Global;
use std::marker::Brand;
use std::sync::ledger::Ledger;

/// A proof that is tested, and the sets in which its numbers have their pins.
#[derive(Drop)]
pub(crate) struct Job<'a> {
    pub(crate) alloc: Global,
    pub(crate) sets: DiagramSets,
    pub(crate) model: &'a Ruled,
    pub(crate) formula: &'a Formula,
    pub(crate) proof: &'a Proof<u32>,
    /// For each number the slot of its pin.
    pub(crate) table: &'a [u64],
}

/// The sets after a test, and what was found.
pub(crate) type Tested = (DiagramSets, Result<Option<u64>, SetRefusal>);

/// Tests the proof in steps that don't fall below the floor.
fn tested_above<L: Ledger, F: Floor>(steps: Steps<L>, job: Job<'_>) -> (Steps<L>, Tested)
    requires floor { F.floor ≡ steps }
    requires job { IsJob job }
    ensures found { IfOk result.1.1 (IsFound job.entry.model.now (lines_in job.entry)) }
    ensures call { IsTestCall job.entry (seen_in job.entry.sets) (seen_in result.1.0) result.1.1 }
    ensures counted { steps ≤ result.0 }
    ensures local { result.0 ≤ steps + set_line_count job.entry.proof.now }
{
    let mut counted = CountedSets::<L, F>::new(job.sets, steps);
    let found = first_bad_number(
        job.alloc,
        &mut counted,
        job.model,
        job.formula,
        job.proof,
        job.table,
    );
    let (sets, after) = counted.into_parts();
    (after, (sets, found))
}

/// Tests the proof, and gives the steps and the sets back.
fn tested<L: Ledger>(steps: Steps<L>, job: Job<'_>) -> (Steps<L>, Tested)
    requires { IsJob job }
    ensures found { IfOk result.1.1 (IsFound job.entry.model.now (lines_in job.entry)) }
    ensures call { IsTestCall job.entry (seen_in job.entry.sets) (seen_in result.1.0) result.1.1 }
    ensures counted { steps ≤ result.0 }
    ensures local { result.0 ≤ steps + set_line_count job.entry.proof.now }
{
    tested_above::<L, Brand>(steps, job)
}

/// The first line of the proof that fails, counted from 0, if one does. A step is one product with
/// the transition relation.
pub(crate) fn test_job<L: Ledger>(job: Job<'_>, steps: &mut Steps<L>) -> Tested
    requires { IsJob job }
    ensures found { IfOk result.1 (IsFound job.entry.model.now (lines_in job.entry)) }
    ensures call { IsTestCall job.entry (seen_in job.entry.sets) (seen_in result.0) result.1 }
    ensures counted { steps.old ≤ steps.new }
    ensures local { steps.new ≤ steps.old + set_line_count job.entry.proof.now }
{
    replace_with(steps, job, tested::<L>)
}
