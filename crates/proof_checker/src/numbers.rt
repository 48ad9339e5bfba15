//! The test of a proof whose sets are numbers, by the pin of each number.

ghost use Rattle.std.specs.Prelude.{◌≡◌, ◌≤◌, ◌+◌, []};
ghost use Rattle.std.specs.Prelude.{All, IfOk, slice_index};
ghost use Rattle.kripke_model.specs.WellFormed.{ctl_of};
ghost use Rattle.region_sets.specs.Sets.{IsCall, IsLive};
ghost use Rattle.region_sets.specs.Ranks.{AreLive};
ghost use Rattle.proof_form.specs.Form.{sets_of};
ghost use Rattle.proof_form.specs.Meaning.{obligations};
ghost use Rattle.proof_form.specs.Pinned.{over_states, proof_slots};
ghost use Rattle.proof_form.specs.Shape.{IsInShape};
ghost use Rattle.kripke_model.specs.Leaves.{HasModelLeaves};
ghost use Rattle.proof_lines.specs.LineCounts.{set_line_count};
ghost use Rattle.block_proofs.specs.PinsFor.{pinned};
ghost use Rattle.proof_checker.specs.Found.{IsFound};
ghost use Rattle.proof_checker.specs.Jobs.{test_pins};

use block_proofs::letting_go::LetGo;
use block_proofs::pinning::with_pins;
use kripke_model::expressions::Formula;
use kripke_model::models::Ruled;
use proof_form::form::Proof;
use proof_lines::testing::test_lines;
use region_sets::{Pin, SetRefusal, StateSets};
use std::alloc::Global;

/// The first line of a proof in shape that fails, counted from 0, if one does.
fn first_bad<S: StateSets>(
    alloc: Global,
    sets: &mut S,
    model: &Ruled,
    formula: &Formula,
    proof: &Proof<Pin>,
) -> Result<Option<u64>, SetRefusal>
    requires over { (S.seen sets.old).over ≡ model.now }
    requires leaves { HasModelLeaves model.now (ctl_of formula.now) }
    requires live { AreLive (S.seen sets.old) (proof_slots proof.now) }
    requires shape { IsInShape model.now (ctl_of formula.now) proof.now }
    ensures call { IsCall (test_pins model.now (ctl_of formula.now))
        (S.seen sets.old) (S.seen sets.new) [] result }
    ensures found { IfOk result (IsFound model.now (obligations model.now (ctl_of formula.now)
        (over_states (S.seen sets.old) proof.now))) }
    ensures products { S.products sets.new ≤ S.products sets.old + set_line_count proof.now }
{
    let mut line: u64 = 0;
    match test_lines(alloc, sets, model, formula, proof, &mut line) {
        Ok(true) => Ok(None),
        Ok(false) => Ok(Some(line)),
        Err(refusal) => Err(refusal),
    }
}

/// The same where the proof's sets are numbers, each of which has a slot in the table.
pub(crate) fn first_bad_number<S: StateSets>(
    alloc: Global,
    sets: &mut S,
    model: &Ruled,
    formula: &Formula,
    proof: &Proof<u32>,
    table: &[u64],
) -> Result<Option<u64>, SetRefusal>
    requires over { (S.seen sets.old).over ≡ model.now }
    requires leaves { HasModelLeaves model.now (ctl_of formula.now) }
    requires live { All (λ number. IsLive (S.seen sets.old) (slice_index table.now number))
        (sets_of proof.now) }
    requires shape { IsInShape model.now (ctl_of formula.now) proof.now }
    ensures call { IsCall (test_pins model.now (ctl_of formula.now))
        (S.seen sets.old) (S.seen sets.new) [] result }
    ensures found { IfOk result (IsFound model.now (obligations model.now (ctl_of formula.now)
        (over_states (S.seen sets.old) (pinned table.now proof.now)))) }
    ensures products { S.products sets.new ≤ S.products sets.old + set_line_count proof.now }
{
    match with_pins(alloc, table, proof) {
        Ok(pins) => {
            let found = first_bad(alloc, sets, model, formula, &pins);
            pins.let_go();
            found
        }
        Err(_) => Err(SetRefusal::Memory),
    }
}
