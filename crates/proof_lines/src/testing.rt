//! The test of a whole proof.

ghost use Rattle.std.specs.Prelude.{◌≡◌, ◌≤◌, ◌↔◌, ◌+◌, ◌*◌, [], length, option_copied, option_map, IfOk, IsTrue, Some};
ghost use Rattle.kripke_model.specs.Signs.{node_count};
ghost use Rattle.kripke_model.specs.WellFormed.{ctl_of};
ghost use Rattle.region_sets.specs.Sets.{IsCall, region};
ghost use Rattle.region_sets.specs.Ranks.{AreLive};
ghost use Rattle.fair_rules.specs.FreePart.{constraint_nodes};
ghost use Rattle.proof_form.specs.Form.{map_free};
ghost use Rattle.proof_form.specs.Meaning.{ClaimHolds, IsProofOf, ProvesSpec, free_proof, obligations};
ghost use Rattle.proof_form.specs.Pinned.{over_states, proof_slots, test_pins};
ghost use Rattle.proof_form.specs.Shape.{IsInShape, spec_formula};
ghost use Rattle.proof_lines.specs.Cases.{AreEnds, AreLists, IsCase, formula_in, whole_lines};
ghost use Rattle.kripke_model.specs.Leaves.{HasModelLeaves};
ghost use Rattle.claim_sets.specs.ConstraintClaims.{HaveClaims};
ghost use Rattle.claim_sets.specs.FreeClaims.{IsFreeGround};
ghost use Rattle.proof_lines.specs.LineCounts.{set_line_count};
ghost use Rattle.proof_lines.specs.Tested.{AreTested};

use crate::block_tests::own_block;
use crate::cases::{Case, Ends};
use crate::free_tests::free_block;
use claim_sets::claims::Claim;
use claim_sets::free_claims::{constraint_claims, release_claim_lists};
use claim_sets::joins::join_layers;
use kripke_model::expressions::Formula;
use kripke_model::models::Ruled;
use proof_form::form::{FreePart, Proof};
use proof_form::laws::proofs_law;
use proof_form::shapes::is_in_shape;
use region_sets::{Pin, SetRefusal, StateSets};
use std::alloc::Global;

/// Tests the lines of a proof that has a free part, by the states of all its layers and the claims of the constraints.
fn listed_lines<S: StateSets>(
    alloc: Global,
    sets: &mut S,
    ends: &Ends<'_>,
    case: &Case<'_>,
    nonfair: &Pin,
    part: &FreePart<Pin>,
    lists: &[Vec<Claim>],
    line: &mut u64,
) -> Result<bool, SetRefusal>
    requires case { IsCase (S.seen sets.old) case.now }
    requires part { case.now.proof.now.free ≡ Some part.now }
    requires ends { AreEnds (S.seen sets.old) ends.now }
    requires ground { IsFreeGround (S.seen sets.old) ends.now.full.now nonfair.now part.now }
    requires lists { AreLists (S.seen sets.old) case.now.model.now lists.now }
    requires count { length lists.now ≡ length case.now.model.now.constraints }
    requires claims { HaveClaims case.now.model.now (S.seen sets.old)
        (free_proof (Some (map_free (region (S.seen sets.old)) part.now))) lists.now }
    ensures call { IsCall (2 * node_count (formula_in case.now) + 12) (S.seen sets.old)
        (S.seen sets.new) [] result }
    ensures tested { IfOk result (λ yes. AreTested case.now.model.now
        (whole_lines (S.seen sets.old) case.now) line.old yes line.new) }
    ensures products { S.products sets.new ≤ S.products sets.old
        + set_line_count case.now.proof.now }
{
    if !free_block(sets, ends, case.model, nonfair, part, lists, line)? {
        return Ok(false);
    }
    own_block(alloc, sets, ends, case, lists, line)
}

/// Tests the lines of a proof that has a free part, by the states of all its layers.
fn layered_lines<S: StateSets>(
    alloc: Global,
    sets: &mut S,
    ends: &Ends<'_>,
    case: &Case<'_>,
    nonfair: &Pin,
    part: &FreePart<Pin>,
    line: &mut u64,
) -> Result<bool, SetRefusal>
    requires case { IsCase (S.seen sets.old) case.now }
    requires part { case.now.proof.now.free ≡ Some part.now }
    requires ends { AreEnds (S.seen sets.old) ends.now }
    requires ground { IsFreeGround (S.seen sets.old) ends.now.full.now nonfair.now part.now }
    ensures call { IsCall (2 * (node_count (formula_in case.now) + constraint_nodes
        case.now.model.now) + 12) (S.seen sets.old) (S.seen sets.new) [] result }
    ensures tested { IfOk result (λ yes. AreTested case.now.model.now
        (whole_lines (S.seen sets.old) case.now) line.old yes line.new) }
    ensures products { S.products sets.new ≤ S.products sets.old
        + set_line_count case.now.proof.now }
{
    let lists = constraint_claims(alloc, sets, case.model, ends.full, nonfair, part)?;
    let yes = listed_lines(alloc, sets, ends, case, nonfair, part, &lists, line);
    release_claim_lists(sets, lists);
    yes
}

/// Tests the lines of a proof that has a free part.
fn part_then_block<S: StateSets>(
    alloc: Global,
    sets: &mut S,
    ends: &Ends<'_>,
    case: &Case<'_>,
    part: &FreePart<Pin>,
    line: &mut u64,
) -> Result<bool, SetRefusal>
    requires case { IsCase (S.seen sets.old) case.now }
    requires part { case.now.proof.now.free ≡ Some part.now }
    requires ends { AreEnds (S.seen sets.old) ends.now }
    ensures call { IsCall (2 * (node_count (formula_in case.now) + constraint_nodes
        case.now.model.now) + 13) (S.seen sets.old) (S.seen sets.new) [] result }
    ensures tested { IfOk result (λ yes. AreTested case.now.model.now
        (whole_lines (S.seen sets.old) case.now) line.old yes line.new) }
    ensures products { S.products sets.new ≤ S.products sets.old
        + set_line_count case.now.proof.now }
{
    let nonfair = join_layers(sets, &part.nonfair)?;
    let yes = layered_lines(alloc, sets, ends, case, &nonfair, part, line);
    sets.release(nonfair);
    yes
}

/// Tests the lines of a proof, by all states and none.
fn lines_between<S: StateSets>(
    alloc: Global,
    sets: &mut S,
    ends: &Ends<'_>,
    case: &Case<'_>,
    line: &mut u64,
) -> Result<bool, SetRefusal>
    requires case { IsCase (S.seen sets.old) case.now }
    requires ends { AreEnds (S.seen sets.old) ends.now }
    ensures call { IsCall (2 * (node_count (formula_in case.now) + constraint_nodes
        case.now.model.now) + 13) (S.seen sets.old) (S.seen sets.new) [] result }
    ensures tested { IfOk result (λ yes. AreTested case.now.model.now
        (whole_lines (S.seen sets.old) case.now) line.old yes line.new) }
    ensures products { S.products sets.new ≤ S.products sets.old
        + set_line_count case.now.proof.now }
{
    let proof = case.proof;
    match &proof.free {
        None => own_block(alloc, sets, ends, case, &[], line),
        Some(part) => part_then_block(alloc, sets, ends, case, part, line),
    }
}

/// Tests the lines of a proof in shape, while those that hold are counted.
pub fn test_lines<'a, S: StateSets>(
    alloc: Global,
    sets: &mut S,
    model: &'a Ruled,
    formula: &'a Formula,
    proof: &'a Proof<Pin>,
    line: &mut u64,
) -> Result<bool, SetRefusal>
    requires over { (S.seen sets.old).over ≡ model.now }
    requires leaves { HasModelLeaves model.now (ctl_of formula.now) }
    requires live { AreLive (S.seen sets.old) (proof_slots proof.now) }
    requires shape { IsInShape model.now (ctl_of formula.now) proof.now }
    ensures call { IsCall (8 * (node_count (ctl_of formula.now) + constraint_nodes model.now + 2))
        (S.seen sets.old) (S.seen sets.new) [] result }
    ensures tested { IfOk result (λ yes. AreTested model.now
        (obligations model.now (ctl_of formula.now) (over_states (S.seen sets.old) proof.now))
        line.old yes line.new) }
    ensures products { S.products sets.new ≤ S.products sets.old + set_line_count proof.now }
{
    let full = sets.full()?;
    match sets.empty() {
        Ok(empty) => {
            let ends = Ends {
                full: &full,
                empty: &empty,
            };
            let case = Case {
                model,
                formula,
                proof,
            };
            let yes = lines_between(alloc, sets, &ends, &case, line);
            sets.release(full);
            sets.release(empty);
            yes
        }
        Err(refusal) => {
            sets.release(full);
            Err(refusal)
        }
    }
}

/// Whether the proof is one of the formula.
fn proves<S: StateSets>(
    alloc: Global,
    sets: &mut S,
    model: &Ruled,
    formula: &Formula,
    proof: &Proof<Pin>,
) -> Result<bool, SetRefusal>
    requires over { (S.seen sets.old).over ≡ model.now }
    requires leaves { HasModelLeaves model.now (ctl_of formula.now) }
    requires live { AreLive (S.seen sets.old) (proof_slots proof.now) }
    ensures call { IsCall (8 * (node_count (ctl_of formula.now) + constraint_nodes model.now + 2))
        (S.seen sets.old) (S.seen sets.new) [] result }
    ensures answer { IfOk result (λ yes. IsTrue yes ↔ IsProofOf model.now (ctl_of formula.now)
        (over_states (S.seen sets.old) proof.now)) }
    ensures products { S.products sets.new ≤ S.products sets.old + set_line_count proof.now }
{
    if !is_in_shape(alloc, model, formula, proof)? {
        return Ok(false);
    }
    let mut line: u64 = 0;
    test_lines(alloc, sets, model, formula, proof, &mut line)
}

/// The formula of the specification, counted from 1, if there is one.
fn formula_of(model: &Ruled, spec: u32) -> Option<&Formula>
    ensures { option_map ctl_of (option_copied result) ≡ spec_formula model.now spec }
{
    let formulas = model.formulas();
    let after = spec as usize;
    if after == 0 {
        return None;
    }
    if after > formulas.len() {
        return None;
    }
    Some(&formulas[after - 1])
}

/// Whether the proof is one of the specification, counted from 1: it is in shape, and each of its lines shows what it
/// has to. The pins stay live.
pub fn obligations<S: StateSets>(
    alloc: Global,
    sets: &mut S,
    model: &Ruled,
    spec: u32,
    proof: &Proof<Pin>,
) -> Result<bool, SetRefusal>
    requires over { (S.seen sets.old).over ≡ model.now }
    requires live { AreLive (S.seen sets.old) (proof_slots proof.now) }
    ensures call { IsCall (test_pins model.now spec) (S.seen sets.old) (S.seen sets.new) [] result }
    ensures answer { IfOk result
        (λ yes. IsTrue yes ↔ ProvesSpec model.now spec (over_states (S.seen sets.old) proof.now)) }
    ensures sound { IfOk result (λ yes. IsTrue yes → ClaimHolds model.now spec proof.now.claim) }
    ensures products { S.products sets.new ≤ S.products sets.old + set_line_count proof.now }
{
    proofs_law(model);
    match formula_of(model, spec) {
        None => Ok(false),
        Some(formula) => proves(alloc, sets, model, formula, proof),
    }
}
