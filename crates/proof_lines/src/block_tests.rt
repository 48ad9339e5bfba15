//! The lines of a proof from `nonfair` on.

ghost use Rattle.std.specs.Prelude.{◌≡◌, ◌≤◌, ◌+◌, ◌*◌, [], IfOk};
ghost use Rattle.kripke_model.specs.Signs.{node_count};
ghost use Rattle.kripke_model.specs.System.{constraint_count};
ghost use Rattle.region_sets.specs.Sets.{IsCall, IsLive, region};
ghost use Rattle.region_sets.specs.Ranks.{AreLive, regions};
ghost use Rattle.fair_rules.specs.Block.{block_lines};
ghost use Rattle.fair_rules.specs.Claims.{join};
ghost use Rattle.proof_form.specs.Form.{layer_sets};
ghost use Rattle.proof_form.specs.Meaning.{block_of};
ghost use Rattle.proof_lines.specs.Cases.{AreEnds, AreLists, IsCase, claimed_block, formula_in, own_proof, states_of};
ghost use Rattle.claim_sets.specs.Claimed.{AreClaims, claims_of, claims_slots};
ghost use Rattle.claim_sets.specs.ConstraintClaims.{constraints_count};
ghost use Rattle.proof_lines.specs.Frames.{IsFrame, IsFrameOf, avoided_in, visited_in};
ghost use Rattle.proof_lines.specs.LineCounts.{own_line_count};
ghost use Rattle.proof_lines.specs.Tested.{AreTested};

use crate::cases::{Case, Ends};
use crate::claim_ends::end_lines;
use crate::entry_lists::own_lines;
use crate::frames::Frame;
use crate::shared_parts::shared_lines;
use claim_sets::claims::{Claim, claims, release_claims};
use claim_sets::constraint_pins::Constraints;
use claim_sets::entry_sets::{Entries, Ground};
use claim_sets::joins::join_layers;
use region_sets::{Pin, SetRefusal, StateSets};
use std::alloc::Global;

/// Tests the lines from `nonfair` on, by the claims of the formula's nodes.
fn main_lines<S: StateSets>(
    sets: &mut S,
    frame: &Frame<'_>,
    case: &Case<'_>,
    claims: &[Claim],
    line: &mut u64,
) -> Result<bool, SetRefusal>
    requires case { IsCase (S.seen sets.old) case.now }
    requires frame { IsFrame (S.seen sets.old) frame.now }
    requires own { IsFrameOf (S.seen sets.old) frame.now (own_proof (S.seen sets.old) case.now) }
    requires count { constraints_count frame.now.constraints ≡ constraint_count case.now.model.now }
    requires live { AreLive (S.seen sets.old) (claims_slots claims.now) }
    requires claims { AreClaims case.now.model.now (S.seen sets.old) claims.now
        (claims_of case.now.model.now (own_proof (S.seen sets.old) case.now) (formula_in case.now) 1
        0) }
    ensures call { IsCall 8 (S.seen sets.old) (S.seen sets.new) [] result }
    ensures tested { IfOk result (λ yes. AreTested case.now.model.now
        (block_lines case.now.model.now (visited_in (S.seen sets.old) frame.now)
        (avoided_in (S.seen sets.old) frame.now)
        (block_of (states_of (S.seen sets.old) case.now)) (formula_in case.now) 1) line.old yes
        line.new) }
    ensures products { S.products sets.new ≤ S.products sets.old
        + own_line_count case.now.proof.now }
{
    let proof = case.proof;
    if !shared_lines(sets, frame, &proof.nonfair, &proof.fair, line)? {
        return Ok(false);
    }
    if !own_lines(sets, frame, claims, &proof.entries, line)? {
        return Ok(false);
    }
    end_lines(sets, case.model, claims, &proof.at, line)
}

/// Tests the lines from `nonfair` on, by the states of all nonfair layers and the claims of the constraints.
fn claimed_lines<'a, S: StateSets>(
    alloc: Global,
    sets: &mut S,
    ends: &'a Ends<'_>,
    case: &'a Case<'_>,
    nonfair: &'a Pin,
    lists: &'a [Vec<Claim>],
    line: &mut u64,
) -> Result<bool, SetRefusal>
    requires case { IsCase (S.seen sets.old) case.now }
    requires ends { AreEnds (S.seen sets.old) ends.now }
    requires lists { AreLists (S.seen sets.old) case.now.model.now lists.now }
    requires live { IsLive (S.seen sets.old) nonfair.now.slot }
    requires nonfair { region (S.seen sets.old) nonfair.now
        ≡ join (regions (S.seen sets.old) (layer_sets case.now.proof.now.nonfair)) }
    ensures call { IsCall (2 * node_count (formula_in case.now) + 10) (S.seen sets.old)
        (S.seen sets.new) [] result }
    ensures tested { IfOk result (λ yes. AreTested case.now.model.now
        (claimed_block (S.seen sets.old) case.now lists.now) line.old yes line.new) }
    ensures products { S.products sets.new ≤ S.products sets.old
        + own_line_count case.now.proof.now }
{
    let proof = case.proof;
    let fair = &proof.fair;
    let ground = Ground {
        full: ends.full,
        nonfair,
        entries: Entries::Own(&proof.entries),
    };
    let made = claims(alloc, sets, &ground, case.formula)?;
    let frame = Frame {
        full: ends.full,
        empty: ends.empty,
        fair: &fair.inside,
        nonfair,
        constraints: Constraints::Model(case.model, lists),
    };
    let yes = main_lines(sets, &frame, case, &made, line);
    release_claims(sets, made);
    yes
}

/// Tests the lines from `nonfair` on, by the claims of the constraints.
pub fn own_block<S: StateSets>(
    alloc: Global,
    sets: &mut S,
    ends: &Ends<'_>,
    case: &Case<'_>,
    lists: &[Vec<Claim>],
    line: &mut u64,
) -> Result<bool, SetRefusal>
    requires case { IsCase (S.seen sets.old) case.now }
    requires ends { AreEnds (S.seen sets.old) ends.now }
    requires lists { AreLists (S.seen sets.old) case.now.model.now lists.now }
    ensures call { IsCall (2 * node_count (formula_in case.now) + 12) (S.seen sets.old)
        (S.seen sets.new) [] result }
    ensures tested { IfOk result (λ yes. AreTested case.now.model.now
        (claimed_block (S.seen sets.old) case.now lists.now) line.old yes line.new) }
    ensures products { S.products sets.new ≤ S.products sets.old
        + own_line_count case.now.proof.now }
{
    let proof = case.proof;
    let nonfair = join_layers(sets, &proof.nonfair)?;
    let yes = claimed_lines(alloc, sets, ends, case, &nonfair, lists, line);
    sets.release(nonfair);
    yes
}
