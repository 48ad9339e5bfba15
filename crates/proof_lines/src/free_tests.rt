//! The lines of what a proof gives for the constraints' formulas.

ghost use Rattle.std.specs.Prelude.{◌≡◌, ◌+◌, ◌≤◌, ℕ, [], length, IfOk, Some};
ghost use Rattle.region_sets.specs.Sets.{IsCall, region};
ghost use Rattle.region_sets.specs.Ranks.{AreLive, slots};
ghost use Rattle.proof_form.specs.Form.{free_sets, map_free};
ghost use Rattle.proof_form.specs.Meaning.{free_lines, free_proof};
ghost use Rattle.proof_form.specs.Shape.{IsFreeInShape};
ghost use Rattle.proof_lines.specs.Cases.{AreEnds, AreLists};
ghost use Rattle.claim_sets.specs.ConstraintClaims.{HaveClaims};
ghost use Rattle.claim_sets.specs.FreeClaims.{IsFreeGround};
ghost use Rattle.proof_lines.specs.Frames.{IsFrame, IsFrameOf};
ghost use Rattle.proof_lines.specs.LineCounts.{free_line_count};
ghost use Rattle.claim_sets.specs.declared.constraint_pins.Constraints.TheVariants as constraints;
ghost use Rattle.proof_lines.specs.Tested.{AreTested};

use crate::cases::Ends;
use crate::entry_lists::free_entry_tests;
use crate::frames::Frame;
use crate::lines::count;
use crate::shared_parts::shared_lines;
use claim_sets::claims::Claim;
use claim_sets::constraint_pins::Constraints;
use kripke_model::models::Ruled;
use proof_form::form::FreePart;
use region_sets::{Pin, SetRefusal, StateSets};

/// Tests the lines of the free part, after one that has nothing to show.
fn part_lines<S: StateSets>(
    sets: &mut S,
    frame: &Frame<'_>,
    lists: &[Vec<Claim>],
    part: &FreePart<Pin>,
    line: &mut u64,
) -> Result<bool, SetRefusal>
    requires frame { IsFrame (S.seen sets.old) frame.now }
    requires all { frame.now.constraints ≡ constraints.All }
    requires own { (k : ℕ)
        → IsFrameOf (S.seen sets.old) frame.now
        (free_proof (Some (map_free (region (S.seen sets.old)) part.now)) k) }
    requires live { AreLive (S.seen sets.old) (slots (free_sets part.now)) }
    requires shape { IsFreeInShape (S.seen sets.old).over part.now }
    requires lists { AreLists (S.seen sets.old) (S.seen sets.old).over lists.now }
    requires count { length lists.now ≡ length (S.seen sets.old).over.constraints }
    requires claims { HaveClaims (S.seen sets.old).over (S.seen sets.old)
        (free_proof (Some (map_free (region (S.seen sets.old)) part.now))) lists.now }
    ensures call { IsCall 8 (S.seen sets.old) (S.seen sets.new) [] result }
    ensures tested { IfOk result (λ yes. AreTested (S.seen sets.old).over
        (free_lines (S.seen sets.old).over (Some (map_free (region (S.seen sets.old)) part.now)))
        line.old yes line.new) }
    ensures products { S.products sets.new ≤ S.products sets.old + free_line_count part.now }
{
    count(line);
    if !shared_lines(sets, frame, &part.nonfair, &part.fair, line)? {
        return Ok(false);
    }
    free_entry_tests(sets, frame, lists, &part.entries, line)
}

/// Tests the lines of the free part, by the states of all its layers and the claims of the constraints.
pub fn free_block<'a, S: StateSets>(
    sets: &mut S,
    ends: &'a Ends<'_>,
    model: &Ruled,
    nonfair: &'a Pin,
    part: &'a FreePart<Pin>,
    lists: &[Vec<Claim>],
    line: &mut u64,
) -> Result<bool, SetRefusal>
    requires over { (S.seen sets.old).over ≡ model.now }
    requires ends { AreEnds (S.seen sets.old) ends.now }
    requires ground { IsFreeGround (S.seen sets.old) ends.now.full.now nonfair.now part.now }
    requires shape { IsFreeInShape model.now part.now }
    requires lists { AreLists (S.seen sets.old) model.now lists.now }
    requires count { length lists.now ≡ length model.now.constraints }
    requires claims { HaveClaims model.now (S.seen sets.old)
        (free_proof (Some (map_free (region (S.seen sets.old)) part.now))) lists.now }
    ensures call { IsCall 8 (S.seen sets.old) (S.seen sets.new) [] result }
    ensures tested { IfOk result (λ yes. AreTested model.now
        (free_lines model.now (Some (map_free (region (S.seen sets.old)) part.now))) line.old yes
        line.new) }
    ensures products { S.products sets.new ≤ S.products sets.old + free_line_count part.now }
{
    let fair = &part.fair;
    let frame = Frame {
        full: ends.full,
        empty: ends.empty,
        fair: &fair.inside,
        nonfair,
        constraints: Constraints::All,
    };
    part_lines(sets, &frame, lists, part, line)
}
