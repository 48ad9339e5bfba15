//! The lines of what a proof's entries share: the states without a fair path, and those with one.

ghost use Rattle.std.specs.Prelude.{◌≡◌, ◌+◌, ◌≤◌, [], ◌∷◌, length, map, All, IfOk};
ghost use Rattle.region_sets.specs.Sets.{IsCall, region};
ghost use Rattle.region_sets.specs.Ranks.{AreLive, slots};
ghost use Rattle.fair_rules.specs.SetLists.{everything, nothing};
ghost use Rattle.fair_rules.specs.Checks.{layer_lines, reach_lines};
ghost use Rattle.proof_form.specs.Form.{fair_sets, layer_sets, map_layer};
ghost use Rattle.proof_form.specs.Meaning.{layer_of};
ghost use Rattle.proof_form.specs.Shape.{Avoids};
ghost use Rattle.claim_sets.specs.ConstraintClaims.{constraints_count};
ghost use Rattle.proof_lines.specs.Cases.{shared};
ghost use Rattle.proof_lines.specs.Frames.{IsFrame, avoided_in, visited_in};
ghost use Rattle.proof_lines.specs.LineCounts.{fair_line_count};
ghost use Rattle.proof_lines.specs.Tested.{AreTested};

use crate::frames::{Frame, few_law};
use crate::lines::{count, layers, reaches};
use proof_form::form::{FairPart, Layer};
use region_sets::{Pin, SetRefusal, StateSets};

/// Tests the lines of the layers of states where no fair path begins, after one that has nothing to show.
fn nonfair_lines<S: StateSets>(
    sets: &mut S,
    frame: &Frame<'_>,
    nonfair: &[Layer<Pin>],
    line: &mut u64,
) -> Result<bool, SetRefusal>
    requires frame { IsFrame (S.seen sets.old) frame.now }
    requires avoids { All (Avoids (constraints_count frame.now.constraints)) nonfair.now }
    requires live { AreLive (S.seen sets.old) (slots (layer_sets nonfair.now)) }
    ensures call { IsCall 6 (S.seen sets.old) (S.seen sets.new) [] result }
    ensures tested { IfOk result (λ yes. AreTested (S.seen sets.old).over
        ([] ∷ layer_lines (avoided_in (S.seen sets.old) frame.now) everything nothing nothing
        (map layer_of (map (map_layer (region (S.seen sets.old))) nonfair.now))) line.old yes
        line.new) }
    ensures products { S.products sets.new ≤ S.products sets.old + length nonfair.now }
{
    count(line);
    layers(
        sets,
        &frame.constraints,
        frame.full,
        frame.empty,
        nonfair,
        line,
    )
}

/// Tests the lines of the set where fair paths begin, after one that has nothing to show.
fn fair_lines<S: StateSets>(
    sets: &mut S,
    frame: &Frame<'_>,
    fair: &FairPart<Pin>,
    line: &mut u64,
) -> Result<bool, SetRefusal>
    requires frame { IsFrame (S.seen sets.old) frame.now }
    requires count { length fair.now.reach ≡ constraints_count frame.now.constraints }
    requires live { AreLive (S.seen sets.old) (slots (fair_sets fair.now)) }
    ensures call { IsCall 6 (S.seen sets.old) (S.seen sets.new) [] result }
    ensures tested { IfOk result (λ yes. AreTested (S.seen sets.old).over
        ([] ∷ reach_lines (region (S.seen sets.old) fair.now.inside)
        (visited_in (S.seen sets.old) frame.now)
        (map (map (region (S.seen sets.old))) fair.now.reach)) line.old yes line.new) }
    ensures products { S.products sets.new ≤ S.products sets.old + fair_line_count fair.now }
{
    few_law(&frame.constraints);
    count(line);
    let lists = &fair.reach;
    reaches(
        sets,
        &frame.constraints,
        frame.empty,
        &fair.inside,
        lists,
        line,
    )
}

/// Tests the lines of what a proof's entries share.
pub fn shared_lines<S: StateSets>(
    sets: &mut S,
    frame: &Frame<'_>,
    nonfair: &[Layer<Pin>],
    fair: &FairPart<Pin>,
    line: &mut u64,
) -> Result<bool, SetRefusal>
    requires frame { IsFrame (S.seen sets.old) frame.now }
    requires avoids { All (Avoids (constraints_count frame.now.constraints)) nonfair.now }
    requires layers { AreLive (S.seen sets.old) (slots (layer_sets nonfair.now)) }
    requires count { length fair.now.reach ≡ constraints_count frame.now.constraints }
    requires live { AreLive (S.seen sets.old) (slots (fair_sets fair.now)) }
    ensures call { IsCall 6 (S.seen sets.old) (S.seen sets.new) [] result }
    ensures tested { IfOk result (λ yes. AreTested (S.seen sets.old).over
        (shared (visited_in (S.seen sets.old) frame.now) (avoided_in (S.seen sets.old) frame.now)
        (map layer_of (map (map_layer (region (S.seen sets.old))) nonfair.now))
        (region (S.seen sets.old) fair.now.inside)
        (map (map (region (S.seen sets.old))) fair.now.reach)) line.old yes line.new) }
    ensures products { S.products sets.new ≤ S.products sets.old
        + (length nonfair.now + fair_line_count fair.now) }
{
    if !nonfair_lines(sets, frame, nonfair, line)? {
        return Ok(false);
    }
    fair_lines(sets, frame, fair, line)
}
