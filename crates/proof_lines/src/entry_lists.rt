//! The lines of a formula's entries, in order, by the claims of its nodes.

ghost use Rattle.std.specs.Prelude.{◌≡◌, ◌+◌, ◌-◌, ◌<◌, ◌≤◌, [], All, IfOk, List, Some, ℕ, length, map};
ghost use Rattle.kripke_model.specs.Ctl.{Ctl};
ghost use Rattle.kripke_model.specs.Signs.{node_count};
ghost use Rattle.path_laws.specs.StateSet.{StateSet};
ghost use Rattle.region_sets.specs.Sets.{IsCall, region};
ghost use Rattle.region_sets.specs.Ranks.{AreLive, slots};
ghost use Rattle.fair_rules.specs.Block.{asked_lines, demand_at, listed_lines};
ghost use Rattle.fair_rules.specs.Claims.{Proof};
ghost use Rattle.proof_form.specs.Form.{FreePart, entries_sets, map_entry, map_free_entry, map_rule, rule_sets};
ghost use Rattle.proof_form.specs.Meaning.{entry_of, free_avoided, free_demand, free_entry_lines, free_proof, free_visited, listed_of};
ghost use Rattle.proof_form.specs.Seen.{seen_rule};
ghost use Rattle.proof_form.specs.Shape.{FitsConstraints};
ghost use Rattle.claim_sets.specs.declared.constraint_pins.Constraints.TheVariants as constraints;
ghost use Rattle.claim_sets.specs.Claimed.{AreClaims, ClaimView, claims_of, claims_slots, demand_in};
ghost use Rattle.claim_sets.specs.ConstraintClaims.{HaveClaims, claims_at, constraints_count, lists_claims_slots};
ghost use Rattle.proof_lines.specs.Frames.{IsFrame, IsFrameOf, avoided_in, visited_in};
ghost use Rattle.claim_sets.specs.Claimed.{AreBefore};
ghost use Rattle.proof_lines.specs.LineCounts.{entries_line_count, free_entries_line_count, rule_line_count};
ghost use Rattle.proof_lines.specs.Tested.{AreTested};

use crate::entries::rule_lines;
use crate::frames::{Frame, absent};
use claim_sets::claims::{Asks, Claim};
use proof_form::form::{Entry, FreeEntry, Rule};
use region_sets::{Pin, SetRefusal, StateSets};

/// Tests the lines of what is given for a sign of the node whose claim stands at the place. No claim of a formula's
/// list asks for parts that don't stand before it.
fn node_lines<S: StateSets>(
    sets: &mut S,
    frame: &Frame<'_>,
    claims: &[Claim],
    place: usize,
    sign: bool,
    rule: &Rule<Pin>,
    line: &mut u64,
) -> Result<bool, SetRefusal>
    requires frame { IsFrame (S.seen sets.old) frame.now }
    requires claims { AreLive (S.seen sets.old) (claims_slots claims.now) }
    requires there { place < length claims.now }
    requires rule { AreLive (S.seen sets.old) (slots (rule_sets (seen_rule rule.now))) }
    requires fits { FitsConstraints (constraints_count frame.now.constraints) (seen_rule rule.now) }
    ensures call { IsCall 8 (S.seen sets.old) (S.seen sets.new) [] result }
    ensures tested { IfOk result (λ yes. (p : Proof) (views : List ClaimView)
        → IsFrameOf (S.seen sets.old) frame.now p
        → AreClaims (S.seen sets.old).over (S.seen sets.old) claims.now views → AreBefore views
        → AreTested (S.seen sets.old).over
        (asked_lines (visited_in (S.seen sets.old) frame.now)
        (avoided_in (S.seen sets.old) frame.now) p
        (demand_in views place sign)
        (entry_of (map_rule (region (S.seen sets.old)) (seen_rule rule.now)))) line.old yes
        line.new) }
    ensures products { S.products sets.new ≤ S.products sets.old
        + rule_line_count (seen_rule rule.now) }
{
    match claims[place].asks {
        Asks::Nothing => Ok(true),
        Asks::One(op) => {
            if place == 0 {
                return Ok(false);
            }
            let last = claims[place - 1].side(sign);
            rule_lines(sets, frame, absent(frame, op, sign), last, rule, line)
        }
        Asks::Two(_, at) => {
            if place == 0 {
                return Ok(false);
            }
            if at >= claims.len() {
                return Ok(false);
            }
            let first = claims[place - 1].side(sign);
            rule_lines(sets, frame, first, claims[at].side(sign), rule, line)
        }
    }
}

/// Tests the lines of an entry, by the claims of a formula's nodes.
fn asked_entry<S: StateSets>(
    sets: &mut S,
    frame: &Frame<'_>,
    claims: &[Claim],
    entry: &Entry<Pin>,
    line: &mut u64,
) -> Result<bool, SetRefusal>
    requires frame { IsFrame (S.seen sets.old) frame.now }
    requires claims { AreLive (S.seen sets.old) (claims_slots claims.now) }
    requires entry { AreLive (S.seen sets.old) (slots (rule_sets entry.now.rule)) }
    requires numbered { (1 ≤ entry.now.node) × (entry.now.node ≤ length claims.now) }
    requires fits { FitsConstraints (constraints_count frame.now.constraints) entry.now.rule }
    ensures call { IsCall 8 (S.seen sets.old) (S.seen sets.new) [] result }
    ensures tested { IfOk result (λ yes. (p : Proof) (f : Ctl)
        → IsFrameOf (S.seen sets.old) frame.now p → length claims.now ≡ node_count f
        → AreClaims (S.seen sets.old).over (S.seen sets.old) claims.now
        (claims_of (S.seen sets.old).over p f 1 0)
        → AreTested (S.seen sets.old).over
        (asked_lines (visited_in (S.seen sets.old) frame.now)
        (avoided_in (S.seen sets.old) frame.now) p
        (demand_at (S.seen sets.old).over p f 1 entry.now.node entry.now.plus)
        (entry_of (map_rule (region (S.seen sets.old)) entry.now.rule))) line.old yes line.new) }
    ensures products { S.products sets.new ≤ S.products sets.old + rule_line_count entry.now.rule }
{
    let place = claims.len() - entry.node as usize;
    node_lines(sets, frame, claims, place, entry.plus, &entry.rule, line)
}

/// Tests the lines of a formula's entries, by the claims of its nodes.
pub fn own_lines<S: StateSets>(
    sets: &mut S,
    frame: &Frame<'_>,
    claims: &[Claim],
    entries: &[Entry<Pin>],
    line: &mut u64,
) -> Result<bool, SetRefusal>
    requires frame { IsFrame (S.seen sets.old) frame.now }
    requires claims { AreLive (S.seen sets.old) (claims_slots claims.now) }
    requires entries { AreLive (S.seen sets.old) (slots (entries_sets entries.now)) }
    requires numbered { All (λ e. (1 ≤ e.node) × (e.node ≤ length claims.now)) entries.now }
    requires fits { All (λ e. FitsConstraints (constraints_count frame.now.constraints) e.rule)
        entries.now }
    ensures call { IsCall 8 (S.seen sets.old) (S.seen sets.new) [] result }
    ensures tested { IfOk result (λ yes. (p : Proof) (f : Ctl)
        → IsFrameOf (S.seen sets.old) frame.now p → length claims.now ≡ node_count f
        → AreClaims (S.seen sets.old).over (S.seen sets.old) claims.now
        (claims_of (S.seen sets.old).over p f 1 0)
        → AreTested (S.seen sets.old).over (listed_lines (S.seen sets.old).over
        (visited_in (S.seen sets.old) frame.now) (avoided_in (S.seen sets.old) frame.now) p f 1
        (map listed_of (map (map_entry (region (S.seen sets.old))) entries.now))) line.old yes
        line.new) }
    ensures products { S.products sets.new ≤ S.products sets.old + entries_line_count entries.now }
{
    for k in 0..entries.len() {
        if !asked_entry(sets, frame, claims, &entries[k], line)? {
            return Ok(false);
        }
    }
    Ok(true)
}

/// Tests the lines of an entry for a constraint; `lists` has the claims of each constraint's formula.
fn free_entry<S: StateSets>(
    sets: &mut S,
    frame: &Frame<'_>,
    lists: &[Vec<Claim>],
    free: &FreeEntry<Pin>,
    line: &mut u64,
) -> Result<bool, SetRefusal>
    requires frame { IsFrame (S.seen sets.old) frame.now }
    requires all { frame.now.constraints ≡ constraints.All }
    requires lists { AreLive (S.seen sets.old) (lists_claims_slots lists.now) }
    requires few { length lists.now ≤ length (S.seen sets.old).over.constraints }
    requires entry { AreLive (S.seen sets.old) (slots (rule_sets free.now.entry.rule)) }
    requires constraint { (1 ≤ free.now.constraint) × (free.now.constraint ≤ length lists.now) }
    requires numbered { (1 ≤ free.now.entry.node)
        × (free.now.entry.node ≤ length (claims_at lists.now (free.now.constraint - 1))) }
    requires fits { FitsConstraints 1 free.now.entry.rule }
    ensures call { IsCall 8 (S.seen sets.old) (S.seen sets.new) [] result }
    ensures tested { IfOk result (λ yes. (part : FreePart StateSet)
        → ((k : ℕ) → IsFrameOf (S.seen sets.old) frame.now (free_proof (Some part) k))
        → HaveClaims (S.seen sets.old).over (S.seen sets.old) (free_proof (Some part)) lists.now
        → AreTested (S.seen sets.old).over (asked_lines free_visited free_avoided
        (free_proof (Some part) (free.now.constraint - 1)) (free_demand (S.seen sets.old).over part
        (map_free_entry (region (S.seen sets.old)) free.now))
        (entry_of (map_rule (region (S.seen sets.old)) free.now.entry.rule))) line.old yes
        line.new) }
    ensures products { S.products sets.new ≤ S.products sets.old
        + rule_line_count free.now.entry.rule }
{
    let claims = &lists[free.constraint as usize - 1];
    asked_entry(sets, frame, claims, &free.entry, line)
}

/// Tests the lines of the entries for constraints, over all paths; `lists` has the claims of each constraint's
/// formula.
pub fn free_entry_tests<S: StateSets>(
    sets: &mut S,
    frame: &Frame<'_>,
    lists: &[Vec<Claim>],
    entries: &[FreeEntry<Pin>],
    line: &mut u64,
) -> Result<bool, SetRefusal>
    requires frame { IsFrame (S.seen sets.old) frame.now }
    requires all { frame.now.constraints ≡ constraints.All }
    requires lists { AreLive (S.seen sets.old) (lists_claims_slots lists.now) }
    requires few { length lists.now ≤ length (S.seen sets.old).over.constraints }
    requires entries { AreLive (S.seen sets.old)
        (slots (entries_sets (map (λ e. e.entry) entries.now))) }
    requires constraints { All (λ e. (1 ≤ e.constraint) × (e.constraint ≤ length lists.now))
        entries.now }
    requires numbered { All (λ e. (1 ≤ e.entry.node)
        × (e.entry.node ≤ length (claims_at lists.now (e.constraint - 1)))) entries.now }
    requires fits { All (λ e. FitsConstraints 1 e.entry.rule) entries.now }
    ensures call { IsCall 8 (S.seen sets.old) (S.seen sets.new) [] result }
    ensures tested { IfOk result (λ yes. (part : FreePart StateSet)
        → ((k : ℕ) → IsFrameOf (S.seen sets.old) frame.now (free_proof (Some part) k))
        → HaveClaims (S.seen sets.old).over (S.seen sets.old) (free_proof (Some part)) lists.now
        → AreTested (S.seen sets.old).over (free_entry_lines (S.seen sets.old).over part
        (map (map_free_entry (region (S.seen sets.old))) entries.now)) line.old yes line.new) }
    ensures products { S.products sets.new ≤ S.products sets.old
        + free_entries_line_count entries.now }
{
    for at in 0..entries.len() {
        if !free_entry(sets, frame, lists, &entries[at], line)? {
            return Ok(false);
        }
    }
    Ok(true)
}
