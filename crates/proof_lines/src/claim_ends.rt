//! The lines of the claim, which end a proof.

ghost use Rattle.std.specs.Prelude.{◌≡◌, ◌≤◌, [], ◌∷◌, length, IfOk, IfSome};
ghost use Rattle.kripke_model.specs.Ctl.{Ctl};
ghost use Rattle.kripke_model.specs.Step.{IsState};
ghost use Rattle.region_sets.specs.Sets.{IsCall, IsLive, region};
ghost use Rattle.region_sets.specs.Ranks.{AreLive};
ghost use Rattle.fair_rules.specs.Block.{claim_lines};
ghost use Rattle.fair_rules.specs.Checks.{Check};
ghost use Rattle.fair_rules.specs.Claims.{Proof};
ghost use Rattle.claim_sets.specs.Claimed.{AreClaims, claims_of, claims_slots};
ghost use Rattle.proof_lines.specs.Tested.{AreTested};

use crate::checks::{begins, starts};
use crate::lines::count;
use claim_sets::claims::Claim;
use kripke_model::models::Ruled;
use kripke_model::states::State;
use region_sets::{Pin, SetRefusal, StateSets};

/// Tests that each initial state is one of the set.
fn start_line<S: StateSets>(sets: &mut S, set: &Pin, line: &mut u64) -> Result<bool, SetRefusal>
    requires { IsLive (S.seen sets.old) set.now.slot }
    ensures call { IsCall 2 (S.seen sets.old) (S.seen sets.new) [] result }
    ensures tested { IfOk result (λ yes. AreTested (S.seen sets.old).over
        ((Check.Starts (region (S.seen sets.old) set.now) ∷ []) ∷ []) line.old yes line.new) }
    ensures products { S.products sets.new ≡ S.products sets.old }
{
    if !starts(sets, set)? {
        return Ok(false);
    }
    count(line);
    Ok(true)
}

/// Tests that the state is an initial one of the set, before a line that has nothing to show.
fn begin_lines<S: StateSets>(sets: &S, model: &Ruled, s: &State, set: &Pin, line: &mut u64) -> bool
    requires over { (S.seen sets.now).over ≡ model.now }
    requires live { IsLive (S.seen sets.now) set.now.slot }
    requires state { IsState model.now s.now }
    ensures { AreTested model.now ((Check.Begins s.now (region (S.seen sets.now) set.now) ∷ []) ∷ []
        ∷ []) line.old result line.new }
{
    if !begins(sets, model, s, set) {
        return false;
    }
    count(line);
    count(line);
    true
}

/// Tests the lines of the claim, by the claimed sets of the formula's nodes.
pub fn end_lines<S: StateSets>(
    sets: &mut S,
    model: &Ruled,
    claims: &[Claim],
    at: &Option<State>,
    line: &mut u64,
) -> Result<bool, SetRefusal>
    requires over { (S.seen sets.old).over ≡ model.now }
    requires live { AreLive (S.seen sets.old) (claims_slots claims.now) }
    requires some { 1 ≤ length claims.now }
    requires state { IfSome at.now (IsState model.now) }
    ensures call { IsCall 2 (S.seen sets.old) (S.seen sets.new) [] result }
    ensures tested { IfOk result (λ yes. (p : Proof) (f : Ctl)
        → AreClaims model.now (S.seen sets.old) claims.now (claims_of model.now p f 1 0)
        → AreTested model.now (claim_lines model.now p f 1 at.now) line.old yes line.new) }
    ensures products { S.products sets.new ≡ S.products sets.old }
{
    let own = &claims[claims.len() - 1];
    match at {
        None => start_line(sets, &own.plus, line),
        Some(s) => Ok(begin_lines(sets, model, s, &own.minus, line)),
    }
}
