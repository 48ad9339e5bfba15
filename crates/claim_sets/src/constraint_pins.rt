//! The states where a constraint is claimed true, and those where it is claimed false, as one pin.

ghost use Rattle.std.specs.Prelude.{◌≡◌, ◌≤◌, ◌-◌, false, IfOk, option_copied};
ghost use Rattle.kripke_model.specs.System.{constraint_count};
ghost use Rattle.region_sets.specs.Sets.{IsCall, IsLeafConstraint, pin_slots, region};
ghost use Rattle.region_sets.specs.Ranks.{AreLive};
ghost use Rattle.fair_rules.specs.SetLists.{set_at};
ghost use Rattle.proof_form.specs.Agrees.{SameOn};
ghost use Rattle.claim_sets.specs.ConstraintClaims.{AreFitting, IsGiven, claims_at, constraint_list, constraints_count, leaf_side, lists_claims_slots, model_sides, own_claim, whole};

use crate::claims::Claim;
use kripke_model::models::Ruled;
use region_sets::{Pin, SetRefusal, StateSets};

/// What the constraints are, over which a formula is proved.
#[derive(Clone, Copy)]
pub enum Constraints<'a> {
    /// All infinite paths are fair: there is one constraint, which each state meets.
    All,
    /// Those of the model. For each one the claims of its formula; the list is empty where the constraint holds no path
    /// operator.
    Model(&'a Ruled, &'a [Vec<Claim>]),
}

/// All states, or none.
fn all_or_none<S: StateSets>(sets: &mut S, all: bool) -> Result<Pin, SetRefusal>
    ensures call { IsCall 1 (S.seen sets.old) (S.seen sets.new) (pin_slots result) result }
    ensures set { IfOk result (λ pin. SameOn (S.seen sets.old).over (region (S.seen sets.new) pin)
        (whole all)) }
    ensures products { S.products sets.new ≡ S.products sets.old }
{
    if all { sets.full() } else { sets.empty() }
}

/// The states that don't meet a constraint without path operator.
fn unmet<S: StateSets>(sets: &mut S, k: u32) -> Result<Pin, SetRefusal>
    requires some { 1 ≤ k }
    requires within { k ≤ constraint_count (S.seen sets.old).over }
    requires leaf { IsLeafConstraint (S.seen sets.old).over k }
    ensures call { IsCall 3 (S.seen sets.old) (S.seen sets.new) (pin_slots result) result }
    ensures set { IfOk result (λ pin. SameOn (S.seen sets.old).over (region (S.seen sets.new) pin)
        (leaf_side (S.seen sets.old).over false (k - 1))) }
    ensures products { S.products sets.new ≡ S.products sets.old }
{
    let full = sets.full()?;
    match sets.constraint(k) {
        Ok(met) => {
            let set = sets.minus(&full, &met);
            sets.release(full);
            sets.release(met);
            set
        }
        Err(refusal) => {
            sets.release(full);
            Err(refusal)
        }
    }
}

/// The states that meet a constraint without path operator, or those that don't.
fn leaf_pin<S: StateSets>(sets: &mut S, k: u32, sign: bool) -> Result<Pin, SetRefusal>
    requires some { 1 ≤ k }
    requires within { k ≤ constraint_count (S.seen sets.old).over }
    requires leaf { IsLeafConstraint (S.seen sets.old).over k }
    ensures call { IsCall 3 (S.seen sets.old) (S.seen sets.new) (pin_slots result) result }
    ensures set { IfOk result (λ pin. SameOn (S.seen sets.old).over (region (S.seen sets.new) pin)
        (leaf_side (S.seen sets.old).over sign (k - 1))) }
    ensures products { S.products sets.new ≡ S.products sets.old }
{
    if sign {
        sets.constraint(k)
    } else {
        unmet(sets, k)
    }
}

/// The claim of a constraint's whole formula, where it has claims.
fn claim_of(lists: &[Vec<Claim>], k: u32) -> Option<&Claim>
    requires { 1 ≤ k }
    ensures { option_copied result ≡ own_claim (claims_at lists.now (k - 1)) }
{
    let at = k as usize - 1;
    if at >= lists.len() {
        return None;
    }
    let list = &lists[at];
    if list.len() == 0 {
        None
    } else {
        Some(&list[list.len() - 1])
    }
}

/// The states where a constraint of the model is claimed true, or where it is claimed false.
fn model_pin<S: StateSets>(
    sets: &mut S,
    lists: &[Vec<Claim>],
    k: u32,
    sign: bool,
) -> Result<Pin, SetRefusal>
    requires fitting { AreFitting (S.seen sets.old).over lists.now }
    requires live { AreLive (S.seen sets.old) (lists_claims_slots lists.now) }
    requires some { 1 ≤ k }
    requires within { k ≤ constraint_count (S.seen sets.old).over }
    ensures call { IsCall 3 (S.seen sets.old) (S.seen sets.new) (pin_slots result) result }
    ensures set { IfOk result (λ pin. SameOn (S.seen sets.old).over (region (S.seen sets.new) pin)
        (set_at (model_sides (S.seen sets.old).over (S.seen sets.old) lists.now sign) (k - 1))) }
    ensures products { S.products sets.new ≡ S.products sets.old }
{
    match claim_of(lists, k) {
        Some(claim) => sets.copy(claim.side(sign)),
        None => leaf_pin(sets, k, sign),
    }
}

/// The states where constraint k, counted from 1, is claimed true, or where it is claimed false.
pub fn constraint_pin<S: StateSets>(
    sets: &mut S,
    constraints: &Constraints<'_>,
    k: u32,
    sign: bool,
) -> Result<Pin, SetRefusal>
    requires given { IsGiven (S.seen sets.old) constraints.now }
    requires some { 1 ≤ k }
    requires there { k ≤ constraints_count constraints.now }
    ensures call { IsCall 3 (S.seen sets.old) (S.seen sets.new) (pin_slots result) result }
    ensures set { IfOk result (λ pin. SameOn (S.seen sets.old).over (region (S.seen sets.new) pin)
        (set_at (constraint_list (S.seen sets.old) constraints.now sign) (k - 1))) }
    ensures products { S.products sets.new ≡ S.products sets.old }
{
    match constraints {
        Constraints::All => all_or_none(sets, sign),
        Constraints::Model(_, lists) => model_pin(sets, lists, k, sign),
    }
}
