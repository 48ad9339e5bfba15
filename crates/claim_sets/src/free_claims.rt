//! The claims of the constraints' formulas, by what a proof gives for them over all paths.

ghost use Rattle.std.specs.Prelude.{◌≡◌, ◌+◌, ◌*◌, ◌<◌, ◌≤◌, ℕ, [], length, map, slice_index_or, All, IfOk, OnOk, Some};
ghost use Rattle.kripke_model.specs.Ctl.{Ctl};
ghost use Rattle.kripke_model.specs.WellFormed.{ctl_of};
ghost use Rattle.kripke_model.specs.Leaves.{is_leaf, HasModelLeaves};
ghost use Rattle.region_sets.specs.Sets.{Adds, AreDistinct, IsCall, region};
ghost use Rattle.region_sets.specs.Ranks.{AreLive};
ghost use Rattle.fair_rules.specs.Claims.{Proof};
ghost use Rattle.fair_rules.specs.FreePart.{constraint_nodes, path_nodes, path_nodes_of};
ghost use Rattle.proof_form.specs.Form.{map_free};
ghost use Rattle.proof_form.specs.Meaning.{free_proof};
ghost use Rattle.claim_sets.specs.EntrySets.{IsGround, IsGroundOf};
ghost use Rattle.claim_sets.specs.Claimed.{claims_result_slots, claims_slots};
ghost use Rattle.claim_sets.specs.ConstraintClaims.{AreFitting, HaveClaims, claims_at, lists_claims_slots};
ghost use Rattle.claim_sets.specs.FreeClaims.{ArePathClaims, IsFreeGround, IsListing, lists_result_slots};

use crate::claims::{Claim, claims, release_claims};
use crate::entry_sets::{Entries, Ground};
use kripke_model::expressions::Formula;
use kripke_model::models::Ruled;
use proof_form::form::FreePart;
use region_sets::{Pin, SetRefusal, StateSets};
use std::alloc::{AllocFailed, Global};

/// Releases each pin of each list of claims.
pub fn release_claim_lists<S: StateSets>(sets: &mut S, mut lists: Vec<Vec<Claim>>)
    requires live { AreLive (S.seen sets.old) (lists_claims_slots lists.items) }
    requires once { AreDistinct (lists_claims_slots lists.items) }
    ensures pins { Adds (S.seen sets.new) (S.seen sets.old) (lists_claims_slots lists.items) }
    ensures fulls { (S.seen sets.new).fulls ≡ (S.seen sets.old).fulls }
    ensures products { S.products sets.new ≡ S.products sets.old }
{
    while let Some(list) = lists.pop() {
        release_claims(sets, list);
    }
    lists.destroy_empty();
}

fn is_leaf(formula: &Formula) -> bool
    ensures { result ≡ is_leaf (ctl_of formula.now) }
{
    matches!(formula, Formula::Leaf(_))
}

/// The claims of a formula; a leaf has none.
fn path_claims<S: StateSets>(
    alloc: Global,
    sets: &mut S,
    ground: &Ground<'_>,
    formula: &Formula,
) -> Result<Vec<Claim>, SetRefusal>
    requires ground { IsGround (S.seen sets.old) ground.now }
    requires leaves { HasModelLeaves (S.seen sets.old).over (ctl_of formula.now) }
    ensures call { IsCall (2 * path_nodes (ctl_of formula.now) + 8) (S.seen sets.old)
        (S.seen sets.new) (claims_result_slots result) result }
    ensures pins { IfOk result (λ claims. length (claims_slots claims.items)
        ≡ 2 * path_nodes (ctl_of formula.now)) }
    ensures claims { IfOk result (λ claims. (p : Proof) → IsGroundOf (S.seen sets.old) ground.now p
        → ArePathClaims (S.seen sets.old).over (S.seen sets.new) p (ctl_of formula.now)
        claims.items) }
    ensures products { S.products sets.new ≡ S.products sets.old }
{
    if is_leaf(formula) {
        Ok(Vec::new(alloc))
    } else {
        claims(alloc, sets, ground, formula)
    }
}

/// The claims of a constraint's formula, by what is given for constraint k, counted from 1.
fn constraint_list<S: StateSets>(
    alloc: Global,
    sets: &mut S,
    full: &Pin,
    nonfair: &Pin,
    part: &FreePart<Pin>,
    k: u32,
    formula: &Formula,
) -> Result<Vec<Claim>, SetRefusal>
    requires ground { IsFreeGround (S.seen sets.old) full.now nonfair.now part.now }
    requires leaves { HasModelLeaves (S.seen sets.old).over (ctl_of formula.now) }
    ensures call { IsCall (2 * path_nodes (ctl_of formula.now) + 8) (S.seen sets.old)
        (S.seen sets.new) (claims_result_slots result) result }
    ensures pins { IfOk result (λ claims. length (claims_slots claims.items)
        ≡ 2 * path_nodes (ctl_of formula.now)) }
    ensures claims { IfOk result (λ claims. (j : ℕ) → j + 1 ≡ k
        → ArePathClaims (S.seen sets.old).over (S.seen sets.new)
        (free_proof (Some (map_free (region (S.seen sets.old)) part.now)) j) (ctl_of formula.now)
        claims.items) }
    ensures products { S.products sets.new ≡ S.products sets.old }
{
    let ground = Ground {
        full,
        nonfair,
        entries: Entries::Of(k, &part.entries),
    };
    path_claims(alloc, sets, &ground, formula)
}

/// Adds the claims of the next constraint's formula.
fn add_constraint<S: StateSets>(
    alloc: Global,
    sets: &mut S,
    full: &Pin,
    nonfair: &Pin,
    part: &FreePart<Pin>,
    formula: &Formula,
    lists: &mut Vec<Vec<Claim>>,
) -> Result<(), SetRefusal>
    requires ground { IsFreeGround (S.seen sets.old) full.now nonfair.now part.now }
    requires leaves { HasModelLeaves (S.seen sets.old).over (ctl_of formula.now) }
    requires few { length lists.old.items < 4294967295 }
    ensures listing { IsListing (2 * path_nodes (ctl_of formula.now) + 8)
        (2 * path_nodes (ctl_of formula.now)) (S.seen sets.old) (S.seen sets.new) lists.old.items
        lists.new.items (ArePathClaims (S.seen sets.old).over (S.seen sets.new)
        (free_proof (Some (map_free (region (S.seen sets.old)) part.now)) (length lists.old.items))
        (ctl_of formula.now)) result }
    ensures products { S.products sets.new ≡ S.products sets.old }
{
    let k = lists.len() as u32 + 1;
    let list = constraint_list(alloc, sets, full, nonfair, part, k, formula)?;
    match lists.push(list) {
        Ok(()) => Ok(()),
        Err(failed) => {
            let AllocFailed { value } = failed;
            release_claims(sets, value);
            Err(SetRefusal::Memory)
        }
    }
}

/// Adds the claims of all constraints' formulas to a list that has none.
fn add_constraints<S: StateSets>(
    alloc: Global,
    sets: &mut S,
    full: &Pin,
    nonfair: &Pin,
    part: &FreePart<Pin>,
    formulas: &[Formula],
    lists: &mut Vec<Vec<Claim>>,
) -> Result<(), SetRefusal>
    requires ground { IsFreeGround (S.seen sets.old) full.now nonfair.now part.now }
    requires leaves { All (HasModelLeaves (S.seen sets.old).over) (map ctl_of formulas.now) }
    requires few { length formulas.now ≤ 4294967295 }
    requires none { lists.old.items ≡ [] }
    ensures call { IsCall (2 * path_nodes_of (map ctl_of formulas.now) + 8) (S.seen sets.old)
        (S.seen sets.new) (lists_claims_slots lists.new.items) result }
    ensures count { OnOk result (length lists.new.items ≡ length formulas.now) }
    ensures pins { OnOk result (length (lists_claims_slots lists.new.items)
        ≡ 2 * path_nodes_of (map ctl_of formulas.now)) }
    ensures claims { OnOk result ((k : ℕ) (f : Ctl) → k < length formulas.now
        → ArePathClaims (S.seen sets.old).over (S.seen sets.new)
        (free_proof (Some (map_free (region (S.seen sets.old)) part.now)) k)
        (slice_index_or (map ctl_of formulas.now) k f) (claims_at lists.new.items k)) }
    ensures products { S.products sets.new ≡ S.products sets.old }
{
    for k in 0..formulas.len() {
        add_constraint(alloc, sets, full, nonfair, part, &formulas[k], lists)?;
    }
    Ok(())
}

/// What a proof claims for each node of each constraint's formula, over all paths; nothing for a leaf.
pub fn constraint_claims<S: StateSets>(
    alloc: Global,
    sets: &mut S,
    model: &Ruled,
    full: &Pin,
    nonfair: &Pin,
    part: &FreePart<Pin>,
) -> Result<Vec<Vec<Claim>>, SetRefusal>
    requires over { (S.seen sets.old).over ≡ model.now }
    requires ground { IsFreeGround (S.seen sets.old) full.now nonfair.now part.now }
    ensures call { IsCall (2 * constraint_nodes model.now + 8) (S.seen sets.old) (S.seen sets.new)
        (lists_result_slots result) result }
    ensures pins { IfOk result (λ lists. length (lists_claims_slots lists.items)
        ≡ 2 * constraint_nodes model.now) }
    ensures count { IfOk result (λ lists. length lists.items ≡ length model.now.constraints) }
    ensures fitting { IfOk result (λ lists. AreFitting model.now lists.items) }
    ensures claims { IfOk result (λ lists. HaveClaims model.now (S.seen sets.new)
        (free_proof (Some (map_free (region (S.seen sets.old)) part.now))) lists.items) }
    ensures products { S.products sets.new ≡ S.products sets.old }
{
    model.rules_law();
    let mut lists = Vec::new(alloc);
    match add_constraints(alloc, sets, full, nonfair, part, model.fair(), &mut lists) {
        Ok(()) => Ok(lists),
        Err(refusal) => {
            release_claim_lists(sets, lists);
            Err(refusal)
        }
    }
}
