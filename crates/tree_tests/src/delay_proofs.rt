//! Proofs of the delays from go to x, with pins that are made one by one.

ghost use Rattle.std.specs.Prelude.{◌≡◌, [], ◌∷◌, IfErr, IfOk};
ghost use Rattle.kripke_model.specs.Leaves.{IsModelLeaf};
ghost use Rattle.kripke_model.specs.Reading.{term_of};
ghost use Rattle.region_sets.specs.Sets.{Adds, AreDistinct, IsLive, pin_slots};
ghost use Rattle.region_sets.specs.Ranks.{slots, vec_slots, AreLive};
ghost use Rattle.delay_bounds.specs.Form.{longest_sets, shortest_sets};
ghost use Rattle.delay_bounds.specs.Pinned.{proof_slots};
ghost use Rattle.delay_bounds.specs.Seen.{seen_longest, seen_shortest};

use crate::ways::states_of;
use delay_bounds::proof::{DelayProof, Longest, Shortest};
use delay_bounds::testing::delay_holds;
use kripke_model::expressions::Expr;
use kripke_model::models::Ruled;
use region_sets::{Pin, SetRefusal, StateSets};
use std::alloc::{AllocFailed, Global};

/// What a proof of the two delays has besides its closed sets, which have all states.
#[derive(Drop)]
pub struct Case<'a> {
    /// The path of the shortest delay, by its values of x and of go.
    pub lead: &'a [(i32, i32)],
    /// The place of its start.
    pub lead_start: u64,
    /// Whether the states where x and go are 0 stand behind those where x is.
    pub has_idle: bool,
    /// The path of the longest delay.
    pub wait: &'a [(i32, i32)],
    /// The place of its start.
    pub wait_start: u64,
}

/// Those states of the set where the leaf is 0.
fn without<S: StateSets>(sets: &mut S, set: &Pin, leaf: &Expr) -> Result<Pin, SetRefusal>
    requires live { IsLive (S.seen sets.old) set.now.slot }
    requires leaf { IsModelLeaf (S.seen sets.old).over (term_of leaf.now) }
    ensures { Adds (S.seen sets.old) (S.seen sets.new) (pin_slots result) }
{
    let ones = sets.leaf(leaf)?;
    let rest = sets.minus(set, &ones);
    sets.release(ones);
    rest
}

/// The states where the leaf is 0.
fn zeros<S: StateSets>(sets: &mut S, leaf: &Expr) -> Result<Pin, SetRefusal>
    requires { IsModelLeaf (S.seen sets.old).over (term_of leaf.now) }
    ensures { Adds (S.seen sets.old) (S.seen sets.new) (pin_slots result) }
{
    let full = sets.full()?;
    let rest = without(sets, &full, leaf);
    sets.release(full);
    rest
}

/// The pin in a list, or released where there is no memory for one.
fn list_of_one<S: StateSets>(alloc: Global, sets: &mut S, a: Pin) -> Result<Vec<Pin>, SetRefusal>
    requires { IsLive (S.seen sets.old) a.slot }
    ensures listed { IfOk result (λ list. (S.seen sets.new ≡ S.seen sets.old)
        × (slots list.items ≡ a.slot ∷ [])) }
    ensures released { IfErr result
        (λ refusal. Adds (S.seen sets.new) (S.seen sets.old) (a.slot ∷ [])) }
{
    match Vec::from_array(alloc, [a]) {
        Ok(list) => Ok(list),
        Err(failed) => {
            let AllocFailed { value: [a] } = failed;
            sets.release(a);
            Err(SetRefusal::Memory)
        }
    }
}

/// Both pins in a list, or released where there is no memory for one.
fn list_of_two<S: StateSets>(
    alloc: Global,
    sets: &mut S,
    a: Pin,
    b: Pin,
) -> Result<Vec<Pin>, SetRefusal>
    requires live { AreLive (S.seen sets.old) (a.slot ∷ b.slot ∷ []) }
    requires once { AreDistinct (a.slot ∷ b.slot ∷ []) }
    ensures listed { IfOk result (λ list. (S.seen sets.new ≡ S.seen sets.old)
        × (slots list.items ≡ a.slot ∷ b.slot ∷ [])) }
    ensures released { IfErr result
        (λ refusal. Adds (S.seen sets.new) (S.seen sets.old) (a.slot ∷ b.slot ∷ [])) }
{
    match Vec::from_array(alloc, [a, b]) {
        Ok(list) => Ok(list),
        Err(failed) => {
            let AllocFailed { value: [a, b] } = failed;
            sets.release(a);
            sets.release(b);
            Err(SetRefusal::Memory)
        }
    }
}

/// The states where x is 0, alone in a list.
fn unset_alone<S: StateSets>(alloc: Global, sets: &mut S, x: &Expr) -> Result<Vec<Pin>, SetRefusal>
    requires { IsModelLeaf (S.seen sets.old).over (term_of x.now) }
    ensures { Adds (S.seen sets.old) (S.seen sets.new) (vec_slots result) }
{
    let unset = zeros(sets, x)?;
    list_of_one(alloc, sets, unset)
}

/// The states where x is 0, and those where x and go are.
fn unset_and_idle<S: StateSets>(
    alloc: Global,
    sets: &mut S,
    go: &Expr,
    x: &Expr,
) -> Result<Vec<Pin>, SetRefusal>
    requires go { IsModelLeaf (S.seen sets.old).over (term_of go.now) }
    requires x { IsModelLeaf (S.seen sets.old).over (term_of x.now) }
    ensures { Adds (S.seen sets.old) (S.seen sets.new) (vec_slots result) }
{
    let unset = zeros(sets, x)?;
    match without(sets, &unset, go) {
        Ok(idle) => list_of_two(alloc, sets, unset, idle),
        Err(refusal) => {
            sets.release(unset);
            Err(refusal)
        }
    }
}

/// The sets that stay outside of x.
fn stays<S: StateSets>(
    alloc: Global,
    sets: &mut S,
    go: &Expr,
    x: &Expr,
    has_idle: bool,
) -> Result<Vec<Pin>, SetRefusal>
    requires go { IsModelLeaf (S.seen sets.old).over (term_of go.now) }
    requires x { IsModelLeaf (S.seen sets.old).over (term_of x.now) }
    ensures { Adds (S.seen sets.old) (S.seen sets.new) (vec_slots result) }
{
    if has_idle {
        unset_and_idle(alloc, sets, go, x)
    } else {
        unset_alone(alloc, sets, x)
    }
}

/// That the shortest delay is 0.
fn shortest_of<S: StateSets>(
    alloc: Global,
    sets: &mut S,
    case: &Case,
) -> Result<Shortest, SetRefusal>
    ensures made { IfOk result (λ shortest. Adds (S.seen sets.old) (S.seen sets.new)
        (slots (shortest_sets (seen_shortest shortest)))) }
    ensures refused { IfErr result (λ refusal. Adds (S.seen sets.old) (S.seen sets.new) []) }
{
    let way = states_of(alloc, case.lead)?;
    let inside = sets.full()?;
    Ok(Shortest::Steps {
        inside,
        back: Vec::new(alloc),
        way,
        start: case.lead_start,
    })
}

/// That the longest delay is one less than there are sets that stay.
fn longest_of<S: StateSets>(
    alloc: Global,
    sets: &mut S,
    go: &Expr,
    x: &Expr,
    case: &Case,
) -> Result<Longest, SetRefusal>
    requires go { IsModelLeaf (S.seen sets.old).over (term_of go.now) }
    requires x { IsModelLeaf (S.seen sets.old).over (term_of x.now) }
    ensures made { IfOk result (λ longest. Adds (S.seen sets.old) (S.seen sets.new)
        (slots (longest_sets (seen_longest longest)))) }
    ensures refused { IfErr result (λ refusal. Adds (S.seen sets.old) (S.seen sets.new) []) }
{
    let way = states_of(alloc, case.wait)?;
    let inside = sets.full()?;
    match stays(alloc, sets, go, x, case.has_idle) {
        Ok(stay) => Ok(Longest::Steps {
            inside,
            stay,
            way,
            start: case.wait_start,
        }),
        Err(refusal) => {
            sets.release(inside);
            Err(refusal)
        }
    }
}

/// The proof of the case.
fn proof_of<S: StateSets>(
    alloc: Global,
    sets: &mut S,
    go: &Expr,
    x: &Expr,
    case: &Case,
) -> Result<DelayProof, SetRefusal>
    requires go { IsModelLeaf (S.seen sets.old).over (term_of go.now) }
    requires x { IsModelLeaf (S.seen sets.old).over (term_of x.now) }
    ensures made { IfOk result (λ proof. Adds (S.seen sets.old) (S.seen sets.new)
        (proof_slots proof)) }
    ensures refused { IfErr result (λ refusal. Adds (S.seen sets.old) (S.seen sets.new) []) }
{
    let shortest = shortest_of(alloc, sets, case)?;
    match longest_of(alloc, sets, go, x, case) {
        Ok(longest) => Ok(DelayProof { shortest, longest }),
        Err(refusal) => {
            shortest.release(sets);
            Err(refusal)
        }
    }
}

/// Whether the case's proof shows its two delays from go to x. No pin is left.
pub fn is_shown<S: StateSets>(
    alloc: Global,
    sets: &mut S,
    model: &Ruled,
    go: &Expr,
    x: &Expr,
    case: &Case,
) -> Result<bool, SetRefusal>
    requires over { (S.seen sets.old).over ≡ model.now }
    requires go { IsModelLeaf model.now (term_of go.now) }
    requires x { IsModelLeaf model.now (term_of x.now) }
    ensures { Adds (S.seen sets.old) (S.seen sets.new) [] }
{
    let proof = proof_of(alloc, sets, go, x, case)?;
    let shown = delay_holds(sets, model, go, x, &proof);
    proof.release(sets);
    shown
}
