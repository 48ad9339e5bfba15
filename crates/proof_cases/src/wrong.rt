//! Wrong variants of proofs.

ghost use Rattle.std.specs.Prelude.{◌≡◌, ◌<◌, ◌≤◌, length};
ghost use Rattle.region_sets.specs.Ranks.{slots};
ghost use Rattle.proof_form.specs.Form.{entries_sets, fair_sets, free_sets_of, layer_sets, rule_sets};
ghost use Rattle.proof_form.specs.Pinned.{proof_slots};
ghost use Rattle.proof_form.specs.Seen.{seen_rule};
ghost use Rattle.proof_cases.specs.LetGo.{HasPins, Lessens};

use kripke_model::expressions::Value;
use kripke_model::states::State;
use proof_form::form::{Entry, FairPart, FreePart, Layer, Proof, Rule};
use proof_form::releasing::release_free_part;
use region_sets::{Pin, StateSets, release_lists};
use std::alloc::{AllocFailed, Global};

/// What is changed of a proof before it is tested.
#[derive(Clone, Copy)]
pub enum Change {
    Nothing,
    /// The first nonfair layer, and the first one of each `AU` entry, avoid this constraint.
    Avoided(u32),
    /// The last nonfair layer, and the last one of each `AU` entry, avoid this constraint.
    LastAvoided(u32),
    /// The first entry has the other sign.
    OtherSign,
    /// The first entry's number of a node is one more.
    OtherNode,
    /// The first two entries have one another's numbers and signs.
    Swapped,
    /// The second entry has the number and the sign of the first.
    Twice,
    /// What is claimed is the other verdict.
    OtherClaim,
    /// The state of a false claim is left out.
    NoState,
    /// The state of a false claim has another value of its first variable.
    OtherState,
    /// One more list, an empty one, stands in the fair part.
    MoreReaches,
    /// The lists of the fair part are left out.
    NoReaches,
    /// Each list of the fair part is empty.
    EmptyReaches,
    /// The free part is left out.
    NoFreePart,
    /// The free part claims nothing; where none is allowed, there is one.
    BareFreePart,
    /// The proof is tested as one of the specification with this number.
    Spec(u32),
}

impl Change {
    /// The change that a word names.
    pub fn of_word(word: &str) -> Option<Change> {
        let change = match word {
            "avoided_0" => Change::Avoided(0),
            "avoided_2" => Change::Avoided(2),
            "avoided_3" => Change::Avoided(3),
            "avoided_9" => Change::Avoided(9),
            "last_avoided_0" => Change::LastAvoided(0),
            "last_avoided_1" => Change::LastAvoided(1),
            "last_avoided_2" => Change::LastAvoided(2),
            "last_avoided_3" => Change::LastAvoided(3),
            "other_sign" => Change::OtherSign,
            "other_node" => Change::OtherNode,
            "swapped" => Change::Swapped,
            "twice" => Change::Twice,
            "other_claim" => Change::OtherClaim,
            "no_state" => Change::NoState,
            "other_state" => Change::OtherState,
            "more_reaches" => Change::MoreReaches,
            "no_reaches" => Change::NoReaches,
            "empty_reaches" => Change::EmptyReaches,
            "no_free_part" => Change::NoFreePart,
            "bare_free_part" => Change::BareFreePart,
            "spec_0" => Change::Spec(0),
            "spec_2" => Change::Spec(2),
            _ => return None,
        };
        Some(change)
    }

    /// Whether nothing is changed.
    pub fn is_nothing(self) -> bool {
        matches!(self, Change::Nothing)
    }

    /// The number of the specification of which the proof is tested.
    pub fn spec(self) -> u32 {
        match self {
            Change::Spec(number) => number,
            _ => 1,
        }
    }
}

/// The claim.
fn changed_claim(claim: bool, change: Change) -> bool {
    match change {
        Change::OtherClaim => !claim,
        _ => claim,
    }
}

/// Another value. A number stays a truth value.
fn other_value(value: Value) -> Value {
    match value {
        Value::Number(number) => Value::Number(if number == 0 { 1 } else { 0 }),
        Value::Symbol(symbol) => Value::Symbol(symbol),
    }
}

/// The state with another value of its first variable.
fn other_state(mut state: State) -> State {
    if state.values.len() > 0 {
        let value = state.values[0];
        state.values[0] = other_value(value);
    }
    state
}

/// The state of a false claim.
fn changed_state(at: Option<State>, change: Change) -> Option<State> {
    match (at, change) {
        (_, Change::NoState) => None,
        (Some(state), Change::OtherState) => Some(other_state(state)),
        (at, _) => at,
    }
}

/// Gives the layer another constraint.
fn avoid_at(layer: &mut Layer<Pin>, avoid: u32)
    ensures { layer.new.set ≡ layer.old.set }
{
    layer.avoid = avoid;
}

/// Gives the first layer another constraint.
fn avoid_first(layers: &mut Vec<Layer<Pin>>, avoid: u32)
    ensures { layer_sets layers.new.items ≡ layer_sets layers.old.items }
{
    if layers.len() > 0 {
        avoid_at(&mut layers[0], avoid);
    }
}

/// Gives the layer at a place another constraint.
fn avoid_nth(layers: &mut Vec<Layer<Pin>>, k: usize, avoid: u32)
    requires { k < length layers.old.items }
    ensures { layer_sets layers.new.items ≡ layer_sets layers.old.items }
{
    avoid_at(&mut layers[k], avoid);
}

/// Gives the last layer another constraint.
fn avoid_last(layers: &mut Vec<Layer<Pin>>, avoid: u32)
    ensures { layer_sets layers.new.items ≡ layer_sets layers.old.items }
{
    let count = layers.len();
    if count > 0 {
        avoid_nth(layers, count - 1, avoid);
    }
}

/// Changes layers.
fn change_layers(layers: &mut Vec<Layer<Pin>>, change: Change)
    ensures { layer_sets layers.new.items ≡ layer_sets layers.old.items }
{
    match change {
        Change::Avoided(avoid) => avoid_first(layers, avoid),
        Change::LastAvoided(avoid) => avoid_last(layers, avoid),
        _ => {}
    }
}

/// Changes layers of a rule.
fn change_rule(rule: &mut Rule<Pin>, change: Change)
    ensures { rule_sets (seen_rule rule.new) ≡ rule_sets (seen_rule rule.old) }
{
    if let Rule::AU(layers) = rule {
        change_layers(layers, change);
    }
}

/// Changes the numbers of an entry.
fn change_entry(entry: &mut Entry<Pin>, change: Change)
    ensures { rule_sets entry.new.rule ≡ rule_sets entry.old.rule }
{
    match change {
        Change::Avoided(_) | Change::LastAvoided(_) => change_rule(&mut entry.rule, change),
        Change::OtherSign => entry.plus = !entry.plus,
        Change::OtherNode => entry.node = entry.node.saturating_add(1),
        _ => {}
    }
}

/// Changes the numbers of the entry at a place.
fn change_at(entries: &mut Vec<Entry<Pin>>, k: usize, change: Change)
    requires { k < length entries.old.items }
    ensures sets { entries_sets entries.new.items ≡ entries_sets entries.old.items }
    ensures count { length entries.new.items ≡ length entries.old.items }
{
    change_entry(&mut entries[k], change)
}

/// How many entries are changed.
fn changed_count(entries: &[Entry<Pin>], change: Change) -> usize
    ensures { result ≤ length entries.now }
{
    match change {
        Change::Avoided(_) | Change::LastAvoided(_) => entries.len(),
        _ => entries.len().min(1),
    }
}

/// Gives an entry another node and sign.
fn renumber(entry: &mut Entry<Pin>, node: u32, plus: bool)
    ensures { rule_sets entry.new.rule ≡ rule_sets entry.old.rule }
{
    entry.node = node;
    entry.plus = plus;
}

/// Gives the entry at a place another node and sign.
fn renumber_at(entries: &mut Vec<Entry<Pin>>, k: usize, node: u32, plus: bool)
    requires { k < length entries.old.items }
    ensures sets { entries_sets entries.new.items ≡ entries_sets entries.old.items }
    ensures count { length entries.new.items ≡ length entries.old.items }
{
    renumber(&mut entries[k], node, plus)
}

/// Gives the second entry the number and the sign of the first, and where they are swapped the first those of the
/// second.
fn change_order(entries: &mut Vec<Entry<Pin>>, swapped: bool)
    ensures { entries_sets entries.new.items ≡ entries_sets entries.old.items }
{
    if entries.len() >= 2 {
        let (node, plus) = (entries[0].node, entries[0].plus);
        if swapped {
            let (other, sign) = (entries[1].node, entries[1].plus);
            renumber_at(entries, 0, other, sign);
        }
        renumber_at(entries, 1, node, plus);
    }
}

/// Changes the numbers of entries one by one: of the first one, or of each.
fn change_each(entries: &mut Vec<Entry<Pin>>, change: Change)
    ensures { entries_sets entries.new.items ≡ entries_sets entries.old.items }
{
    for k in 0..changed_count(entries, change) {
        change_at(entries, k, change);
    }
}

/// Changes the numbers of entries.
fn change_entries(entries: &mut Vec<Entry<Pin>>, change: Change)
    ensures { entries_sets entries.new.items ≡ entries_sets entries.old.items }
{
    match change {
        Change::Swapped => change_order(entries, true),
        Change::Twice => change_order(entries, false),
        _ => change_each(entries, change),
    }
}

/// Adds an empty list to those of a fair part. Without memory it stays as it is.
pub fn add_reach(alloc: Global, fair: &mut FairPart<Pin>)
    ensures { fair_sets fair.new ≡ fair_sets fair.old }
{
    if let Err(failed) = fair.reach.push(Vec::new(alloc)) {
        let AllocFailed { value } = failed;
        value.destroy_empty();
    }
}

/// Adds so many empty lists.
fn add_reaches(alloc: Global, fair: &mut FairPart<Pin>, count: usize)
    ensures { fair_sets fair.new ≡ fair_sets fair.old }
{
    for _ in 0..count {
        add_reach(alloc, fair);
    }
}

/// The fair part without its lists.
fn without_reaches<S: StateSets>(alloc: Global, sets: &mut S, fair: FairPart<Pin>) -> FairPart<Pin>
    requires { HasPins (S.seen sets.old) (slots (fair_sets fair)) }
    ensures { Lessens (S.seen sets.old) (S.seen sets.new) (slots (fair_sets fair))
        (slots (fair_sets result)) }
{
    let FairPart { inside, reach } = fair;
    release_lists(sets, reach);
    FairPart {
        inside,
        reach: Vec::new(alloc),
    }
}

/// The fair part with so many empty lists.
fn emptied<S: StateSets>(
    alloc: Global,
    sets: &mut S,
    fair: FairPart<Pin>,
    count: usize,
) -> FairPart<Pin>
    requires { HasPins (S.seen sets.old) (slots (fair_sets fair)) }
    ensures { Lessens (S.seen sets.old) (S.seen sets.new) (slots (fair_sets fair))
        (slots (fair_sets result)) }
{
    let mut part = without_reaches(alloc, sets, fair);
    add_reaches(alloc, &mut part, count);
    part
}

/// The fair part.
fn changed_fair<S: StateSets>(
    alloc: Global,
    sets: &mut S,
    mut fair: FairPart<Pin>,
    change: Change,
) -> FairPart<Pin>
    requires { HasPins (S.seen sets.old) (slots (fair_sets fair)) }
    ensures { Lessens (S.seen sets.old) (S.seen sets.new) (slots (fair_sets fair))
        (slots (fair_sets result)) }
{
    match change {
        Change::MoreReaches => {
            add_reach(alloc, &mut fair);
            fair
        }
        Change::NoReaches => emptied(alloc, sets, fair, 0),
        Change::EmptyReaches => {
            let count = fair.reach.len();
            emptied(alloc, sets, fair, count)
        }
        _ => fair,
    }
}

/// The free part.
fn changed_free<S: StateSets>(
    sets: &mut S,
    free: Option<FreePart<Pin>>,
    change: Change,
) -> Option<FreePart<Pin>>
    requires { HasPins (S.seen sets.old) (slots (free_sets_of free)) }
    ensures { Lessens (S.seen sets.old) (S.seen sets.new) (slots (free_sets_of free))
        (slots (free_sets_of result)) }
{
    match change {
        Change::NoFreePart => {
            release_free_part(sets, free);
            None
        }
        _ => free,
    }
}

/// The proof with the change. Each pin that it loses is released.
pub fn changed<S: StateSets>(
    alloc: Global,
    sets: &mut S,
    proof: Proof<Pin>,
    change: Change,
) -> Proof<Pin>
    requires { HasPins (S.seen sets.old) (proof_slots proof) }
    ensures { Lessens (S.seen sets.old) (S.seen sets.new) (proof_slots proof) (proof_slots result) }
{
    let Proof {
        claim,
        free,
        mut nonfair,
        fair,
        mut entries,
        at,
    } = proof;
    let free = changed_free(sets, free, change);
    change_layers(&mut nonfair, change);
    let fair = changed_fair(alloc, sets, fair, change);
    change_entries(&mut entries, change);
    Proof {
        claim: changed_claim(claim, change),
        free,
        nonfair,
        fair,
        entries,
        at: changed_state(at, change),
    }
}
