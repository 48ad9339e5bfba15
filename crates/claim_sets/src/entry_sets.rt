//! The set of an entry, as one pin.

ghost use Rattle.std.specs.Prelude.{◌≡◌, ◌≤◌, ℕ, true, IfOk, map, option_copied, List};
ghost use Rattle.path_laws.specs.StateSet.{StateSet};
ghost use Rattle.region_sets.specs.Sets.{Sets, IsCall, IsLive, is_one_of, pin_slots, region};
ghost use Rattle.region_sets.specs.Ranks.{slots, AreLive};
ghost use Rattle.fair_rules.specs.Block as blocks;
ghost use Rattle.fair_rules.specs.Rules as rules;
ghost use Rattle.fair_rules.specs.Claims as claims;
ghost use Rattle.fair_rules.specs.Claims.{either, entry_set, join_layers};
ghost use Rattle.proof_form.specs.Form.{entries_sets, map_entry, map_free_entry, map_rule, rule_sets};
ghost use Rattle.proof_form.specs.Seen.{seen_rule};
ghost use Rattle.proof_form.specs.Meaning.{entry_of, listed_of, entries_for};
ghost use Rattle.claim_sets.specs.EntrySets.{IsGround, IsGroundOf, IsReplacing, entry_slots, fits, found_entry, found_slots, listed_in};

use crate::joins::{join_all, join_layers};
use proof_form::form::{Entry, FreeEntry, Rule};
use region_sets::{Pin, SetRefusal, StateSets};

/// The entries for the nodes of one formula: those of a specification, or those for a constraint, counted from 1, among
/// the entries for all of them.
#[derive(Drop)]
pub enum Entries<'a> {
    Own(&'a [Entry<Pin>]),
    Of(u32, &'a [FreeEntry<Pin>]),
}

/// What the claims of all nodes of a formula share.
#[derive(Drop)]
pub struct Ground<'a> {
    /// All states.
    pub full: &'a Pin,
    /// The states where no fair path begins.
    pub nonfair: &'a Pin,
    pub entries: Entries<'a>,
}

/// Whether the entry is one for a sign of a node.
fn is_for(entry: &Entry<Pin>, node: usize, plus: bool) -> bool
    ensures { result ≡ fits entry.now node plus }
{
    entry.node as usize == node && entry.plus == plus
}

/// What is given for a sign of a node.
fn find_own(entries: &[Entry<Pin>], node: usize, plus: bool) -> Option<&Rule<Pin>>
    ensures entry { (sets : Sets) → found_entry sets (option_copied result)
        ≡ blocks.entry_of (map listed_of (map (map_entry (region sets)) entries.now)) node plus }
    ensures among { (k : ℕ) → is_one_of k (found_slots (option_copied result)) ≡ true
        → is_one_of k (slots (entries_sets entries.now)) ≡ true }
{
    for entry in entries {
        if is_for(entry, node, plus) {
            return Some(&entry.rule);
        }
    }
    None
}

/// What is given for a sign of a node of a constraint's formula.
fn find_free(
    entries: &[FreeEntry<Pin>],
    constraint: u32,
    node: usize,
    plus: bool,
) -> Option<&Rule<Pin>>
    ensures entry { (sets : Sets) → found_entry sets (option_copied result)
        ≡ blocks.entry_of (entries_for constraint (map (map_free_entry (region sets)) entries.now))
        node plus }
    ensures among { (k : ℕ) → is_one_of k (found_slots (option_copied result)) ≡ true
        → is_one_of k (slots (entries_sets (map (λ e. e.entry) entries.now))) ≡ true }
{
    for free in entries {
        if free.constraint == constraint && is_for(&free.entry, node, plus) {
            return Some(&free.entry.rule);
        }
    }
    None
}

/// What is given for a sign of a node.
fn find<'a>(entries: &Entries<'a>, node: usize, plus: bool) -> Option<&'a Rule<Pin>>
    ensures entry { (sets : Sets) → found_entry sets (option_copied result)
        ≡ blocks.entry_of (listed_in sets entries.now) node plus }
    ensures among { (k : ℕ) → is_one_of k (found_slots (option_copied result)) ≡ true
        → is_one_of k (entry_slots entries.now) ≡ true }
{
    match entries {
        Entries::Own(own) => find_own(own, node, plus),
        Entries::Of(k, free) => find_free(free, *k, node, plus),
    }
}

/// The states of a or of b, which is released.
fn join_with<S: StateSets>(sets: &mut S, a: &Pin, b: Pin) -> Result<Pin, SetRefusal>
    requires a { IsLive (S.seen sets.old) a.now.slot }
    requires b { IsLive (S.seen sets.old) b.slot }
    ensures call { IsReplacing (S.seen sets.old) (S.seen sets.new) b result }
    ensures set { IfOk result (λ pin. region (S.seen sets.new) pin
        ≡ either (region (S.seen sets.old) a.now) (region (S.seen sets.old) b)) }
    ensures products { S.products sets.new ≡ S.products sets.old }
{
    let set = sets.join(a, &b);
    sets.release(b);
    set
}

/// The set of what is given for a sign, where the last argument has this one.
fn rule_pin<S: StateSets>(
    sets: &mut S,
    nonfair: &Pin,
    rule: &Rule<Pin>,
    argument: &Pin,
) -> Result<Pin, SetRefusal>
    requires nonfair { IsLive (S.seen sets.old) nonfair.now.slot }
    requires rule { AreLive (S.seen sets.old) (slots (rule_sets (seen_rule rule.now))) }
    requires argument { IsLive (S.seen sets.old) argument.now.slot }
    ensures call { IsCall 2 (S.seen sets.old) (S.seen sets.new) (pin_slots result) result }
    ensures set { IfOk result (λ pin. (layers : List rules.Layer)
        → join_layers layers ≡ region (S.seen sets.old) nonfair.now → region (S.seen sets.new) pin
        ≡ entry_set layers (entry_of (map_rule (region (S.seen sets.old)) (seen_rule rule.now)))
        (region (S.seen sets.old) argument.now)) }
    ensures products { S.products sets.new ≡ S.products sets.old }
{
    match rule {
        Rule::EX(set) => sets.copy(set),
        Rule::AX(set) => sets.copy(set),
        Rule::AR(set) => sets.join(set, nonfair),
        Rule::EU(list) => join_all(sets, list),
        Rule::AU(layers) => {
            let list = join_layers(sets, layers)?;
            let out = join_with(sets, nonfair, list)?;
            join_with(sets, argument, out)
        }
        Rule::ER(fair, untils) => {
            let list = join_all(sets, untils)?;
            join_with(sets, &fair.inside, list)
        }
    }
}

/// The set of the entry for a sign of a node, where the last argument has this one.
pub fn entry_pin<S: StateSets>(
    sets: &mut S,
    ground: &Ground<'_>,
    node: usize,
    plus: bool,
    argument: &Pin,
) -> Result<Pin, SetRefusal>
    requires ground { IsGround (S.seen sets.old) ground.now }
    requires argument { IsLive (S.seen sets.old) argument.now.slot }
    ensures call { IsCall 2 (S.seen sets.old) (S.seen sets.new) (pin_slots result) result }
    ensures set { IfOk result (λ pin. (p : claims.Proof) → IsGroundOf (S.seen sets.old) ground.now p
        → region (S.seen sets.new) pin ≡ entry_set p.nonfair (p.entries node plus)
        (region (S.seen sets.old) argument.now)) }
    ensures products { S.products sets.new ≡ S.products sets.old }
{
    match find(&ground.entries, node, plus) {
        Some(rule) => rule_pin(sets, ground.nonfair, rule, argument),
        None => sets.empty(),
    }
}
