//! The end of a proof's pins.

ghost use Rattle.std.specs.Prelude.{◌≡◌, flat_map, map};
ghost use Rattle.region_sets.specs.Sets.{Adds, AreDistinct};
ghost use Rattle.region_sets.specs.Ranks.{AreLive, slots};
ghost use Rattle.proof_form.specs.Form.{entries_sets, fair_sets, free_sets, free_sets_of, layer_sets, rule_sets};
ghost use Rattle.proof_form.specs.Pinned.{proof_slots};
ghost use Rattle.proof_form.specs.Seen.{seen_rule};

use crate::form::{Entry, FairPart, FreeEntry, FreePart, Layer, Proof, Rule};
use region_sets::{Pin, StateSets, release_all, release_lists};

/// Releases the set of each layer.
pub fn release_layers<S: StateSets>(sets: &mut S, mut layers: Vec<Layer<Pin>>)
    requires live { AreLive (S.seen sets.old) (slots (layer_sets layers.items)) }
    requires once { AreDistinct (slots (layer_sets layers.items)) }
    ensures pins { Adds (S.seen sets.new) (S.seen sets.old) (slots (layer_sets layers.items)) }
    ensures fulls { (S.seen sets.new).fulls ≡ (S.seen sets.old).fulls }
{
    while let Some(layer) = layers.pop() {
        let Layer { avoid: _, set } = layer;
        sets.release(set);
    }
    layers.destroy_empty();
}

impl FairPart<Pin> {
    pub fn release<S: StateSets>(self, sets: &mut S)
        requires live { AreLive (S.seen sets.old) (slots (fair_sets self)) }
        requires once { AreDistinct (slots (fair_sets self)) }
        ensures pins { Adds (S.seen sets.new) (S.seen sets.old) (slots (fair_sets self)) }
        ensures fulls { (S.seen sets.new).fulls ≡ (S.seen sets.old).fulls }
    {
        let FairPart { inside, reach } = self;
        sets.release(inside);
        release_lists(sets, reach);
    }
}

impl Rule<Pin> {
    pub fn release<S: StateSets>(self, sets: &mut S)
        requires live { AreLive (S.seen sets.old) (slots (rule_sets (seen_rule self))) }
        requires once { AreDistinct (slots (rule_sets (seen_rule self))) }
        ensures pins { Adds (S.seen sets.new) (S.seen sets.old)
            (slots (rule_sets (seen_rule self))) }
        ensures fulls { (S.seen sets.new).fulls ≡ (S.seen sets.old).fulls }
    {
        match self {
            Rule::EX(set) => sets.release(set),
            Rule::AX(set) => sets.release(set),
            Rule::AR(set) => sets.release(set),
            Rule::EU(list) => release_all(sets, list),
            Rule::AU(layers) => release_layers(sets, layers),
            Rule::ER(fair, untils) => {
                fair.release(sets);
                release_all(sets, untils);
            }
        }
    }
}

impl Entry<Pin> {
    pub fn release<S: StateSets>(self, sets: &mut S)
        requires live { AreLive (S.seen sets.old) (slots (rule_sets self.rule)) }
        requires once { AreDistinct (slots (rule_sets self.rule)) }
        ensures pins { Adds (S.seen sets.new) (S.seen sets.old) (slots (rule_sets self.rule)) }
        ensures fulls { (S.seen sets.new).fulls ≡ (S.seen sets.old).fulls }
    {
        let Entry {
            node: _,
            plus: _,
            rule,
        } = self;
        rule.release(sets);
    }
}

/// Releases the sets of each entry.
pub fn release_entries<S: StateSets>(sets: &mut S, mut entries: Vec<Entry<Pin>>)
    requires live { AreLive (S.seen sets.old) (slots (entries_sets entries.items)) }
    requires once { AreDistinct (slots (entries_sets entries.items)) }
    ensures pins { Adds (S.seen sets.new) (S.seen sets.old) (slots (entries_sets entries.items)) }
    ensures fulls { (S.seen sets.new).fulls ≡ (S.seen sets.old).fulls }
{
    while let Some(entry) = entries.pop() {
        entry.release(sets);
    }
    entries.destroy_empty();
}

/// Releases the sets of each entry for a constraint.
pub fn release_free_entries<S: StateSets>(sets: &mut S, mut entries: Vec<FreeEntry<Pin>>)
    requires live { AreLive (S.seen sets.old)
        (slots (entries_sets (map (λ e. e.entry) entries.items))) }
    requires once { AreDistinct (slots (entries_sets (map (λ e. e.entry) entries.items))) }
    ensures pins { Adds (S.seen sets.new) (S.seen sets.old)
        (slots (entries_sets (map (λ e. e.entry) entries.items))) }
    ensures fulls { (S.seen sets.new).fulls ≡ (S.seen sets.old).fulls }
{
    while let Some(free) = entries.pop() {
        let FreeEntry {
            constraint: _,
            entry,
        } = free;
        entry.release(sets);
    }
    entries.destroy_empty();
}

impl FreePart<Pin> {
    pub fn release<S: StateSets>(self, sets: &mut S)
        requires live { AreLive (S.seen sets.old) (slots (free_sets self)) }
        requires once { AreDistinct (slots (free_sets self)) }
        ensures pins { Adds (S.seen sets.new) (S.seen sets.old) (slots (free_sets self)) }
        ensures fulls { (S.seen sets.new).fulls ≡ (S.seen sets.old).fulls }
    {
        let FreePart {
            nonfair,
            fair,
            entries,
        } = self;
        release_layers(sets, nonfair);
        fair.release(sets);
        release_free_entries(sets, entries);
    }
}

/// Releases the sets of the part, where there is one.
pub fn release_free_part<S: StateSets>(sets: &mut S, part: Option<FreePart<Pin>>)
    requires live { AreLive (S.seen sets.old) (slots (free_sets_of part)) }
    requires once { AreDistinct (slots (free_sets_of part)) }
    ensures pins { Adds (S.seen sets.new) (S.seen sets.old) (slots (free_sets_of part)) }
    ensures fulls { (S.seen sets.new).fulls ≡ (S.seen sets.old).fulls }
{
    match part {
        None => {}
        Some(part) => part.release(sets),
    }
}

impl Proof<Pin> {
    /// Releases each pin of the proof.
    pub fn release<S: StateSets>(self, sets: &mut S)
        requires live { AreLive (S.seen sets.old) (proof_slots self) }
        requires once { AreDistinct (proof_slots self) }
        ensures pins { Adds (S.seen sets.new) (S.seen sets.old) (proof_slots self) }
        ensures fulls { (S.seen sets.new).fulls ≡ (S.seen sets.old).fulls }
    {
        let Proof {
            claim: _,
            free,
            nonfair,
            fair,
            entries,
            at: _,
        } = self;
        release_free_part(sets, free);
        release_layers(sets, nonfair);
        fair.release(sets);
        release_entries(sets, entries);
    }
}
