//! The sets of a proof, in the order in which they are written.

ghost use Rattle.std.specs.Prelude.{[], ◌∷◌, IfOk, flat_map, length, map};
ghost use Rattle.region_sets.specs.Sets.{IsCall, IsLive};
ghost use Rattle.region_sets.specs.Ranks.{AreLive, slots, vec_slots};
ghost use Rattle.proof_form.specs.Copying.{AreCopied};
ghost use Rattle.proof_form.specs.Filling.{lists_of};
ghost use Rattle.proof_form.specs.Form.{entries_sets, fair_sets, free_sets, free_sets_of, layer_sets, rule_sets, sets_of};
ghost use Rattle.proof_form.specs.Pinned.{AreCopies, proof_slots};
ghost use Rattle.proof_form.specs.Seen.{seen_rule};

use crate::form::{Entry, FairPart, FreeEntry, FreePart, Layer, Proof, Rule};
use region_sets::{Pin, SetRefusal, StateSets, release_all};
use std::alloc::{AllocFailed, Global};

/// Adds a copy of the set to the list.
fn copy_set<S: StateSets>(sets: &mut S, set: &Pin, copies: &mut Vec<Pin>) -> Result<(), SetRefusal>
    requires { IsLive (S.seen sets.old) set.now.slot }
    ensures { AreCopied (S.seen sets.old) (S.seen sets.new) (set.now ∷ []) copies.old.items
        copies.new.items result }
{
    let copy = sets.copy(set)?;
    match copies.push(copy) {
        Ok(()) => Ok(()),
        Err(failed) => {
            let AllocFailed { value } = failed;
            sets.release(value);
            Err(SetRefusal::Memory)
        }
    }
}

/// Adds a copy of each set.
fn copy_list<S: StateSets>(
    sets: &mut S,
    list: &[Pin],
    copies: &mut Vec<Pin>,
) -> Result<(), SetRefusal>
    requires { AreLive (S.seen sets.old) (slots list.now) }
    ensures { AreCopied (S.seen sets.old) (S.seen sets.new) list.now copies.old.items
        copies.new.items result }
{
    for set in list {
        copy_set(sets, set, copies)?;
    }
    Ok(())
}

/// Adds a copy of each set of each list.
fn copy_lists<S: StateSets>(
    sets: &mut S,
    lists: &[Vec<Pin>],
    copies: &mut Vec<Pin>,
) -> Result<(), SetRefusal>
    requires { AreLive (S.seen sets.old) (slots (flat_map (λ sets. sets) (lists_of lists.now))) }
    ensures { AreCopied (S.seen sets.old) (S.seen sets.new) (flat_map
        (λ sets. sets) (lists_of lists.now)) copies.old.items copies.new.items result }
{
    for list in lists {
        copy_list(sets, list, copies)?;
    }
    Ok(())
}

/// Adds a copy of each layer's set.
fn copy_layers<S: StateSets>(
    sets: &mut S,
    layers: &[Layer<Pin>],
    copies: &mut Vec<Pin>,
) -> Result<(), SetRefusal>
    requires { AreLive (S.seen sets.old) (slots (layer_sets layers.now)) }
    ensures { AreCopied (S.seen sets.old) (S.seen sets.new) (layer_sets layers.now) copies.old.items
        copies.new.items result }
{
    for layer in layers {
        copy_set(sets, &layer.set, copies)?;
    }
    Ok(())
}

/// Adds a copy of each set of the part.
fn copy_fair<S: StateSets>(
    sets: &mut S,
    part: &FairPart<Pin>,
    copies: &mut Vec<Pin>,
) -> Result<(), SetRefusal>
    requires { AreLive (S.seen sets.old) (slots (fair_sets part.now)) }
    ensures { AreCopied (S.seen sets.old) (S.seen sets.new) (fair_sets part.now) copies.old.items
        copies.new.items result }
{
    copy_set(sets, &part.inside, copies)?;
    copy_lists(sets, &part.reach, copies)
}

/// Adds a copy of each set of the rule.
fn copy_rule<S: StateSets>(
    sets: &mut S,
    rule: &Rule<Pin>,
    copies: &mut Vec<Pin>,
) -> Result<(), SetRefusal>
    requires { AreLive (S.seen sets.old) (slots (rule_sets (seen_rule rule.now))) }
    ensures { AreCopied (S.seen sets.old) (S.seen sets.new) (rule_sets (seen_rule rule.now))
        copies.old.items copies.new.items result }
{
    match rule {
        Rule::EX(set) => copy_set(sets, set, copies),
        Rule::AX(set) => copy_set(sets, set, copies),
        Rule::AR(set) => copy_set(sets, set, copies),
        Rule::EU(list) => copy_list(sets, list, copies),
        Rule::AU(layers) => copy_layers(sets, layers, copies),
        Rule::ER(fair, untils) => {
            copy_fair(sets, fair, copies)?;
            copy_list(sets, untils, copies)
        }
    }
}

/// Adds a copy of each set of the entries.
fn copy_entries<S: StateSets>(
    sets: &mut S,
    entries: &[Entry<Pin>],
    copies: &mut Vec<Pin>,
) -> Result<(), SetRefusal>
    requires { AreLive (S.seen sets.old) (slots (entries_sets entries.now)) }
    ensures { AreCopied (S.seen sets.old) (S.seen sets.new) (entries_sets entries.now)
        copies.old.items copies.new.items result }
{
    for entry in entries {
        copy_entry(sets, entry, copies)?;
    }
    Ok(())
}

/// Adds a copy of each set of the entry.
fn copy_entry<S: StateSets>(
    sets: &mut S,
    entry: &Entry<Pin>,
    copies: &mut Vec<Pin>,
) -> Result<(), SetRefusal>
    requires { AreLive (S.seen sets.old) (slots (rule_sets entry.now.rule)) }
    ensures { AreCopied (S.seen sets.old) (S.seen sets.new) (rule_sets entry.now.rule)
        copies.old.items copies.new.items result }
{
    copy_rule(sets, &entry.rule, copies)
}

/// Adds a copy of each set of the constraints' entries.
fn copy_free_entries<S: StateSets>(
    sets: &mut S,
    entries: &[FreeEntry<Pin>],
    copies: &mut Vec<Pin>,
) -> Result<(), SetRefusal>
    requires { AreLive (S.seen sets.old) (slots (entries_sets (map (λ e. e.entry) entries.now))) }
    ensures { AreCopied (S.seen sets.old) (S.seen sets.new)
        (entries_sets (map (λ e. e.entry) entries.now)) copies.old.items copies.new.items result }
{
    for free in entries {
        copy_entry(sets, &free.entry, copies)?;
    }
    Ok(())
}

/// Adds a copy of each set of the part.
fn copy_free<S: StateSets>(
    sets: &mut S,
    part: &FreePart<Pin>,
    copies: &mut Vec<Pin>,
) -> Result<(), SetRefusal>
    requires { AreLive (S.seen sets.old) (slots (free_sets part.now)) }
    ensures { AreCopied (S.seen sets.old) (S.seen sets.new) (free_sets part.now) copies.old.items
        copies.new.items result }
{
    copy_layers(sets, &part.nonfair, copies)?;
    copy_fair(sets, &part.fair, copies)?;
    copy_free_entries(sets, &part.entries, copies)
}

/// The same, where there is one.
fn copy_free_part<S: StateSets>(
    sets: &mut S,
    part: &Option<FreePart<Pin>>,
    copies: &mut Vec<Pin>,
) -> Result<(), SetRefusal>
    requires { AreLive (S.seen sets.old) (slots (free_sets_of part.now)) }
    ensures { AreCopied (S.seen sets.old) (S.seen sets.new) (free_sets_of part.now) copies.old.items
        copies.new.items result }
{
    match part {
        None => Ok(()),
        Some(part) => copy_free(sets, part, copies),
    }
}

/// Adds a copy of each set of the proof.
fn copy_proof<S: StateSets>(
    sets: &mut S,
    proof: &Proof<Pin>,
    copies: &mut Vec<Pin>,
) -> Result<(), SetRefusal>
    requires { AreLive (S.seen sets.old) (proof_slots proof.now) }
    ensures { AreCopied (S.seen sets.old) (S.seen sets.new) (sets_of proof.now) copies.old.items
        copies.new.items result }
{
    copy_free_part(sets, &proof.free, copies)?;
    copy_layers(sets, &proof.nonfair, copies)?;
    copy_fair(sets, &proof.fair, copies)?;
    copy_entries(sets, &proof.entries, copies)
}

/// A copy of each set of the proof, in the order of the lines.
pub fn gather<S: StateSets>(
    alloc: Global,
    sets: &mut S,
    proof: &Proof<Pin>,
) -> Result<Vec<Pin>, SetRefusal>
    requires { AreLive (S.seen sets.old) (proof_slots proof.now) }
    ensures call { IsCall (length (sets_of proof.now)) (S.seen sets.old) (S.seen sets.new)
        (vec_slots result) result }
    ensures copies { IfOk result (λ copies. AreCopies (S.seen sets.old) (S.seen sets.new)
        (sets_of proof.now) copies.items) }
{
    let mut copies = Vec::new(alloc);
    match copy_proof(sets, proof, &mut copies) {
        Ok(()) => Ok(copies),
        Err(refusal) => {
            release_all(sets, copies);
            Err(refusal)
        }
    }
}
