//! A proof with numbers in place of its pins.

ghost use Rattle.std.specs.Prelude.{◌≡◌, ◌+◌, ◌<◌, ◌≤◌, [], ◌∷◌, IfOk, length, map, flat_map};
ghost use Rattle.proof_form.specs.Form.{entries_sets, fair_sets, free_sets, free_sets_of, layer_sets, rule_sets, sets_of};
ghost use Rattle.proof_form.specs.Filling.{AreTaken, entries_form, entry_form, fair_form, free_entries_form, free_form, free_form_of, layers_form, list_form, lists_form, lists_of, rule_form};
ghost use Rattle.proof_form.specs.Pinned.{IsFilled};
ghost use Rattle.proof_form.specs.Seen.{seen_rule};

use crate::form::{Entry, FairPart, FreeEntry, FreePart, Layer, Proof, Rule};
use kripke_model::states::State;
use region_sets::Pin;
use std::alloc::{AllocError, Global};

/// The next of the numbers.
fn take_number(numbers: &[u32], next: &mut usize) -> u32
    requires { next.old < length numbers.now }
    ensures { AreTaken numbers.now next.old next.new (result ∷ []) }
{
    let number = numbers[*next];
    *next += 1;
    number
}

/// As many numbers as there are sets.
fn number_list(
    alloc: Global,
    list: &[Pin],
    numbers: &[u32],
    next: &mut usize,
) -> Result<Vec<u32>, AllocError>
    requires { next.old + length list.now ≤ length numbers.now }
    ensures form { IfOk result (λ filled. list_form filled.items ≡ list_form list.now) }
    ensures numbers { IfOk result (λ filled. AreTaken numbers.now next.old next.new filled.items) }
{
    let mut filled = Vec::new(alloc);
    for _set in list {
        filled.push(take_number(numbers, next))?;
    }
    Ok(filled)
}

/// Numbers for each list of sets.
fn number_lists(
    alloc: Global,
    lists: &[Vec<Pin>],
    numbers: &[u32],
    next: &mut usize,
) -> Result<Vec<Vec<u32>>, AllocError>
    requires { next.old + length (flat_map (λ sets. sets) (lists_of lists.now))
        ≤ length numbers.now }
    ensures form { IfOk result (λ filled. lists_form (lists_of filled.items)
        ≡ lists_form (lists_of lists.now)) }
    ensures numbers { IfOk result (λ filled.
        AreTaken numbers.now next.old next.new (flat_map (λ sets. sets) (lists_of filled.items))) }
{
    let mut filled = Vec::new(alloc);
    for list in lists {
        filled.push(number_list(alloc, list, numbers, next)?)?;
    }
    Ok(filled)
}

/// The same layers over numbers.
fn number_layers(
    alloc: Global,
    layers: &[Layer<Pin>],
    numbers: &[u32],
    next: &mut usize,
) -> Result<Vec<Layer<u32>>, AllocError>
    requires { next.old + length (layer_sets layers.now) ≤ length numbers.now }
    ensures form { IfOk result (λ filled. layers_form filled.items ≡ layers_form layers.now) }
    ensures numbers { IfOk result (λ filled. AreTaken numbers.now next.old next.new
        (layer_sets filled.items)) }
{
    let mut filled = Vec::new(alloc);
    for layer in layers {
        let set = take_number(numbers, next);
        filled.push(Layer {
            avoid: layer.avoid,
            set,
        })?;
    }
    Ok(filled)
}

/// The same set of fair paths over numbers.
fn number_fair(
    alloc: Global,
    part: &FairPart<Pin>,
    numbers: &[u32],
    next: &mut usize,
) -> Result<FairPart<u32>, AllocError>
    requires { next.old + length (fair_sets part.now) ≤ length numbers.now }
    ensures form { IfOk result (λ filled. fair_form filled ≡ fair_form part.now) }
    ensures numbers { IfOk result (λ filled. AreTaken numbers.now next.old next.new
        (fair_sets filled)) }
{
    let inside = take_number(numbers, next);
    let reach = number_lists(alloc, &part.reach, numbers, next)?;
    Ok(FairPart { inside, reach })
}

/// The same rule over numbers.
fn number_rule(
    alloc: Global,
    rule: &Rule<Pin>,
    numbers: &[u32],
    next: &mut usize,
) -> Result<Rule<u32>, AllocError>
    requires { next.old + length (rule_sets (seen_rule rule.now)) ≤ length numbers.now }
    ensures form { IfOk result (λ filled. rule_form (seen_rule filled)
        ≡ rule_form (seen_rule rule.now)) }
    ensures numbers { IfOk result (λ filled. AreTaken numbers.now next.old next.new
        (rule_sets (seen_rule filled))) }
{
    Ok(match rule {
        Rule::EX(_) => Rule::EX(take_number(numbers, next)),
        Rule::AX(_) => Rule::AX(take_number(numbers, next)),
        Rule::AR(_) => Rule::AR(take_number(numbers, next)),
        Rule::EU(list) => Rule::EU(number_list(alloc, list, numbers, next)?),
        Rule::AU(layers) => Rule::AU(number_layers(alloc, layers, numbers, next)?),
        Rule::ER(fair, untils) => {
            let fair = number_fair(alloc, fair, numbers, next)?;
            Rule::ER(fair, number_list(alloc, untils, numbers, next)?)
        }
    })
}

/// The same entry over numbers.
fn number_entry(
    alloc: Global,
    entry: &Entry<Pin>,
    numbers: &[u32],
    next: &mut usize,
) -> Result<Entry<u32>, AllocError>
    requires { next.old + length (rule_sets entry.now.rule) ≤ length numbers.now }
    ensures form { IfOk result (λ filled. entry_form filled ≡ entry_form entry.now) }
    ensures numbers { IfOk result (λ filled. AreTaken numbers.now next.old next.new
        (rule_sets filled.rule)) }
{
    let rule = number_rule(alloc, &entry.rule, numbers, next)?;
    Ok(Entry {
        node: entry.node,
        plus: entry.plus,
        rule,
    })
}

/// The same entries over numbers.
fn number_entries(
    alloc: Global,
    entries: &[Entry<Pin>],
    numbers: &[u32],
    next: &mut usize,
) -> Result<Vec<Entry<u32>>, AllocError>
    requires { next.old + length (entries_sets entries.now) ≤ length numbers.now }
    ensures form { IfOk result (λ filled. entries_form filled.items ≡ entries_form entries.now) }
    ensures numbers { IfOk result (λ filled. AreTaken numbers.now next.old next.new
        (entries_sets filled.items)) }
{
    let mut filled = Vec::new(alloc);
    for entry in entries {
        filled.push(number_entry(alloc, entry, numbers, next)?)?;
    }
    Ok(filled)
}

/// The same entries for constraints over numbers.
fn number_free_entries(
    alloc: Global,
    entries: &[FreeEntry<Pin>],
    numbers: &[u32],
    next: &mut usize,
) -> Result<Vec<FreeEntry<u32>>, AllocError>
    requires { next.old + length (entries_sets (map (λ e. e.entry) entries.now))
        ≤ length numbers.now }
    ensures form { IfOk result (λ filled. free_entries_form filled.items
        ≡ free_entries_form entries.now) }
    ensures numbers { IfOk result (λ filled.
        AreTaken numbers.now next.old next.new (entries_sets (map (λ e. e.entry) filled.items))) }
{
    let mut filled = Vec::new(alloc);
    for free in entries {
        let entry = number_entry(alloc, &free.entry, numbers, next)?;
        filled.push(FreeEntry {
            constraint: free.constraint,
            entry,
        })?;
    }
    Ok(filled)
}

/// The same free part over numbers.
fn number_free(
    alloc: Global,
    part: &FreePart<Pin>,
    numbers: &[u32],
    next: &mut usize,
) -> Result<FreePart<u32>, AllocError>
    requires { next.old + length (free_sets part.now) ≤ length numbers.now }
    ensures form { IfOk result (λ filled. free_form filled ≡ free_form part.now) }
    ensures numbers { IfOk result (λ filled. AreTaken numbers.now next.old next.new
        (free_sets filled)) }
{
    let nonfair = number_layers(alloc, &part.nonfair, numbers, next)?;
    let fair = number_fair(alloc, &part.fair, numbers, next)?;
    let entries = number_free_entries(alloc, &part.entries, numbers, next)?;
    Ok(FreePart {
        nonfair,
        fair,
        entries,
    })
}

/// The same, where there is one.
fn number_free_part(
    alloc: Global,
    part: &Option<FreePart<Pin>>,
    numbers: &[u32],
    next: &mut usize,
) -> Result<Option<FreePart<u32>>, AllocError>
    requires { next.old + length (free_sets_of part.now) ≤ length numbers.now }
    ensures form { IfOk result (λ filled. free_form_of filled ≡ free_form_of part.now) }
    ensures numbers { IfOk result (λ filled. AreTaken numbers.now next.old next.new
        (free_sets_of filled)) }
{
    match part {
        None => Ok(None),
        Some(part) => Ok(Some(number_free(alloc, part, numbers, next)?)),
    }
}

/// A copy of the state, where there is one.
fn copy_state(alloc: Global, at: &Option<State>) -> Result<Option<State>, AllocError>
    ensures { IfOk result (λ copy. copy ≡ at.now) }
{
    match at {
        None => Ok(None),
        Some(state) => Ok(Some(state.copy(alloc)?)),
    }
}

impl Proof<Pin> {
    /// The same proof with these numbers in place of its sets, in the order of the lines. The pins stay where they are.
    pub fn with_numbers(&self, alloc: Global, numbers: &[u32]) -> Result<Proof<u32>, AllocError>
        requires { length numbers.now ≡ length (sets_of self.now) }
        ensures { IfOk result (IsFilled self.now numbers.now) }
    {
        let mut next = 0;
        let free = number_free_part(alloc, &self.free, numbers, &mut next)?;
        let nonfair = number_layers(alloc, &self.nonfair, numbers, &mut next)?;
        let fair = number_fair(alloc, &self.fair, numbers, &mut next)?;
        let entries = number_entries(alloc, &self.entries, numbers, &mut next)?;
        Ok(Proof {
            claim: self.claim,
            free,
            nonfair,
            fair,
            entries,
            at: copy_state(alloc, &self.at)?,
        })
    }
}
