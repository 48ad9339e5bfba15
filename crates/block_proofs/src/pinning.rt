//! A proof over numbers with a pin in the place of each.

ghost use Rattle.std.specs.Prelude.{◌≡◌, IfOk, map, option_map};
ghost use Rattle.proof_form.specs.Form.{map_entry, map_fair, map_free, map_free_entry};
ghost use Rattle.proof_form.specs.Form.{map_layer, map_rule};
ghost use Rattle.proof_form.specs.Filling.{lists_of};
ghost use Rattle.proof_form.specs.Seen.{seen_rule};
ghost use Rattle.block_proofs.specs.PinsFor.{pin_for, pinned};

use crate::letting_go::{LetGo, add_made, both};
use kripke_model::states::State;
use proof_form::form::{Entry, FairPart, FreeEntry, FreePart, Layer, Proof, Rule};
use region_sets::Pin;
use std::alloc::{AllocError, Global};

/// The pin of a number.
fn pin_at(table: &[u64], number: u32) -> Pin
    ensures { result ≡ pin_for table.now number }
{
    match table.get(number as usize) {
        Some(slot) => Pin { slot: *slot },
        None => Pin { slot: 0 },
    }
}

/// The pin of each number.
fn pin_list(alloc: Global, table: &[u64], list: &[u32]) -> Result<Vec<Pin>, AllocError>
    ensures { IfOk result (λ made. made.items ≡ map (pin_for table.now) list.now) }
{
    let mut made = Vec::new(alloc);
    for number in list {
        let Ok(()) = add_made(&mut made, Ok(pin_at(table, *number))) else {
            made.let_go();
            return Err(AllocError);
        };
    }
    Ok(made)
}

/// The pins of each list.
fn pin_lists(alloc: Global, table: &[u64], lists: &[Vec<u32>]) -> Result<Vec<Vec<Pin>>, AllocError>
    ensures { IfOk result (λ made.
        lists_of made.items ≡ map (map (pin_for table.now)) (lists_of lists.now)) }
{
    let mut made = Vec::new(alloc);
    for list in lists {
        let Ok(()) = add_made(&mut made, pin_list(alloc, table, list)) else {
            made.let_go();
            return Err(AllocError);
        };
    }
    Ok(made)
}

/// The same layer over pins.
fn pin_layer(table: &[u64], layer: &Layer<u32>) -> Layer<Pin>
    ensures { result ≡ map_layer (pin_for table.now) layer.now }
{
    Layer {
        avoid: layer.avoid,
        set: pin_at(table, layer.set),
    }
}

/// The same layers over pins.
fn pin_layers(
    alloc: Global,
    table: &[u64],
    layers: &[Layer<u32>],
) -> Result<Vec<Layer<Pin>>, AllocError>
    ensures { IfOk result (λ made. made.items ≡ map (map_layer (pin_for table.now)) layers.now) }
{
    let mut made = Vec::new(alloc);
    for layer in layers {
        let Ok(()) = add_made(&mut made, Ok(pin_layer(table, layer))) else {
            made.let_go();
            return Err(AllocError);
        };
    }
    Ok(made)
}

/// The same set of fair paths over pins.
fn pin_fair(alloc: Global, table: &[u64], part: &FairPart<u32>) -> Result<FairPart<Pin>, AllocError>
    ensures { IfOk result (λ made. made ≡ map_fair (pin_for table.now) part.now) }
{
    let reach = pin_lists(alloc, table, &part.reach)?;
    Ok(FairPart {
        inside: pin_at(table, part.inside),
        reach,
    })
}

/// The same rule over pins.
fn pin_rule(alloc: Global, table: &[u64], rule: &Rule<u32>) -> Result<Rule<Pin>, AllocError>
    ensures { IfOk result (λ made.
        seen_rule made ≡ map_rule (pin_for table.now) (seen_rule rule.now)) }
{
    match rule {
        Rule::EX(set) => Ok(Rule::EX(pin_at(table, *set))),
        Rule::AX(set) => Ok(Rule::AX(pin_at(table, *set))),
        Rule::AR(set) => Ok(Rule::AR(pin_at(table, *set))),
        Rule::EU(list) => Ok(Rule::EU(pin_list(alloc, table, list)?)),
        Rule::AU(layers) => Ok(Rule::AU(pin_layers(alloc, table, layers)?)),
        Rule::ER(fair, untils) => {
            let (fair, untils) = both(
                pin_fair(alloc, table, fair),
                pin_list(alloc, table, untils),
            )?;
            Ok(Rule::ER(fair, untils))
        }
    }
}

/// The same entry over pins.
fn pin_entry(alloc: Global, table: &[u64], entry: &Entry<u32>) -> Result<Entry<Pin>, AllocError>
    ensures { IfOk result (λ made. made ≡ map_entry (pin_for table.now) entry.now) }
{
    let rule = pin_rule(alloc, table, &entry.rule)?;
    Ok(Entry {
        node: entry.node,
        plus: entry.plus,
        rule,
    })
}

/// The same entries over pins.
fn pin_entries(
    alloc: Global,
    table: &[u64],
    entries: &[Entry<u32>],
) -> Result<Vec<Entry<Pin>>, AllocError>
    ensures { IfOk result (λ made. made.items ≡ map (map_entry (pin_for table.now)) entries.now) }
{
    let mut made = Vec::new(alloc);
    for entry in entries {
        let Ok(()) = add_made(&mut made, pin_entry(alloc, table, entry)) else {
            made.let_go();
            return Err(AllocError);
        };
    }
    Ok(made)
}

/// The same entry for a constraint over pins.
fn pin_free_entry(
    alloc: Global,
    table: &[u64],
    free: &FreeEntry<u32>,
) -> Result<FreeEntry<Pin>, AllocError>
    ensures { IfOk result (λ made. made ≡ map_free_entry (pin_for table.now) free.now) }
{
    let entry = pin_entry(alloc, table, &free.entry)?;
    Ok(FreeEntry {
        constraint: free.constraint,
        entry,
    })
}

/// The same entries for constraints over pins.
fn pin_free_entries(
    alloc: Global,
    table: &[u64],
    entries: &[FreeEntry<u32>],
) -> Result<Vec<FreeEntry<Pin>>, AllocError>
    ensures { IfOk result (λ made.
        made.items ≡ map (map_free_entry (pin_for table.now)) entries.now) }
{
    let mut made = Vec::new(alloc);
    for free in entries {
        let Ok(()) = add_made(&mut made, pin_free_entry(alloc, table, free)) else {
            made.let_go();
            return Err(AllocError);
        };
    }
    Ok(made)
}

/// The same free part over pins.
fn pin_free(alloc: Global, table: &[u64], part: &FreePart<u32>) -> Result<FreePart<Pin>, AllocError>
    ensures { IfOk result (λ made. made ≡ map_free (pin_for table.now) part.now) }
{
    let states = both(
        pin_layers(alloc, table, &part.nonfair),
        pin_fair(alloc, table, &part.fair),
    );
    let entries = pin_free_entries(alloc, table, &part.entries);
    let ((nonfair, fair), entries) = both(states, entries)?;
    Ok(FreePart {
        nonfair,
        fair,
        entries,
    })
}

/// The same, where there is one.
fn pin_free_part(
    alloc: Global,
    table: &[u64],
    part: &Option<FreePart<u32>>,
) -> Result<Option<FreePart<Pin>>, AllocError>
    ensures { IfOk result (λ made. made ≡ option_map (map_free (pin_for table.now)) part.now) }
{
    match part {
        None => Ok(None),
        Some(part) => Ok(Some(pin_free(alloc, table, part)?)),
    }
}

/// A copy of the state, where there is one.
fn copy_state(alloc: Global, at: &Option<State>) -> Result<Option<State>, AllocError>
    ensures { IfOk result (λ copy. copy ≡ at.now) }
{
    match at {
        None => Ok(None),
        Some(state) => Ok(Some(state.copy(alloc)?)),
    }
}

/// The same proof over pins, by the slot of each number.
pub fn with_pins(alloc: Global, table: &[u64], proof: &Proof<u32>) -> Result<Proof<Pin>, AllocError>
    ensures { IfOk result (λ made. made ≡ pinned table.now proof.now) }
{
    let at = copy_state(alloc, &proof.at)?;
    let free = both(
        pin_free_part(alloc, table, &proof.free),
        pin_layers(alloc, table, &proof.nonfair),
    );
    let own = both(
        pin_fair(alloc, table, &proof.fair),
        pin_entries(alloc, table, &proof.entries),
    );
    let ((free, nonfair), (fair, entries)) = both(free, own)?;
    Ok(Proof {
        claim: proof.claim,
        free,
        nonfair,
        fair,
        entries,
        at,
    })
}
