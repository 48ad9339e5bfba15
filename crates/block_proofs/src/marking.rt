//! The numbers of a proof's sets, which are marked in a list.

ghost use Rattle.std.specs.Prelude.{[], ◌∷◌, map, flat_map};
ghost use Rattle.proof_form.specs.Form.{entries_sets, fair_sets, free_sets, free_sets_of};
ghost use Rattle.proof_form.specs.Form.{layer_sets, rule_sets, sets_of};
ghost use Rattle.proof_form.specs.Filling.{lists_of};
ghost use Rattle.proof_form.specs.Seen.{seen_rule};
ghost use Rattle.block_proofs.specs.Marks.{AreMarked};

use proof_form::form::{Entry, FairPart, FreeEntry, FreePart, Layer, Proof, Rule};

/// Marks the number, if the list reaches as far.
fn mark(number: u32, marks: &mut [bool])
    ensures { AreMarked (number ∷ []) marks.old marks.new }
{
    let place = number as usize;
    if place < marks.len() {
        marks[place] = true;
    }
}

fn mark_list(list: &[u32], marks: &mut [bool])
    ensures { AreMarked list.now marks.old marks.new }
{
    for number in list {
        mark(*number, marks);
    }
}

fn mark_lists(lists: &[Vec<u32>], marks: &mut [bool])
    ensures { AreMarked (flat_map (λ sets. sets) (lists_of lists.now)) marks.old marks.new }
{
    for list in lists {
        mark_list(list, marks);
    }
}

fn mark_layers(layers: &[Layer<u32>], marks: &mut [bool])
    ensures { AreMarked (layer_sets layers.now) marks.old marks.new }
{
    for layer in layers {
        mark(layer.set, marks);
    }
}

fn mark_fair(part: &FairPart<u32>, marks: &mut [bool])
    ensures { AreMarked (fair_sets part.now) marks.old marks.new }
{
    mark(part.inside, marks);
    mark_lists(&part.reach, marks);
}

fn mark_rule(rule: &Rule<u32>, marks: &mut [bool])
    ensures { AreMarked (rule_sets (seen_rule rule.now)) marks.old marks.new }
{
    match rule {
        Rule::EX(set) => mark(*set, marks),
        Rule::AX(set) => mark(*set, marks),
        Rule::AR(set) => mark(*set, marks),
        Rule::EU(list) => mark_list(list, marks),
        Rule::AU(layers) => mark_layers(layers, marks),
        Rule::ER(fair, untils) => {
            mark_fair(fair, marks);
            mark_list(untils, marks);
        }
    }
}

fn mark_entry(entry: &Entry<u32>, marks: &mut [bool])
    ensures { AreMarked (rule_sets entry.now.rule) marks.old marks.new }
{
    mark_rule(&entry.rule, marks);
}

fn mark_entries(entries: &[Entry<u32>], marks: &mut [bool])
    ensures { AreMarked (entries_sets entries.now) marks.old marks.new }
{
    for entry in entries {
        mark_entry(entry, marks);
    }
}

fn mark_free_entries(entries: &[FreeEntry<u32>], marks: &mut [bool])
    ensures { AreMarked (entries_sets (map (λ e. e.entry) entries.now)) marks.old marks.new }
{
    for free in entries {
        mark_entry(&free.entry, marks);
    }
}

fn mark_free(part: &FreePart<u32>, marks: &mut [bool])
    ensures { AreMarked (free_sets part.now) marks.old marks.new }
{
    mark_layers(&part.nonfair, marks);
    mark_fair(&part.fair, marks);
    mark_free_entries(&part.entries, marks);
}

fn mark_free_part(part: &Option<FreePart<u32>>, marks: &mut [bool])
    ensures { AreMarked (free_sets_of part.now) marks.old marks.new }
{
    match part {
        None => {}
        Some(part) => mark_free(part, marks),
    }
}

/// Marks the number of each set of the proof, as far as the list reaches.
pub fn mark_sets(proof: &Proof<u32>, marks: &mut [bool])
    ensures { AreMarked (sets_of proof.now) marks.old marks.new }
{
    mark_free_part(&proof.free, marks);
    mark_layers(&proof.nonfair, marks);
    mark_fair(&proof.fair, marks);
    mark_entries(&proof.entries, marks);
}
