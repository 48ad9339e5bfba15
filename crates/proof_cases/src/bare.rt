//! Proofs whose layers are taken out.

ghost use Rattle.std.specs.Prelude.{◌≡◌, ◌<◌, length};
ghost use Rattle.region_sets.specs.Ranks.{slots};
ghost use Rattle.proof_form.specs.Form.{entries_sets, rule_sets};
ghost use Rattle.proof_form.specs.Pinned.{proof_slots};
ghost use Rattle.proof_cases.specs.LetGo.{HasPins, Lessens};

use proof_form::form::{Entry, Proof, Rule};
use proof_form::releasing::release_layers;
use region_sets::{Pin, StateSets};
use std::alloc::Global;
use std::mem;

/// Takes out the layers of an `AU` entry.
fn strip_entry<S: StateSets>(alloc: Global, sets: &mut S, entry: &mut Entry<Pin>)
    requires { HasPins (S.seen sets.old) (slots (rule_sets entry.old.rule)) }
    ensures { Lessens (S.seen sets.old) (S.seen sets.new) (slots (rule_sets entry.old.rule))
        (slots (rule_sets entry.new.rule)) }
{
    if let Rule::AU(layers) = &mut entry.rule {
        let taken = mem::replace(layers, Vec::new(alloc));
        release_layers(sets, taken);
    }
}

/// Takes out the layers of the entry at a place.
fn strip_at<S: StateSets>(alloc: Global, sets: &mut S, entries: &mut Vec<Entry<Pin>>, k: usize)
    requires there { k < length entries.old.items }
    requires pins { HasPins (S.seen sets.old) (slots (entries_sets entries.old.items)) }
    ensures less { Lessens (S.seen sets.old) (S.seen sets.new)
        (slots (entries_sets entries.old.items)) (slots (entries_sets entries.new.items)) }
    ensures count { length entries.new.items ≡ length entries.old.items }
{
    strip_entry(alloc, sets, &mut entries[k])
}

/// Takes out the layers of all entries.
fn strip_entries<S: StateSets>(alloc: Global, sets: &mut S, entries: &mut Vec<Entry<Pin>>)
    requires { HasPins (S.seen sets.old) (slots (entries_sets entries.old.items)) }
    ensures { Lessens (S.seen sets.old) (S.seen sets.new) (slots (entries_sets entries.old.items))
        (slots (entries_sets entries.new.items)) }
{
    for k in 0..entries.len() {
        strip_at(alloc, sets, entries, k);
    }
}

/// The proof without the layers of its nonfair states and of its `AU` entries. All else is as it was.
pub fn without_layers<S: StateSets>(alloc: Global, sets: &mut S, proof: Proof<Pin>) -> Proof<Pin>
    requires { HasPins (S.seen sets.old) (proof_slots proof) }
    ensures { Lessens (S.seen sets.old) (S.seen sets.new) (proof_slots proof) (proof_slots result) }
{
    let Proof {
        claim,
        free,
        nonfair,
        fair,
        mut entries,
        at,
    } = proof;
    release_layers(sets, nonfair);
    strip_entries(alloc, sets, &mut entries);
    Proof {
        claim,
        free,
        nonfair: Vec::new(alloc),
        fair,
        entries,
        at,
    }
}
