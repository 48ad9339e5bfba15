//! Collections of the parts' store.

ghost use Rattle.std.specs.Prelude.{◌≡◌, ℕ, ◌<◌, true, length, slice_index};
ghost use Rattle.bdd_nodes.specs.Store.{Has};
ghost use Rattle.trans_parts.specs.Parts.{model_of as model_in};

use crate::pairs::Sets;
use bdd_nodes::{Ref, Store};
use case_text::fault::Fault;
use std::alloc::Global;
use trans_parts::Parts;

/// Whether the store has all of the diagrams.
fn are_there(store: &Store, refs: &[Ref]) -> bool
    ensures { result ≡ true → (k : ℕ) → k < length refs.now
        → Has store.now (slice_index refs.now k) }
{
    for r in refs {
        if !store.has(*r) {
            return false;
        }
    }
    true
}

/// The sets after a collection that keeps them and the parts.
pub fn collected(alloc: Global, parts: &mut Parts, sets: &Sets) -> Result<Sets, Fault>
    ensures { model_in parts.new ≡ model_in parts.old }
{
    let mut roots = [sets.initial, sets.leaf, sets.into, sets.always];
    if !are_there(parts.store(), &roots) {
        return Err(Fault::Unasked);
    }
    parts.collect(alloc, &mut roots)?;
    let [initial, leaf, into, always] = roots;
    Ok(Sets {
        initial,
        leaf,
        into,
        always,
    })
}
