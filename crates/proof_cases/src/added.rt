//! Proofs with a free part that claims nothing.

ghost use Rattle.std.specs.Prelude.{◌≡◌, ◌∷◌, []};
ghost use Rattle.proof_form.specs.Form.{fair_sets, free_sets};
ghost use Rattle.proof_form.specs.Pinned.{proof_slots};
ghost use Rattle.proof_cases.specs.LetGo.{HasPins, Lessens};

use crate::wrong::{Change, add_reach};
use proof_form::form::{FairPart, FreePart, Proof};
use proof_form::releasing::release_free_part;
use region_sets::{Pin, StateSets};
use std::alloc::Global;

/// A fair part with this set, and with one list, an empty one, of sets that lead to a constraint.
fn one_fair(alloc: Global, inside: Pin) -> FairPart<Pin>
    ensures { fair_sets result ≡ inside ∷ [] }
{
    let mut fair = FairPart {
        inside,
        reach: Vec::new(alloc),
    };
    add_reach(alloc, &mut fair);
    fair
}

/// A free part without layers and entries, with this set.
fn one_free(alloc: Global, inside: Pin) -> FreePart<Pin>
    ensures { free_sets result ≡ inside ∷ [] }
{
    FreePart {
        nonfair: Vec::new(alloc),
        fair: one_fair(alloc, inside),
        entries: Vec::new(alloc),
    }
}

/// The proof with such a free part in the place of its own.
fn with_bare<S: StateSets>(
    alloc: Global,
    sets: &mut S,
    proof: Proof<Pin>,
    inside: Pin,
) -> Proof<Pin>
    requires { HasPins (S.seen sets.old) (inside.slot ∷ proof_slots proof) }
    ensures { Lessens (S.seen sets.old) (S.seen sets.new)
        (inside.slot ∷ proof_slots proof) (proof_slots result) }
{
    let Proof {
        claim,
        free,
        nonfair,
        fair,
        entries,
        at,
    } = proof;
    release_free_part(sets, free);
    Proof {
        claim,
        free: Some(one_free(alloc, inside)),
        nonfair,
        fair,
        entries,
        at,
    }
}

/// The proof with a free part that claims nothing, where the change asks for it. The spare pin, of no
/// state, is its fair set, or is released.
pub fn with_spare<S: StateSets>(
    alloc: Global,
    sets: &mut S,
    proof: Proof<Pin>,
    spare: Pin,
    change: Change,
) -> Proof<Pin>
    requires { HasPins (S.seen sets.old) (spare.slot ∷ proof_slots proof) }
    ensures { Lessens (S.seen sets.old) (S.seen sets.new)
        (spare.slot ∷ proof_slots proof) (proof_slots result) }
{
    match change {
        Change::BareFreePart => with_bare(alloc, sets, proof, spare),
        _ => {
            sets.release(spare);
            proof
        }
    }
}
