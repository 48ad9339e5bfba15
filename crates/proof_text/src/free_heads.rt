// The first line of an entry for a constraint.

ghost use Rattle.std.specs.Prelude.{◌≡◌, ◌∷◌, All, AllPairs, IfSome, IsTrue, codes, ◌↔◌};
ghost use Rattle.proof_form.specs.Shape.{StandsBefore};
ghost use Rattle.proof_text.specs.FreeHeads.{IsSmallFree, bare_free_entry, free_words};
ghost use Rattle.text_lines.specs.Words.{AreWords};

use crate::entry_heads::{EntryHead, entry_for, takes_signed};
use crate::line_words::{takes_number, takes_word};
use proof_form::form::FreeEntry;
use proof_form::free_shapes::stands_before;
use std::alloc::Global;
use text_lines::words::Words;

/// What the first line of an entry for a constraint says.
#[derive(Clone, Copy)]
pub struct FreeHead {
    pub constraint: u32,
    pub entry: EntryHead,
}

// A constraint, a node, a sign and a rule's head are left, and nothing else.
fn takes_free(words: &mut Words<'_>) -> Option<FreeHead>
    ensures some { IfSome result (λ h. IsSmallFree h × (words.old ≡ free_words h)) }
    ensures none { result ≡ None → (h : _) → IsSmallFree h → words.old ≡ free_words h → ⊥ }
{
    let constraint = takes_number(words)?;
    let entry = takes_signed(words)?;
    Some(FreeHead { constraint, entry })
}

// They stand behind the word `centry`.
pub(crate) fn free_in(text: &[u8]) -> Option<FreeHead>
    ensures some { IfSome result (λ h. IsSmallFree h
        × AreWords text.now (codes "centry" ∷ free_words h)) }
    ensures none { result ≡ None → (h : _) → IsSmallFree h
        → AreWords text.now (codes "centry" ∷ free_words h) → ⊥ }
{
    let mut words = Words::of(text);
    if !takes_word(&mut words, b"centry") {
        return None;
    }
    takes_free(&mut words)
}

// An entry with this head.
pub(crate) fn free_entry_for(alloc: Global, head: FreeHead) -> FreeEntry<u32>
    ensures { result ≡ bare_free_entry head }
{
    FreeEntry {
        constraint: head.constraint,
        entry: entry_for(alloc, head.entry),
    }
}

// Whether all earlier entries come before the entry. They rise.
pub(crate) fn stands_last(earlier: &[FreeEntry<u32>], entry: &FreeEntry<u32>) -> bool
    requires { AllPairs StandsBefore earlier.now }
    ensures { IsTrue result ↔ All (λ a. StandsBefore a entry.now) earlier.now }
{
    if earlier.is_empty() {
        return true;
    }
    stands_before(&earlier[earlier.len() - 1], entry)
}
