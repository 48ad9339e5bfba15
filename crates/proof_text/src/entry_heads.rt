// The first line of an entry.

ghost use Rattle.std.specs.Prelude.{◌≡◌, ◌∷◌, Bool, ℕ, List, All, AllPairs, IfSome, IsTrue, codes, ◌↔◌};
ghost use Rattle.proof_form.specs.Seen.{seen_rule};
ghost use Rattle.proof_form.specs.Shape.{ComesBefore};
ghost use Rattle.proof_text.specs.EntryHeads.{IsSmallSigned, bare_entry, signed_words};
ghost use Rattle.proof_text.specs.Lines as lines;
ghost use Rattle.proof_text.specs.RuleHeads.{bare_rule};
ghost use Rattle.text_lines.specs.Words.{AreWords};

use crate::line_words::{is_word, takes_number, takes_word};
use crate::rule_heads::{RuleHead, takes_head};
use proof_form::form::{Entry, FairPart, Rule};
use proof_form::shapes::comes_before;
use std::alloc::Global;
use text_lines::words::Words;

/// What the first line of an entry says.
#[derive(Clone, Copy)]
pub struct EntryHead {
    pub node: u32,
    pub plus: bool,
    pub rule: RuleHead,
}

// The sign that the next word is. The word is taken in any case.
fn takes_sign(words: &mut Words<'_>) -> Option<bool>
    ensures some { IfSome result (λ plus. words.old ≡ lines.sign_word plus ∷ words.new) }
    ensures none { result ≡ None → (plus : Bool) → (rest : List (List ℕ))
        → words.old ≡ lines.sign_word plus ∷ rest → ⊥ }
{
    let word = words.next()?;
    if is_word(word, b"+") {
        return Some(true);
    }
    if is_word(word, b"-") {
        return Some(false);
    }
    None
}

// A node, a sign and a rule's head are left, and nothing else.
pub(crate) fn takes_signed(words: &mut Words<'_>) -> Option<EntryHead>
    ensures some { IfSome result (λ h. IsSmallSigned h × (words.old ≡ signed_words h)) }
    ensures none { result ≡ None → (h : _) → IsSmallSigned h → words.old ≡ signed_words h → ⊥ }
{
    let node = takes_number(words)?;
    let plus = takes_sign(words)?;
    let rule = takes_head(words)?;
    Some(EntryHead { node, plus, rule })
}

// They stand behind the word `entry`.
pub(crate) fn signed_in(text: &[u8]) -> Option<EntryHead>
    ensures some { IfSome result (λ h. IsSmallSigned h
        × AreWords text.now (codes "entry" ∷ signed_words h)) }
    ensures none { result ≡ None → (h : _) → IsSmallSigned h
        → AreWords text.now (codes "entry" ∷ signed_words h) → ⊥ }
{
    let mut words = Words::of(text);
    if !takes_word(&mut words, b"entry") {
        return None;
    }
    takes_signed(&mut words)
}

// A rule of the head's kind.
fn rule_for(alloc: Global, head: RuleHead) -> Rule<u32>
    ensures { seen_rule result ≡ bare_rule head }
{
    match head {
        RuleHead::Ex => Rule::EX(0),
        RuleHead::Ax => Rule::AX(0),
        RuleHead::Ar => Rule::AR(0),
        RuleHead::Eu { .. } => Rule::EU(Vec::new(alloc)),
        RuleHead::Au { .. } => Rule::AU(Vec::new(alloc)),
        RuleHead::Er => {
            let fair = FairPart {
                inside: 0,
                reach: Vec::new(alloc),
            };
            Rule::ER(fair, Vec::new(alloc))
        }
    }
}

// An entry with this head.
pub(crate) fn entry_for(alloc: Global, head: EntryHead) -> Entry<u32>
    ensures { result ≡ bare_entry head }
{
    Entry {
        node: head.node,
        plus: head.plus,
        rule: rule_for(alloc, head.rule),
    }
}

// Whether all earlier entries come before the entry. They rise.
pub(crate) fn comes_last(earlier: &[Entry<u32>], entry: &Entry<u32>) -> bool
    requires { AllPairs ComesBefore earlier.now }
    ensures { IsTrue result ↔ All (λ a. ComesBefore a entry.now) earlier.now }
{
    if earlier.is_empty() {
        return true;
    }
    comes_before(&earlier[earlier.len() - 1], entry)
}
