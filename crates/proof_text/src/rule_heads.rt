// The words of an entry's first line that say its rule.

ghost use Rattle.std.specs.Prelude.{◌≡◌, ◌∷◌, [], IfSome};
ghost use Rattle.proof_text.specs.RuleHeads.{IsSmallHead, head_words};

use crate::line_words::{is_word, takes_end, takes_last};
use text_lines::words::Words;

/// What the first line of an entry says of its rule: which one it is, and how many sets or layers it has.
#[derive(Clone, Copy)]
pub enum RuleHead {
    Ex,
    Ax,
    Ar,
    Eu { count: u32 },
    Au { count: u32 },
    Er,
}

// That of a rule without a number.
fn bare_head(word: &[u8]) -> Option<RuleHead>
    ensures some { IfSome result (λ h. IsSmallHead h × (word.now ∷ [] ≡ head_words h)) }
    ensures none { result ≡ None → (h : _) → word.now ∷ [] ≡ head_words h → ⊥ }
{
    if is_word(word, b"EX") {
        return Some(RuleHead::Ex);
    }
    if is_word(word, b"AX") {
        return Some(RuleHead::Ax);
    }
    if is_word(word, b"AR") {
        return Some(RuleHead::Ar);
    }
    if is_word(word, b"ER") {
        return Some(RuleHead::Er);
    }
    None
}

// The head that is left, and nothing else.
pub(crate) fn takes_head(words: &mut Words<'_>) -> Option<RuleHead>
    ensures some { IfSome result (λ h. IsSmallHead h × (words.old ≡ head_words h)) }
    ensures none { result ≡ None → (h : _) → IsSmallHead h → words.old ≡ head_words h → ⊥ }
{
    let kind = words.next()?;
    if is_word(kind, b"EU") {
        let count = takes_last(words)?;
        return Some(RuleHead::Eu { count });
    }
    if is_word(kind, b"AU") {
        let count = takes_last(words)?;
        return Some(RuleHead::Au { count });
    }
    if !takes_end(words) {
        return None;
    }
    bare_head(kind)
}
