//! Reads the first line of a block.

ghost use Rattle.std.specs.Prelude.{◌≡◌, ◌∷◌, ◌+◌, ◌≤◌, [], Bool, ℕ, List, IfSome, codes, length};
ghost use Rattle.proof_text.specs.BlockReading.{FindsFirst, IsSmallHead, claimed_words};
ghost use Rattle.proof_text.specs.FileParts.{FitsHead, head_line};
ghost use Rattle.proof_text.specs.Lines as lines;
ghost use Rattle.proof_text.specs.SetParts.{Judges};
ghost use Rattle.text_lines.specs.Words.{AreWords};

use crate::heads::Head;
use crate::line_words::{is_word, takes_end, takes_number, takes_word};
use kripke_model::models::Ruled;
use text_lines::cursor::Cursor;
use text_lines::faults::Fault;
use text_lines::words::Words;

/// The claim that the next word makes. The word is taken in any case.
fn takes_claim(words: &mut Words<'_>) -> Option<bool>
    ensures some { IfSome result (λ claim. words.old ≡ lines.claim_word claim ∷ words.new) }
    ensures none { result ≡ None → (claim : Bool) → (rest : List (List ℕ))
        → words.old ≡ lines.claim_word claim ∷ rest → ⊥ }
{
    let word = words.next()?;
    if is_word(word, b"true") {
        return Some(true);
    }
    if is_word(word, b"false") {
        return Some(false);
    }
    None
}

/// A specification and a claim are left, and nothing else.
fn takes_claimed(words: &mut Words<'_>) -> Option<Head>
    ensures some { IfSome result (λ h. IsSmallHead h × (words.old ≡ claimed_words h)) }
    ensures none { result ≡ None → (h : _) → IsSmallHead h
        → words.old ≡ claimed_words h → ⊥ }
{
    let spec = takes_number(words)?;
    let claim = takes_claim(words)?;
    if !takes_end(words) {
        return None;
    }
    Some(Head { spec, claim })
}

/// They stand behind the word `spec`.
fn claimed_in(text: &[u8]) -> Option<Head>
    ensures some { IfSome result (λ h. IsSmallHead h
        × AreWords text.now (codes "spec" ∷ claimed_words h)) }
    ensures none { result ≡ None → (h : _) → IsSmallHead h
        → AreWords text.now (codes "spec" ∷ claimed_words h) → ⊥ }
{
    let mut words = Words::of(text);
    if !takes_word(&mut words, b"spec") {
        return None;
    }
    takes_claimed(&mut words)
}

/// What the line says, where a block behind one of the specification `last` may begin with it.
fn head_in(text: &[u8], model: &Ruled, last: u32) -> Option<Head>
    ensures { Judges (FitsHead model.now last) head_line text.now result }
{
    model.rules_law();
    let head = claimed_in(text)?;
    if head.spec <= last {
        return None;
    }
    if head.spec as usize > model.specs().len() {
        return None;
    }
    Some(head)
}

/// Reads the first line of a block behind one of the specification `last`; 0 is for none.
pub(crate) fn read_head(cursor: &mut Cursor<'_>, model: &Ruled, last: u32) -> Result<Head, Fault>
    requires { cursor.old.line + length cursor.old.left ≤ 4294967295 }
    ensures { (levels : ℕ) → FindsFirst levels (FitsHead model.now last)
        (λ h. head_line h ∷ []) cursor.old result cursor.new }
{
    let line = cursor.line();
    let Some(text) = cursor.next() else {
        return Err(Fault::End);
    };
    head_in(text, model, last).ok_or(Fault::Stops { line })
}
