// The words of a line, by what has to stand there.

ghost use Rattle.std.specs.Prelude.{◌≡◌, ◌∷◌, ◌≤◌, ◌↔◌, [], ℕ, List, IfSome, IsTrue, decimal};
ghost use Rattle.text_lines.specs.Words.{AreWords};

use text_lines::numbers::number;
use text_lines::words::Words;

// Whether the words are the same.
pub(crate) fn is_word(word: &[u8], other: &[u8]) -> bool
    ensures { IsTrue result ↔ (word.now ≡ other.now) }
{
    word == other
}

// Whether the next word is this one. It is taken in any case.
pub(crate) fn takes_word(words: &mut Words<'_>, word: &[u8]) -> bool
    ensures yes { IsTrue result → words.old ≡ word.now ∷ words.new }
    ensures no { (rest : List (List ℕ)) → words.old ≡ word.now ∷ rest → IsTrue result }
{
    match words.next() {
        Some(next) => next == word,
        None => false,
    }
}

// The number that the next word writes. The word is taken in any case.
pub(crate) fn takes_number(words: &mut Words<'_>) -> Option<u32>
    ensures some { IfSome result (λ n. words.old ≡ decimal n ∷ words.new) }
    ensures none { result ≡ None → (n : ℕ) → n ≤ 4294967295 → (rest : List (List ℕ))
        → words.old ≡ decimal n ∷ rest → ⊥ }
{
    number(words.next()?)
}

// Whether no word is left.
pub(crate) fn takes_end(words: &mut Words<'_>) -> bool
    ensures { IsTrue result ↔ (words.old ≡ []) }
{
    words.next().is_none()
}

// The number that is left, and nothing else.
pub(crate) fn takes_last(words: &mut Words<'_>) -> Option<u32>
    ensures some { IfSome result (λ n. words.old ≡ decimal n ∷ []) }
    ensures none { result ≡ None → (n : ℕ) → n ≤ 4294967295 → words.old ≡ decimal n ∷ [] → ⊥ }
{
    let n = takes_number(words)?;
    if !takes_end(words) {
        return None;
    }
    Some(n)
}

// The number behind the word.
fn number_left(words: &mut Words<'_>, word: &[u8]) -> Option<u32>
    ensures some { IfSome result (λ n. words.old ≡ word.now ∷ decimal n ∷ []) }
    ensures none { result ≡ None → (n : ℕ) → n ≤ 4294967295 → words.old ≡ word.now ∷ decimal n ∷ []
        → ⊥ }
{
    if !takes_word(words, word) {
        return None;
    }
    takes_last(words)
}

// The two numbers behind the word.
fn numbers_left(words: &mut Words<'_>, word: &[u8]) -> Option<(u32, u32)>
    ensures some { IfSome result (λ p. words.old ≡ word.now ∷ decimal p.0 ∷ decimal p.1 ∷ []) }
    ensures none { result ≡ None → (n k : ℕ) → n ≤ 4294967295 → k ≤ 4294967295
        → words.old ≡ word.now ∷ decimal n ∷ decimal k ∷ [] → ⊥ }
{
    if !takes_word(words, word) {
        return None;
    }
    let n = takes_number(words)?;
    let k = takes_last(words)?;
    Some((n, k))
}

// The number in a line of this word and a number.
pub(crate) fn number_behind(text: &[u8], word: &[u8]) -> Option<u32>
    ensures some { IfSome result (λ n. (n ≤ 4294967295)
        × AreWords text.now (word.now ∷ decimal n ∷ [])) }
    ensures none { result ≡ None → (n : ℕ) → n ≤ 4294967295
        → AreWords text.now (word.now ∷ decimal n ∷ []) → ⊥ }
{
    number_left(&mut Words::of(text), word)
}

// The numbers in a line of this word and two numbers.
pub(crate) fn numbers_behind(text: &[u8], word: &[u8]) -> Option<(u32, u32)>
    ensures some { IfSome result (λ p. (p.0 ≤ 4294967295) × (p.1 ≤ 4294967295)
        × AreWords text.now (word.now ∷ decimal p.0 ∷ decimal p.1 ∷ [])) }
    ensures none { result ≡ None → (n k : ℕ) → n ≤ 4294967295 → k ≤ 4294967295
        → AreWords text.now (word.now ∷ decimal n ∷ decimal k ∷ []) → ⊥ }
{
    numbers_left(&mut Words::of(text), word)
}
