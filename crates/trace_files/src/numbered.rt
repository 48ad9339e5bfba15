// Lines of a word and a number.

ghost use Rattle.std.specs.Prelude.{◌≡◌, ◌++◌, ◌≤◌, ◌↔◌, ℕ, IfSome, IsTrue, decimal};

use crate::fronts::behind;
use itoa::Buffer;
use text_lines::numbers::number;

/// The number behind these bytes, at most 4,294,967,295.
pub(crate) fn number_behind(text: &[u8], front: &[u8]) -> Option<u32>
    ensures some { IfSome result (λ n. text.now ≡ front.now ++ decimal n) }
    ensures none { result ≡ None → (n : ℕ) → n ≤ 4294967295 → text.now ≡ front.now ++ decimal n
        → ⊥ }
{
    number(behind(text, front)?)
}

/// Whether the word writes the number.
fn is_number(word: &[u8], n: usize) -> bool
    ensures { IsTrue result ↔ (word.now ≡ decimal n) }
{
    let mut buffer = Buffer::new();
    word == buffer.format(n).as_bytes()
}

/// Whether the text is these bytes with the number behind them.
pub(crate) fn is_numbered(text: &[u8], front: &[u8], n: usize) -> bool
    ensures { IsTrue result ↔ (text.now ≡ front.now ++ decimal n) }
{
    match behind(text, front) {
        Some(word) => is_number(word, n),
        None => false,
    }
}
