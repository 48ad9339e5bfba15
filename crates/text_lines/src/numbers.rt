//! Words as numbers.

ghost use Rattle.std.specs.Prelude.{◌≡◌, ℕ, ◌≤◌, ◌↔◌, IsTrue, IfSome, decimal};
ghost use Rattle.text_lines.specs.Number.{IsPlainStart};

/// The number that a word writes in decimal, without sign or leading zero, at most 4,294,967,295.
pub fn number(word: &[u8]) -> Option<u32>
    ensures some { IfSome result (λ n. word.now ≡ decimal n) }
    ensures none { result ≡ None → (n : ℕ) → n ≤ 4294967295 → word.now ≡ decimal n → ⊥ }
{
    if !has_plain_start(word) {
        return None;
    }
    let Ok(text) = str::from_utf8(word) else {
        return None;
    };
    let Ok(number) = text.parse::<u32>() else {
        return None;
    };
    Some(number)
}

// Whether a digit stands first, and 0 only alone: `parse` reads a plus sign and leading zeros too.
fn has_plain_start(word: &[u8]) -> bool
    ensures { IsTrue result ↔ IsPlainStart word.now }
{
    matches!(word, [b'0'] | [b'1'..=b'9', ..])
}
