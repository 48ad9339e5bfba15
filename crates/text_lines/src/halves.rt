// A text before and behind a byte.
ghost use Rattle.std.specs.Prelude.{◌≡◌, MatchOption, Contains};
ghost use Rattle.text_lines.specs.Halves.{IsParted};

// What stands before the first such byte, and what stands behind it.
pub(crate) fn halves(text: &[u8], stop: u8) -> Option<(&[u8], &[u8])>
    ensures { MatchOption result (Contains text.now stop → ⊥)
        (λ h. IsParted stop text.now h.0.now h.1.now) }
{
    let end = text.iter().position(|c| *c == stop)?;
    Some((&text[..end], &text[end + 1..]))
}
