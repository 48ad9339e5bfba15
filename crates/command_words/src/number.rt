// The number that a word writes.
ghost use Rattle.std.specs.Prelude.{◌≡◌, ◌<◌, ◌≤◌, ◌↔◌, ◌^◌, IsTrue, slice_index};
ghost use Rattle.command_words.specs.Number.{number_of};

// As many specifications as a model has at most.
pub(crate) const MOST_SPECS: u32 = 256;

// From 1 to `most`, in decimal.
pub(crate) fn read_number(word: &str, most: u32) -> Option<u32>
    ensures { result ≡ number_of most word.now }
{
    if !begins_with_nonzero(word) {
        return None;
    }
    let Ok(number) = word.parse::<u32>() else {
        return None;
    };
    if number <= most { Some(number) } else { None }
}

// Whether a digit other than 0 stands first: `parse` reads a plus sign and leading zeros too.
fn begins_with_nonzero(word: &str) -> bool
    ensures { IsTrue result ↔ (48 < slice_index word.now 0) × (slice_index word.now 0 ≤ 57) }
{
    matches!(word.as_bytes(), [b'1'..=b'9', ..])
}
