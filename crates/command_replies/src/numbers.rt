// Numbers behind words.
ghost use Rattle.std.specs.Prelude.{◌≡◌, ◌++◌, OnOk};

use itoa::Integer;
use std::alloc::AllocError;
use value_texts::text::Text;

/// Adds the word and the number behind it.
pub(crate) fn push_numbered<I: Integer>(
    text: &mut Text,
    word: &[u8],
    n: I,
) -> Result<(), AllocError>
    ensures { OnOk result (text.new ≡ text.old ++ (word.now ++ I.text n)) }
{
    text.push(word)?;
    text.push_number(n)
}
