//! Lines that have one text.

ghost use Rattle.std.specs.Prelude.{◌≡◌, ◌+◌, ◌≤◌, ◌∷◌, [], ℕ, List, length};
ghost use Rattle.std.specs.List.{join_with_byte};
ghost use Rattle.proof_text.specs.Lines.{Words as words_line};
ghost use Rattle.proof_text.specs.SetParts.{Finds};

use text_lines::cursor::Cursor;
use text_lines::faults::Fault;

/// Reads a line that has to be this text.
pub(crate) fn read_fixed(cursor: &mut Cursor<'_>, expected: &[u8]) -> Result<(), Fault>
    requires { cursor.old.line + length cursor.old.left ≤ 4294967295 }
    ensures { (words : List (List ℕ)) → join_with_byte 32 words ≡ expected.now
        → Finds (λ (x : Unit {0}). Unit {0}) (λ x. words_line words ∷ []) cursor.old result
        cursor.new }
{
    let line = cursor.line();
    let Some(text) = cursor.next() else {
        return Err(Fault::End);
    };
    if text == expected {
        Ok(())
    } else {
        Err(Fault::Stops { line })
    }
}
