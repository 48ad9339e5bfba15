// What is seen of the next line before it is read.

ghost use Rattle.std.specs.Prelude.{IsFalse, IsTrue};
ghost use Rattle.text_lines.specs.Cursor.{BeginsWith};

use text_lines::cursor::Cursor;

// Whether the next line begins with these bytes.
pub(crate) fn begins_with(cursor: &Cursor<'_>, front: &[u8]) -> bool
    ensures yes { IsTrue result → BeginsWith front.now cursor.now }
    ensures no { IsFalse result → BeginsWith front.now cursor.now → ⊥ }
{
    match cursor.peek() {
        Some(text) => text.starts_with(front),
        None => false,
    }
}
