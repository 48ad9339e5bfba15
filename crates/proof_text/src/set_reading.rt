// From lines to sets.

ghost use Rattle.std.specs.Prelude.{◌≡◌, ◌∷◌, ◌≤◌, ◌+◌, [], length, map, codes, decimal};
ghost use Rattle.proof_text.specs.Lines as lines;
ghost use Rattle.proof_text.specs.SetParts.{AreSets, Finds, FitsSet, FitsSets, Judges, in_list};
ghost use Rattle.proof_text.specs.Spells.{greatest_number};

use crate::line_words::number_behind;
use std::alloc::Global;
use text_lines::cursor::Cursor;
use text_lines::faults::Fault;

// The set behind the word.
pub(crate) fn set_in(text: &[u8], word: &[u8], most: u64) -> Option<u32>
    ensures { Judges (FitsSet most) (lines.counted word.now) text.now result }
{
    let set = number_behind(text, word)?;
    if u64::from(set) >= most {
        return None;
    }
    Some(set)
}

// The number behind the word.
pub(crate) fn count_in(text: &[u8], word: &[u8]) -> Option<u32>
    ensures { Judges (λ n. n ≤ greatest_number) (lines.counted word.now) text.now result }
{
    number_behind(text, word)
}

// A set. The sets of a block are the numbers below `most`.
pub(crate) fn read_set(cursor: &mut Cursor<'_>, most: u64) -> Result<u32, Fault>
    requires room { cursor.old.line + length cursor.old.left ≤ 4294967295 }
    requires some { 1 ≤ most }
    ensures { Finds (FitsSet most) (λ s. lines.set_line s ∷ []) cursor.old result cursor.new }
{
    let line = cursor.line();
    let Some(text) = cursor.next() else {
        return Err(Fault::End);
    };
    set_in(text, b"set", most).ok_or(Fault::Stops { line })
}

// So many sets. The number reserves no memory.
pub(crate) fn read_sets(
    alloc: Global,
    cursor: &mut Cursor<'_>,
    n: u32,
    most: u64,
) -> Result<Vec<u32>, Fault>
    requires room { cursor.old.line + length cursor.old.left ≤ 4294967295 }
    requires some { 1 ≤ most }
    ensures { Finds (AreSets most n) (map lines.set_line) cursor.old (in_list result) cursor.new }
{
    let mut sets = Vec::new(alloc);
    for _ in 0..n {
        let set = read_set(cursor, most)?;
        let Ok(()) = sets.push(set) else {
            return Err(Fault::Memory);
        };
    }
    Ok(sets)
}
