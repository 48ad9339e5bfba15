// From lines to fair parts.

ghost use Rattle.std.specs.Prelude.{◌≡◌, ◌∷◌, ◌≤◌, ◌+◌, [], length, codes, decimal};
ghost use Rattle.proof_text.specs.Lines as lines;
ghost use Rattle.proof_text.specs.SetParts.{AreLists, Finds, FitsFair, FitsSet, FitsSets, Judges, in_list, in_lists, list_lines};
ghost use Rattle.proof_text.specs.Spells.{greatest_number};

use crate::line_words::numbers_behind;
use crate::set_reading::{read_sets, set_in};
use proof_form::form::FairPart;
use std::alloc::Global;
use text_lines::cursor::Cursor;
use text_lines::faults::Fault;

// The number of sets that lead to constraint k.
fn reach_in(text: &[u8], k: usize) -> Option<u32>
    requires few { k ≤ 4294967295 }
    ensures { Judges (λ n. n ≤ greatest_number)
        (λ n. lines.Words (codes "reach" ∷ decimal k ∷ decimal n ∷ [])) text.now result }
{
    let (constraint, n) = numbers_behind(text, b"reach")?;
    if constraint as usize != k {
        return None;
    }
    Some(n)
}

fn read_reach_count(cursor: &mut Cursor<'_>, k: usize) -> Result<u32, Fault>
    requires room { cursor.old.line + length cursor.old.left ≤ 4294967295 }
    requires few { k ≤ 4294967295 }
    ensures { Finds (λ n. n ≤ greatest_number)
        (λ n. lines.Words (codes "reach" ∷ decimal k ∷ decimal n ∷ []) ∷ []) cursor.old result
        cursor.new }
{
    let line = cursor.line();
    let Some(text) = cursor.next() else {
        return Err(Fault::End);
    };
    reach_in(text, k).ok_or(Fault::Stops { line })
}

// The sets that lead to constraint k, behind their number.
fn read_reach(
    alloc: Global,
    cursor: &mut Cursor<'_>,
    k: usize,
    most: u64,
) -> Result<Vec<u32>, Fault>
    requires room { cursor.old.line + length cursor.old.left ≤ 4294967295 }
    requires few { k ≤ 4294967295 }
    requires some { 1 ≤ most }
    ensures { Finds (FitsSets most) (list_lines k) cursor.old (in_list result) cursor.new }
{
    let n = read_reach_count(cursor, k)?;
    let sets = read_sets(alloc, cursor, n, most)?;
    Ok(sets)
}

// Those of so many constraints.
fn read_reaches(
    alloc: Global,
    cursor: &mut Cursor<'_>,
    count: usize,
    most: u64,
) -> Result<Vec<Vec<u32>>, Fault>
    requires room { cursor.old.line + length cursor.old.left ≤ 4294967295 }
    requires few { count ≤ 4294967295 }
    requires some { 1 ≤ most }
    ensures { Finds (AreLists most count) (lines.reach_lines 1) cursor.old (in_lists result)
        cursor.new }
{
    let mut lists = Vec::new(alloc);
    for k in 0..count {
        let sets = read_reach(alloc, cursor, k + 1, most)?;
        let Ok(()) = lists.push(sets) else {
            return Err(Fault::Memory);
        };
    }
    Ok(lists)
}

fn read_inside(cursor: &mut Cursor<'_>, most: u64) -> Result<u32, Fault>
    requires room { cursor.old.line + length cursor.old.left ≤ 4294967295 }
    requires some { 1 ≤ most }
    ensures { Finds (FitsSet most) (λ s. lines.Words (codes "fair" ∷ decimal s ∷ []) ∷ [])
        cursor.old result cursor.new }
{
    let line = cursor.line();
    let Some(text) = cursor.next() else {
        return Err(Fault::End);
    };
    set_in(text, b"fair", most).ok_or(Fault::Stops { line })
}

// A set and what leads to each of so many constraints inside it.
pub(crate) fn read_fair(
    alloc: Global,
    cursor: &mut Cursor<'_>,
    count: usize,
    most: u64,
) -> Result<FairPart<u32>, Fault>
    requires room { cursor.old.line + length cursor.old.left ≤ 4294967295 }
    requires few { count ≤ 4294967295 }
    requires some { 1 ≤ most }
    ensures { Finds (FitsFair count most) lines.fair_lines cursor.old result cursor.new }
{
    let inside = read_inside(cursor, most)?;
    let reach = read_reaches(alloc, cursor, count, most)?;
    Ok(FairPart { inside, reach })
}
