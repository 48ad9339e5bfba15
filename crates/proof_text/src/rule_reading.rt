// From lines to rules, behind their heads.

ghost use Rattle.std.specs.Prelude.{◌≡◌, ◌∷◌, ◌≤◌, ◌+◌, [], ℕ, length, map, codes};
ghost use Rattle.proof_text.specs.Lines as lines;
ghost use Rattle.proof_text.specs.RuleHeads.{FitsBody, body_lines, in_rule};
ghost use Rattle.proof_text.specs.SetParts.{Finds, FitsSets, in_list};
ghost use Rattle.proof_text.specs.Spells.{greatest_number};
ghost use Rattle.proof_text.specs.declared.rule_heads.RuleHead.TheVariants as head_of_kind;

use crate::fair_reading::read_fair;
use crate::layer_reading::read_layers;
use crate::rule_heads::RuleHead;
use crate::set_reading::{count_in, read_set, read_sets};
use proof_form::form::Rule;
use std::alloc::Global;
use text_lines::cursor::Cursor;
use text_lines::faults::Fault;

fn read_until_count(cursor: &mut Cursor<'_>) -> Result<u32, Fault>
    requires room { cursor.old.line + length cursor.old.left ≤ 4294967295 }
    ensures { Finds (λ n. n ≤ greatest_number) (λ n. lines.counted (codes "until") n ∷ [])
        cursor.old result cursor.new }
{
    let line = cursor.line();
    let Some(text) = cursor.next() else {
        return Err(Fault::End);
    };
    count_in(text, b"until").ok_or(Fault::Stops { line })
}

// Sets that lead to where the first argument lets go, behind their number.
fn read_untils(alloc: Global, cursor: &mut Cursor<'_>, most: u64) -> Result<Vec<u32>, Fault>
    requires room { cursor.old.line + length cursor.old.left ≤ 4294967295 }
    requires some { 1 ≤ most }
    ensures { Finds (FitsSets most) (λ sets. lines.counted (codes "until") (length sets)
        ∷ map lines.set_line sets) cursor.old (in_list result) cursor.new }
{
    let n = read_until_count(cursor)?;
    let sets = read_sets(alloc, cursor, n, most)?;
    Ok(sets)
}

fn read_ex(cursor: &mut Cursor<'_>, most: u64) -> Result<Rule<u32>, Fault>
    requires room { cursor.old.line + length cursor.old.left ≤ 4294967295 }
    requires some { 1 ≤ most }
    ensures { (count : ℕ) → Finds (FitsBody count most head_of_kind.Ex) body_lines cursor.old
        (in_rule result) cursor.new }
{
    let set = read_set(cursor, most)?;
    Ok(Rule::EX(set))
}

fn read_ax(cursor: &mut Cursor<'_>, most: u64) -> Result<Rule<u32>, Fault>
    requires room { cursor.old.line + length cursor.old.left ≤ 4294967295 }
    requires some { 1 ≤ most }
    ensures { (count : ℕ) → Finds (FitsBody count most head_of_kind.Ax) body_lines cursor.old
        (in_rule result) cursor.new }
{
    let set = read_set(cursor, most)?;
    Ok(Rule::AX(set))
}

fn read_ar(cursor: &mut Cursor<'_>, most: u64) -> Result<Rule<u32>, Fault>
    requires room { cursor.old.line + length cursor.old.left ≤ 4294967295 }
    requires some { 1 ≤ most }
    ensures { (count : ℕ) → Finds (FitsBody count most head_of_kind.Ar) body_lines cursor.old
        (in_rule result) cursor.new }
{
    let set = read_set(cursor, most)?;
    Ok(Rule::AR(set))
}

fn read_eu(alloc: Global, cursor: &mut Cursor<'_>, n: u32, most: u64) -> Result<Rule<u32>, Fault>
    requires room { cursor.old.line + length cursor.old.left ≤ 4294967295 }
    requires some { 1 ≤ most }
    ensures { (count : ℕ) → Finds (FitsBody count most (head_of_kind.Eu n)) body_lines cursor.old
        (in_rule result) cursor.new }
{
    let sets = read_sets(alloc, cursor, n, most)?;
    Ok(Rule::EU(sets))
}

fn read_au(
    alloc: Global,
    cursor: &mut Cursor<'_>,
    n: u32,
    count: usize,
    most: u64,
) -> Result<Rule<u32>, Fault>
    requires room { cursor.old.line + length cursor.old.left ≤ 4294967295 }
    requires few { count ≤ 4294967295 }
    requires one { 1 ≤ count }
    requires some { 1 ≤ most }
    ensures { Finds (FitsBody count most (head_of_kind.Au n)) body_lines cursor.old (in_rule result)
        cursor.new }
{
    let layers = read_layers(alloc, cursor, n, count, most)?;
    Ok(Rule::AU(layers))
}

fn read_er(
    alloc: Global,
    cursor: &mut Cursor<'_>,
    count: usize,
    most: u64,
) -> Result<Rule<u32>, Fault>
    requires room { cursor.old.line + length cursor.old.left ≤ 4294967295 }
    requires few { count ≤ 4294967295 }
    requires some { 1 ≤ most }
    ensures { Finds (FitsBody count most head_of_kind.Er) body_lines cursor.old (in_rule result)
        cursor.new }
{
    let fair = read_fair(alloc, cursor, count, most)?;
    let untils = read_untils(alloc, cursor, most)?;
    Ok(Rule::ER(fair, untils))
}

// The lines of a rule behind its head.
pub(crate) fn read_body(
    alloc: Global,
    cursor: &mut Cursor<'_>,
    head: RuleHead,
    count: usize,
    most: u64,
) -> Result<Rule<u32>, Fault>
    requires room { cursor.old.line + length cursor.old.left ≤ 4294967295 }
    requires few { count ≤ 4294967295 }
    requires one { 1 ≤ count }
    requires some { 1 ≤ most }
    ensures { Finds (FitsBody count most head) body_lines cursor.old (in_rule result) cursor.new }
{
    match head {
        RuleHead::Ex => read_ex(cursor, most),
        RuleHead::Ax => read_ax(cursor, most),
        RuleHead::Ar => read_ar(cursor, most),
        RuleHead::Eu { count: n } => read_eu(alloc, cursor, n, most),
        RuleHead::Au { count: n } => read_au(alloc, cursor, n, count, most),
        RuleHead::Er => read_er(alloc, cursor, count, most),
    }
}
