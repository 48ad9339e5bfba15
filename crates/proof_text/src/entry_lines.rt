// Lines of entries.

ghost use Rattle.std.specs.Prelude.{◌≡◌, ◌++◌, ◌∷◌, [], OnOk, codes, decimal, flat_map, length};
ghost use Rattle.proof_form.specs.Seen.{seen_rule};
ghost use Rattle.proof_text.specs.Lines as lines;
ghost use Rattle.proof_text.specs.Lines.{text_of};
ghost use Rattle.proof_text.specs.RuleText.{rule_text};

use crate::set_lines::{push_counted, push_fair, push_layers, push_set, push_sets, push_spaced};
use proof_form::form::{Entry, FreeEntry, Rule};
use std::alloc::AllocError;
use value_texts::text::Text;

// The rule's word, a number, and the end of the line.
fn push_many(text: &mut Text, word: &[u8], n: usize) -> Result<(), AllocError>
    ensures { OnOk result (text.new ≡ text.old ++ 32 ∷ text_of (lines.counted word.now n ∷ [])) }
{
    text.push(b" ")?;
    push_counted(text, word, n)
}

// The rest of an entry's first line, and its further lines, where it has one set.
fn push_one(text: &mut Text, word: &[u8], set: u32) -> Result<(), AllocError>
    ensures { OnOk result (text.new ≡ text.old ++ word.now ++ text_of (lines.set_line set ∷ [])) }
{
    text.push(word)?;
    push_set(text, set)
}

// The rest of an entry's first line behind its sign, and its further lines.
fn push_rule(text: &mut Text, rule: &Rule<u32>) -> Result<(), AllocError>
    ensures { OnOk result (text.new ≡ text.old ++ rule_text (seen_rule rule.now)) }
{
    match rule {
        Rule::EX(set) => push_one(text, b" EX\n", *set),
        Rule::AX(set) => push_one(text, b" AX\n", *set),
        Rule::AR(set) => push_one(text, b" AR\n", *set),
        Rule::EU(sets) => {
            push_many(text, b"EU", sets.len())?;
            push_sets(text, sets)
        }
        Rule::AU(layers) => {
            push_many(text, b"AU", layers.len())?;
            push_layers(text, layers)
        }
        Rule::ER(fair, untils) => {
            text.push(b" ER\n")?;
            push_fair(text, fair)?;
            push_counted(text, b"until", untils.len())?;
            push_sets(text, untils)
        }
    }
}

fn sign_word(plus: bool) -> &'static [u8]
    ensures { result.now ≡ lines.sign_word plus }
{
    if plus { b"+" } else { b"-" }
}

// A node and a sign, and what stands behind them.
fn push_signed(text: &mut Text, entry: &Entry<u32>) -> Result<(), AllocError>
    ensures { OnOk result (text.new ≡ text.old ++ 32 ∷ decimal entry.now.node ++ 32
        ∷ lines.sign_word entry.now.plus ++ rule_text entry.now.rule) }
{
    push_spaced(text, entry.node)?;
    text.push(b" ")?;
    text.push(sign_word(entry.plus))?;
    push_rule(text, &entry.rule)
}

fn push_entry(text: &mut Text, entry: &Entry<u32>) -> Result<(), AllocError>
    ensures { OnOk result (text.new ≡ text.old ++ text_of (lines.entry_lines entry.now)) }
{
    text.push(b"entry")?;
    push_signed(text, entry)
}

pub(crate) fn push_entries(text: &mut Text, entries: &[Entry<u32>]) -> Result<(), AllocError>
    ensures { OnOk result (text.new ≡ text.old ++ text_of (flat_map lines.entry_lines
        entries.now)) }
{
    for entry in entries {
        push_entry(text, entry)?;
    }
    Ok(())
}

// An entry for a constraint's formula.
fn push_free_entry(text: &mut Text, free: &FreeEntry<u32>) -> Result<(), AllocError>
    ensures { OnOk result (text.new ≡ text.old ++ text_of (lines.free_entry_lines free.now)) }
{
    text.push(b"centry")?;
    push_spaced(text, free.constraint)?;
    push_signed(text, &free.entry)
}

pub(crate) fn push_free_entries(
    text: &mut Text,
    entries: &[FreeEntry<u32>],
) -> Result<(), AllocError>
    ensures { OnOk result (text.new ≡ text.old ++ text_of (flat_map lines.free_entry_lines
        entries.now)) }
{
    for entry in entries {
        push_free_entry(text, entry)?;
    }
    Ok(())
}
