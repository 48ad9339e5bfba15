//! Reads the line that names the variables in their order.

ghost use Rattle.std.specs.Prelude.{◌≡◌, ◌+◌, ◌≤◌, ◌∷◌, [], ℕ, List, length, map};
ghost use Rattle.std.specs.Prelude.{IfOk, MatchOption};
ghost use Rattle.proof_text.specs.FileParts.{FitsOrder, order_line};
ghost use Rattle.proof_text.specs.Lines.{line_text};
ghost use Rattle.kripke_model.specs.System.{variable_name};
ghost use Rattle.proof_text.specs.SetParts.{Finds, in_list};

use crate::line_words::takes_word;
use crate::order_marks::{all_set, mark};
use crate::variable_names::VariableNames;
use kripke_model::models::Ruled;
use std::alloc::{AllocError, Global};
use text_lines::cursor::Cursor;
use text_lines::faults::Fault;
use text_lines::words::Words;

/// The variables that the words name, where they name each one once and nothing else.
fn order_named(
    alloc: Global,
    model: &Ruled,
    names: &VariableNames<'_>,
    words: &mut Words<'_>,
) -> Result<Option<Vec<u32>>, AllocError>
    requires { names.now ≡ map (λ v. v.name) model.now.vars }
    ensures { IfOk result (λ found. MatchOption found
        ((order : List ℕ) → FitsOrder model.now order
        → words.old ≡ map (variable_name model.now) order → ⊥)
        (λ order. FitsOrder model.now order.items
        × (words.old ≡ map (variable_name model.now) order.items))) }
{
    model.rules_law();
    let mut marks = vec![in alloc; false; model.vars().len()]?;
    let mut order = Vec::new(alloc);
    while let Some(name) = words.next() {
        let Some(x) = mark(names, &mut marks, name) else {
            return Ok(None);
        };
        order.push(x as u32)?;
    }
    if !all_set(&marks) {
        return Ok(None);
    }
    Ok(Some(order))
}

/// The order that a line writes.
fn order_in(alloc: Global, model: &Ruled, text: &[u8]) -> Result<Option<Vec<u32>>, AllocError>
    ensures { IfOk result (λ found. MatchOption found
        ((order : List ℕ) → FitsOrder model.now order
        → line_text (order_line model.now order) ≡ text.now → ⊥)
        (λ order. FitsOrder model.now order.items
        × (line_text (order_line model.now order.items) ≡ text.now))) }
{
    model.rules_law();
    let mut words = Words::of(text);
    if !takes_word(&mut words, b"order") {
        return Ok(None);
    }
    let names = VariableNames::of(alloc, model.vars())?;
    order_named(alloc, model, &names, &mut words)
}

/// Reads the line that names the order. Its names are looked up in one table, in one pass.
pub(crate) fn read_order(
    alloc: Global,
    cursor: &mut Cursor<'_>,
    model: &Ruled,
) -> Result<Vec<u32>, Fault>
    requires { cursor.old.line + length cursor.old.left ≤ 4294967295 }
    ensures { Finds (FitsOrder model.now) (λ order. order_line model.now order ∷ [])
        cursor.old (in_list result) cursor.new }
{
    let line = cursor.line();
    let Some(text) = cursor.next() else {
        return Err(Fault::End);
    };
    match order_in(alloc, model, text) {
        Ok(order) => order.ok_or(Fault::Stops { line }),
        Err(_) => Err(Fault::Memory),
    }
}
