// From lines to entries for constraints.

ghost use Rattle.std.specs.Prelude.{◌≡◌, ◌∷◌, ◌≤◌, ◌+◌, [], All, AllPairs, IsTrue, length, map};
ghost use Rattle.kripke_model.specs.Ctl.{formula_of};
ghost use Rattle.kripke_model.specs.WellFormed.{ctl_of};
ghost use Rattle.proof_form.specs.Shape.{HasConstraintRule, StandsBefore};
ghost use Rattle.proof_form.specs.ShapeParts.{AreTables};
ghost use Rattle.proof_text.specs.FreeHeads.{FitsFreeHead, bare_free_entry, free_head_line};
ghost use Rattle.proof_text.specs.Lines as lines;
ghost use Rattle.proof_text.specs.SetParts.{FindsNext, FitsFreeEntry, Judges};
ghost use Rattle.text_lines.specs.WholeLines.{lines_in};

use crate::free_heads::{FreeHead, free_entry_for, free_in, stands_last};
use crate::rule_reading::read_body;
use kripke_model::expressions::Formula;
use kripke_model::models::Ruled;
use proof_form::form::{Entry, FreeEntry};
use proof_form::free_shapes::has_constraint_rule;
use proof_form::preorder::Node;
use std::alloc::Global;
use text_lines::cursor::Cursor;
use text_lines::faults::Fault;

// Whether the head is one of a temporal node of its constraint's formula, and comes behind the
// entries. The tables are of the constraints' formulas.
fn fits_head(
    alloc: Global,
    head: FreeHead,
    model: &Ruled,
    formulas: &[Formula],
    tables: &[Vec<Node<'_>>],
    earlier: &[FreeEntry<u32>],
) -> bool
    requires formulas { map ctl_of formulas.now
        ≡ map (λ c. formula_of c.expr) model.now.constraints }
    requires tables { AreTables formulas.now tables.now }
    requires rising { AllPairs StandsBefore earlier.now }
    ensures rule { IsTrue result → HasConstraintRule model.now (bare_free_entry head) }
    ensures last { IsTrue result → All (λ a. StandsBefore a (bare_free_entry head)) earlier.now }
    ensures fits { HasConstraintRule model.now (bare_free_entry head)
        → All (λ a. StandsBefore a (bare_free_entry head)) earlier.now → IsTrue result }
{
    let entry = free_entry_for(alloc, head);
    has_constraint_rule(model, formulas, tables, &entry) && stands_last(earlier, &entry)
}

// What the line says, where an entry behind these may begin with it.
fn head_in(
    alloc: Global,
    text: &[u8],
    model: &Ruled,
    formulas: &[Formula],
    tables: &[Vec<Node<'_>>],
    earlier: &[FreeEntry<u32>],
) -> Option<FreeHead>
    requires formulas { map ctl_of formulas.now
        ≡ map (λ c. formula_of c.expr) model.now.constraints }
    requires tables { AreTables formulas.now tables.now }
    requires rising { AllPairs StandsBefore earlier.now }
    ensures { Judges (FitsFreeHead model.now earlier.now) free_head_line text.now result }
{
    model.rules_law();
    let head = free_in(text)?;
    if !fits_head(alloc, head, model, formulas, tables, earlier) {
        return None;
    }
    Some(head)
}

fn read_head(
    alloc: Global,
    cursor: &mut Cursor<'_>,
    model: &Ruled,
    formulas: &[Formula],
    tables: &[Vec<Node<'_>>],
    earlier: &[FreeEntry<u32>],
) -> Result<FreeHead, Fault>
    requires room { cursor.old.line + length cursor.old.left ≤ 4294967295 }
    requires line { lines_in cursor.old.left ≡ [] → ⊥ }
    requires formulas { map ctl_of formulas.now
        ≡ map (λ c. formula_of c.expr) model.now.constraints }
    requires tables { AreTables formulas.now tables.now }
    requires rising { AllPairs StandsBefore earlier.now }
    ensures { FindsNext (FitsFreeHead model.now earlier.now) (λ h. free_head_line h ∷ [])
        cursor.old result cursor.new }
{
    let line = cursor.line();
    let Some(text) = cursor.next() else {
        return Err(Fault::End);
    };
    head_in(alloc, text, model, formulas, tables, earlier).ok_or(Fault::Stops { line })
}

// An entry for a constraint behind the earlier ones, which rise. The tables are of the constraints'
// formulas. A line is there.
pub(crate) fn read_free_entry(
    alloc: Global,
    cursor: &mut Cursor<'_>,
    model: &Ruled,
    formulas: &[Formula],
    tables: &[Vec<Node<'_>>],
    most: u64,
    earlier: &[FreeEntry<u32>],
) -> Result<FreeEntry<u32>, Fault>
    requires room { cursor.old.line + length cursor.old.left ≤ 4294967295 }
    requires line { lines_in cursor.old.left ≡ [] → ⊥ }
    requires formulas { map ctl_of formulas.now
        ≡ map (λ c. formula_of c.expr) model.now.constraints }
    requires tables { AreTables formulas.now tables.now }
    requires rising { AllPairs StandsBefore earlier.now }
    requires some { 1 ≤ most }
    ensures { FindsNext (FitsFreeEntry model.now most earlier.now) lines.free_entry_lines
        cursor.old result cursor.new }
{
    model.rules_law();
    let head = read_head(alloc, cursor, model, formulas, tables, earlier)?;
    let rule = read_body(alloc, cursor, head.entry.rule, 1, most)?;
    Ok(FreeEntry {
        constraint: head.constraint,
        entry: Entry {
            node: head.entry.node,
            plus: head.entry.plus,
            rule,
        },
    })
}
