// From lines to a proof's free part and what stands behind it.

ghost use Rattle.std.specs.Prelude.{◌≡◌, ◌+◌, ◌≤◌, Bool, IfErr, IfOk, length, map};
ghost use Rattle.kripke_model.specs.Ctl.{Ctl, formula_of};
ghost use Rattle.kripke_model.specs.Leaves.{HasLeafConstraints};
ghost use Rattle.kripke_model.specs.Signs.{node_count};
ghost use Rattle.kripke_model.specs.WellFormed.{ctl_of};
ghost use Rattle.proof_form.specs.Preorder.{node_views, nodes_from};
ghost use Rattle.proof_form.specs.ShapeParts.{AreTables};
ghost use Rattle.proof_text.specs.FileParts.{FitsProof};
ghost use Rattle.proof_text.specs.Lines.{proof_lines};
ghost use Rattle.proof_text.specs.ProofParts.{AreAllFreeEntries, FitsBehind, FitsFreeEnding, behind_lines, free_ending_lines, in_free_ending};
ghost use Rattle.proof_text.specs.SetParts.{Finds};

use crate::fair_reading::read_fair;
use crate::fixed_lines::read_fixed;
use crate::free_entry_reading::read_free_entry;
use crate::layer_reading::read_nonfair;
use crate::main_reading::read_main;
use crate::next_lines::begins_with;
use kripke_model::expressions::Formula;
use kripke_model::models::Ruled;
use proof_form::form::{FreeEntry, FreePart, Proof};
use proof_form::free_shapes::tables_of;
use proof_form::preorder::Node;
use std::alloc::Global;
use text_lines::cursor::Cursor;
use text_lines::faults::Fault;

// Entries for constraints, as long as a line begins with the word. The tables are of the
// constraints' formulas.
fn read_entries(
    alloc: Global,
    cursor: &mut Cursor<'_>,
    model: &Ruled,
    formulas: &[Formula],
    tables: &[Vec<Node<'_>>],
    most: u64,
) -> Result<Vec<FreeEntry<u32>>, Fault>
    requires room { cursor.old.line + length cursor.old.left ≤ 4294967295 }
    requires formulas { map ctl_of formulas.now
        ≡ map (λ c. formula_of c.expr) model.now.constraints }
    requires tables { AreTables formulas.now tables.now }
    requires some { 1 ≤ most }
    ensures all { IfOk result (λ es. AreAllFreeEntries model.now most
        cursor.old es.items cursor.new) }
    ensures fault { IfErr result (λ fault. (f : Ctl) → node_count f ≤ 4294967295 → (claim : Bool)
        → Finds (FitsFreeEnding model.now f claim most) (free_ending_lines model.now)
        cursor.old (Err fault) cursor.new) }
{
    model.rules_law();
    let mut entries = Vec::new(alloc);
    while begins_with(cursor, b"centry") {
        let entry = read_free_entry(alloc, cursor, model, formulas, tables, most, &entries)?;
        let Ok(()) = entries.push(entry) else {
            return Err(Fault::Memory);
        };
    }
    Ok(entries)
}

// The same, where the tables are still to be made.
fn read_free_entries(
    alloc: Global,
    cursor: &mut Cursor<'_>,
    model: &Ruled,
    most: u64,
) -> Result<Vec<FreeEntry<u32>>, Fault>
    requires room { cursor.old.line + length cursor.old.left ≤ 4294967295 }
    requires some { 1 ≤ most }
    ensures all { IfOk result (λ es. AreAllFreeEntries model.now most
        cursor.old es.items cursor.new) }
    ensures fault { IfErr result (λ fault. (f : Ctl) → node_count f ≤ 4294967295 → (claim : Bool)
        → Finds (FitsFreeEnding model.now f claim most) (free_ending_lines model.now)
        cursor.old (Err fault) cursor.new) }
{
    let formulas = model.fair();
    let Ok(tables) = tables_of(alloc, formulas) else {
        return Err(Fault::Memory);
    };
    read_entries(alloc, cursor, model, formulas, &tables, most)
}

// These, and the proof's main part.
fn read_free_ending(
    alloc: Global,
    cursor: &mut Cursor<'_>,
    model: &Ruled,
    formula: &Formula,
    nodes: &[Node<'_>],
    claim: bool,
    most: u64,
) -> Result<(Vec<FreeEntry<u32>>, Proof<u32>), Fault>
    requires room { cursor.old.line + length cursor.old.left ≤ 4294967295 }
    requires nodes { node_views nodes.now ≡ nodes_from (ctl_of formula.now) 0 }
    requires few_nodes { node_count (ctl_of formula.now) ≤ 4294967295 }
    requires some { 1 ≤ most }
    ensures { Finds (FitsFreeEnding model.now (ctl_of formula.now) claim most)
        (free_ending_lines model.now) cursor.old (in_free_ending result) cursor.new }
{
    model.rules_law();
    let entries = read_free_entries(alloc, cursor, model, most)?;
    let main = read_main(alloc, cursor, model, formula, nodes, claim, most)?;
    Ok((entries, main))
}

// A proof behind the line that begins its free part.
fn read_behind(
    alloc: Global,
    cursor: &mut Cursor<'_>,
    model: &Ruled,
    formula: &Formula,
    nodes: &[Node<'_>],
    claim: bool,
    most: u64,
) -> Result<Proof<u32>, Fault>
    requires room { cursor.old.line + length cursor.old.left ≤ 4294967295 }
    requires nodes { node_views nodes.now ≡ nodes_from (ctl_of formula.now) 0 }
    requires few_nodes { node_count (ctl_of formula.now) ≤ 4294967295 }
    requires some { 1 ≤ most }
    ensures { Finds (FitsBehind model.now (ctl_of formula.now) claim most) (behind_lines model.now)
        cursor.old result cursor.new }
{
    model.rules_law();
    let nonfair = read_nonfair(alloc, cursor, 1, most)?;
    let fair = read_fair(alloc, cursor, 1, most)?;
    let (entries, mut proof) = read_free_ending(alloc, cursor, model, formula, nodes, claim, most)?;
    proof.free = Some(FreePart {
        nonfair,
        fair,
        entries,
    });
    Ok(proof)
}

// A proof for a model some constraint of which holds a path operator. The nodes are the formula's.
pub(crate) fn read_freely(
    alloc: Global,
    cursor: &mut Cursor<'_>,
    model: &Ruled,
    formula: &Formula,
    nodes: &[Node<'_>],
    claim: bool,
    most: u64,
) -> Result<Proof<u32>, Fault>
    requires room { cursor.old.line + length cursor.old.left ≤ 4294967295 }
    requires nodes { node_views nodes.now ≡ nodes_from (ctl_of formula.now) 0 }
    requires few_nodes { node_count (ctl_of formula.now) ≤ 4294967295 }
    requires some { 1 ≤ most }
    requires free { HasLeafConstraints model.now → ⊥ }
    ensures { Finds (FitsProof model.now (ctl_of formula.now) claim most) (proof_lines model.now)
        cursor.old result cursor.new }
{
    model.rules_law();
    read_fixed(cursor, b"free")?;
    read_behind(alloc, cursor, model, formula, nodes, claim, most)
}
