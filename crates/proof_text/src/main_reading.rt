// From lines to what a proof has behind its free part.

ghost use Rattle.std.specs.Prelude.{◌≡◌, ◌+◌, ◌≤◌, Bool, IfErr, IfOk, length};
ghost use Rattle.kripke_model.specs.Signs.{node_count};
ghost use Rattle.kripke_model.specs.System.{constraint_count};
ghost use Rattle.kripke_model.specs.WellFormed.{ctl_of};
ghost use Rattle.proof_form.specs.Preorder.{node_views, nodes_from};
ghost use Rattle.proof_text.specs.ProofParts.{AreAllEntries, FitsEnding, FitsMain, ending_lines, in_ending, main_lines};
ghost use Rattle.proof_text.specs.SetParts.{Finds};

use crate::entry_reading::read_entry;
use crate::fair_reading::read_fair;
use crate::layer_reading::read_nonfair;
use crate::next_lines::begins_with;
use crate::state_reading::read_end;
use kripke_model::expressions::Formula;
use kripke_model::models::Ruled;
use kripke_model::states::State;
use proof_form::form::{Entry, Proof};
use proof_form::preorder::Node;
use std::alloc::Global;
use text_lines::cursor::Cursor;
use text_lines::faults::Fault;

// The number of constraints. Where none is declared there is one that each state meets.
fn constraint_count(model: &Ruled) -> usize
    ensures is { result ≡ constraint_count model.now }
    ensures one { 1 ≤ result }
    ensures few { result ≤ 4294967295 }
{
    model.rules_law();
    model.constraints().len().max(1)
}

// Entries of the formula, whose nodes these are, as long as a line begins with the word.
fn read_entries(
    alloc: Global,
    cursor: &mut Cursor<'_>,
    model: &Ruled,
    formula: &Formula,
    nodes: &[Node<'_>],
    most: u64,
) -> Result<Vec<Entry<u32>>, Fault>
    requires room { cursor.old.line + length cursor.old.left ≤ 4294967295 }
    requires nodes { node_views nodes.now ≡ nodes_from (ctl_of formula.now) 0 }
    requires few_nodes { node_count (ctl_of formula.now) ≤ 4294967295 }
    requires some { 1 ≤ most }
    ensures all { IfOk result (λ es. AreAllEntries model.now (ctl_of formula.now) most
        cursor.old es.items cursor.new) }
    ensures fault { IfErr result (λ fault. (claim : Bool)
        → Finds (FitsEnding model.now (ctl_of formula.now) claim most) (ending_lines model.now)
        cursor.old (Err fault) cursor.new) }
{
    model.rules_law();
    let count = constraint_count(model);
    let mut entries = Vec::new(alloc);
    while begins_with(cursor, b"entry") {
        let entry = read_entry(alloc, cursor, formula, nodes, count, most, &entries)?;
        let Ok(()) = entries.push(entry) else {
            return Err(Fault::Memory);
        };
    }
    Ok(entries)
}

// These, and the end of the block.
fn read_ending(
    alloc: Global,
    cursor: &mut Cursor<'_>,
    model: &Ruled,
    formula: &Formula,
    nodes: &[Node<'_>],
    claim: bool,
    most: u64,
) -> Result<(Vec<Entry<u32>>, Option<State>), Fault>
    requires room { cursor.old.line + length cursor.old.left ≤ 4294967295 }
    requires nodes { node_views nodes.now ≡ nodes_from (ctl_of formula.now) 0 }
    requires few_nodes { node_count (ctl_of formula.now) ≤ 4294967295 }
    requires some { 1 ≤ most }
    ensures { Finds (FitsEnding model.now (ctl_of formula.now) claim most) (ending_lines model.now)
        cursor.old (in_ending result) cursor.new }
{
    model.rules_law();
    let entries = read_entries(alloc, cursor, model, formula, nodes, most)?;
    let at = read_end(alloc, cursor, model, claim)?;
    Ok((entries, at))
}

// Layers, a fair part, entries of the formula, whose nodes these are, and the end of the block.
pub(crate) fn read_main(
    alloc: Global,
    cursor: &mut Cursor<'_>,
    model: &Ruled,
    formula: &Formula,
    nodes: &[Node<'_>],
    claim: bool,
    most: u64,
) -> Result<Proof<u32>, Fault>
    requires room { cursor.old.line + length cursor.old.left ≤ 4294967295 }
    requires nodes { node_views nodes.now ≡ nodes_from (ctl_of formula.now) 0 }
    requires few_nodes { node_count (ctl_of formula.now) ≤ 4294967295 }
    requires some { 1 ≤ most }
    ensures { Finds (FitsMain model.now (ctl_of formula.now) claim most) (main_lines model.now)
        cursor.old result cursor.new }
{
    model.rules_law();
    let count = constraint_count(model);
    let nonfair = read_nonfair(alloc, cursor, count, most)?;
    let fair = read_fair(alloc, cursor, count, most)?;
    let (entries, at) = read_ending(alloc, cursor, model, formula, nodes, claim, most)?;
    Ok(Proof {
        claim,
        free: None,
        nonfair,
        fair,
        entries,
        at,
    })
}
