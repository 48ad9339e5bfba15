// From lines to the proof of a formula.

ghost use Rattle.std.specs.Prelude.{◌+◌, ◌≤◌, length};
ghost use Rattle.kripke_model.specs.Signs.{node_count};
ghost use Rattle.kripke_model.specs.WellFormed.{ctl_of};
ghost use Rattle.proof_text.specs.FileParts.{FitsProof};
ghost use Rattle.proof_text.specs.Lines.{proof_lines};
ghost use Rattle.proof_text.specs.SetParts.{Finds};

use crate::free_reading::read_freely;
use crate::main_reading::read_main;
use kripke_model::expressions::Formula;
use kripke_model::models::Ruled;
use proof_form::form::Proof;
use proof_form::preorder::nodes_of;
use single_states::steps::has_leaf_constraints;
use std::alloc::Global;
use text_lines::cursor::Cursor;
use text_lines::faults::Fault;

// The proof of the formula, or that it fails. The sets are the numbers below `most`.
pub(crate) fn read_proof(
    alloc: Global,
    cursor: &mut Cursor<'_>,
    model: &Ruled,
    formula: &Formula,
    claim: bool,
    most: u64,
) -> Result<Proof<u32>, Fault>
    requires room { cursor.old.line + length cursor.old.left ≤ 4294967295 }
    requires few { node_count (ctl_of formula.now) ≤ 4294967295 }
    requires some { 1 ≤ most }
    ensures { Finds (FitsProof model.now (ctl_of formula.now) claim most) (proof_lines model.now)
        cursor.old result cursor.new }
{
    let Ok(nodes) = nodes_of(alloc, formula) else {
        return Err(Fault::Memory);
    };
    if has_leaf_constraints(model) {
        return read_main(alloc, cursor, model, formula, &nodes, claim, most);
    }
    read_freely(alloc, cursor, model, formula, &nodes, claim, most)
}
