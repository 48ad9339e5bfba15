//! The answer to a block of a proof file.

ghost use Rattle.std.specs.Prelude.{◌≡◌, ◌≤◌, ◌<◌, ◌+◌, ◌^◌, IfErr, IfOk, Some, length};
ghost use Rattle.std.specs.Prelude.{option_copied, option_map};
ghost use Rattle.kripke_model.specs.Faults.{IsFaultless};
ghost use Rattle.kripke_model.specs.WellFormed.{ctl_of};
ghost use Rattle.bit_encode.specs.Code.{state_bits};
ghost use Rattle.proof_form.specs.Meaning.{obligations};
ghost use Rattle.proof_form.specs.Shape.{spec_formula};
ghost use Rattle.proof_lines.specs.LineCounts.{set_line_count};
ghost use Rattle.proof_text.specs.Lines.{block_lines};
ghost use Rattle.proof_text.specs.Meaning.{over_states};
ghost use Rattle.proof_checker.specs.Answers.{IsAnswerTo};
ghost use Rattle.proof_checker.specs.Found.{IsFound};
ghost use Rattle.proof_checker.specs.NoRoom.{IsNoRoom};
ghost use Rattle.proof_checker.specs.Reads.{IsRead};
ghost use Rattle.proof_checker.specs.Ready.{IsKept};

use crate::blocks::{Given, test_nodes};
use crate::kept::KeptSets;
use bdd_nodes::{Held, Steps};
use kripke_model::expressions::Formula;
use kripke_model::models::Ruled;
use proof_form::laws::proofs_law;
use proof_text::file::Block;
use proof_text::laws::{lines_law, nodes_law};
use region_sets::SetRefusal;
use std::alloc::{AllocError, Global};
use std::sync::ledger::Ledger;

/// What is found of a block.
#[derive(Drop)]
pub enum Answer {
    /// Each line shows what it has to.
    Accepted,
    /// The number of the first line that doesn't, counted from 1 in the file.
    Rejected { line: u32 },
    /// The store of diagrams was full.
    NodeLimit { held: Held },
}

/// The formula of the specification, counted from 1, if there is one.
fn formula_of(model: &Ruled, spec: u32) -> Option<&Formula>
    ensures { option_map ctl_of (option_copied result) ≡ spec_formula model.now spec }
{
    let formulas = model.formulas();
    let after = spec as usize;
    if after == 0 {
        return None;
    }
    if after > formulas.len() {
        return None;
    }
    Some(&formulas[after - 1])
}

/// The number in the file of a line that is counted from 0 behind those of the block's nodes.
fn line_of(block: &Block, count: u64) -> u32
    requires { block.now.first + 2 + length block.now.nodes + count < 2 ^ 32 }
    ensures { result ≡ block.now.first + 2 + length block.now.nodes + count }
{
    block.first + 2 + block.nodes.len() as u32 + count as u32
}

/// The first line of the block that fails, counted from 0 behind those of its nodes, if one does.
fn first_bad_of<L: Ledger>(
    alloc: Global,
    model: &Ruled,
    order: &[u32],
    block: &Block,
    formula: &Formula,
    limit: u32,
    kept: &mut KeptSets,
    steps: &mut Steps<L>,
) -> Result<Option<u64>, SetRefusal>
    requires faultless { IsFaultless model.now }
    requires bits { state_bits model.now ≤ 128 }
    requires read { IsRead model.now order.now block.now }
    requires formula { Some (ctl_of formula.now) ≡ spec_formula model.now block.now.spec }
    requires limit { limit < 2 ^ 31 }
    requires kept { IsKept model.now order.now limit kept.old }
    ensures found { IfOk result (IsFound model.now (obligations model.now (ctl_of formula.now)
        (over_states model.now order.now block.now))) }
    ensures kept { IsKept model.now order.now limit kept.new }
    ensures refused { IfErr result
        (IsNoRoom model.now limit (length (block_lines model.now block.now))) }
    ensures counted { steps.old ≤ steps.new }
    ensures local { steps.new ≤ steps.old + set_line_count block.now.proof }
{
    nodes_law(model);
    lines_law(model);
    let given = Given {
        model,
        order,
        formula,
        nodes: &block.nodes,
        proof: &block.proof,
    };
    test_nodes(alloc, &given, limit, kept, steps)
}

/// Tests each line of a block by the formula of its specification.
fn answer_by<L: Ledger>(
    alloc: Global,
    model: &Ruled,
    order: &[u32],
    block: &Block,
    formula: &Formula,
    limit: u32,
    kept: &mut KeptSets,
    steps: &mut Steps<L>,
) -> Result<Answer, AllocError>
    requires faultless { IsFaultless model.now }
    requires bits { state_bits model.now ≤ 128 }
    requires read { IsRead model.now order.now block.now }
    requires formula { Some (ctl_of formula.now) ≡ spec_formula model.now block.now.spec }
    requires limit { limit < 2 ^ 31 }
    requires kept { IsKept model.now order.now limit kept.old }
    ensures kept { IsKept model.now order.now limit kept.new }
    ensures answer { IfOk result (IsAnswerTo model.now order.now block.now limit) }
    ensures counted { steps.old ≤ steps.new }
    ensures local { steps.new ≤ steps.old + set_line_count block.now.proof }
{
    lines_law(model);
    proofs_law(model);
    match first_bad_of(alloc, model, order, block, formula, limit, kept, steps) {
        Ok(None) => Ok(Answer::Accepted),
        Ok(Some(count)) => Ok(Answer::Rejected {
            line: line_of(block, count),
        }),
        Err(SetRefusal::Full { held }) => Ok(Answer::NodeLimit { held }),
        Err(SetRefusal::Memory) => Err(AllocError),
    }
}

/// Tests each line of a block in turn, in a store of at most `limit` nodes (less than 2^31), over
/// what the last test kept of the same model, order and limit. A step is one product with the
/// transition relation.
pub fn check_next<L: Ledger>(
    alloc: Global,
    model: &Ruled,
    order: &[u32],
    block: &Block,
    limit: u32,
    kept: &mut KeptSets,
    steps: &mut Steps<L>,
) -> Result<Answer, AllocError>
    requires faultless { IsFaultless model.now }
    requires bits { state_bits model.now ≤ 128 }
    requires read { IsRead model.now order.now block.now }
    requires limit { limit < 2 ^ 31 }
    requires kept { IsKept model.now order.now limit kept.old }
    ensures kept { IsKept model.now order.now limit kept.new }
    ensures answer { IfOk result (IsAnswerTo model.now order.now block.now limit) }
    ensures counted { steps.old ≤ steps.new }
    ensures local { steps.new ≤ steps.old + set_line_count block.now.proof }
{
    match formula_of(model, block.spec) {
        None => unreachable!(),
        Some(formula) => answer_by(alloc, model, order, block, formula, limit, kept, steps),
    }
}

/// Tests each line of a block in turn, in a store of its own of at most `limit` nodes (less than
/// 2^31). A step is one product with the transition relation.
pub fn check_block<L: Ledger>(
    alloc: Global,
    model: &Ruled,
    order: &[u32],
    block: &Block,
    limit: u32,
    steps: &mut Steps<L>,
) -> Result<Answer, AllocError>
    requires faultless { IsFaultless model.now }
    requires bits { state_bits model.now ≤ 128 }
    requires read { IsRead model.now order.now block.now }
    requires limit { limit < 2 ^ 31 }
    ensures answer { IfOk result (IsAnswerTo model.now order.now block.now limit) }
    ensures counted { steps.old ≤ steps.new }
    ensures local { steps.new ≤ steps.old + set_line_count block.now.proof }
{
    let mut kept = KeptSets::new();
    check_next(alloc, model, order, block, limit, &mut kept, steps)
}
