//! What the checker of proofs answers to the blocks of a file, as an answer.

ghost use Rattle.std.specs.Prelude.{◌<◌, ◌≤◌, IfOk, IsTrue, List, ℕ};
ghost use Rattle.bit_encode.specs.Code.{state_bits};
ghost use Rattle.kripke_model.specs.Faults.{IsFaultless};
ghost use Rattle.proof_text.specs.Spells.{Spells};
ghost use Rattle.bdd_nodes.specs.Steps.{IsBlankOf};

use crate::telling::tell_refusal;
use bdd_nodes::Steps;
use bit_encode::orders::declared_order;
use kripke_model::models::Ruled;
use proof_checker::checking::{Answer, check_block};
use proof_text::file::{Block, ProofFile};
use proof_text::reading::read_file;
use std::alloc::{AllocError, Global};
use std::marker::Brand;
use std::sync::ledger::{Blank, Ledger};
use trans_parts::Parts;

/// The most nodes of a store.
const LIMIT: u32 = 100_000;

/// How many answers are remembered.
const CACHE: u32 = 4_096;

/// Whether the model has a relation, so that its files can be checked.
fn is_checkable<L: Ledger>(alloc: Global, model: &Ruled, blank: Blank) -> Result<bool, AllocError>
    requires blank { IsBlankOf L.name L.parts blank }
    ensures faultless { IfOk result (λ yes. IsTrue yes → IsFaultless model.now) }
    ensures few { IfOk result (λ yes. IsTrue yes → state_bits model.now ≤ 128) }
{
    model.rules_law();
    let order = declared_order(alloc, model.vars().len())?;
    let copy = model.copy(alloc)?;
    let mut steps = Steps::<L>::new(blank);
    let built = Parts::build(alloc, copy, &order, LIMIT, CACHE, &mut steps);
    Ok(built.is_ok())
}

fn tell_answer(block: &Block, found: &Answer, answer: &mut String) -> Result<(), AllocError> {
    let claim = if block.proof.claim { "true" } else { "false" };
    let spec = block.spec;
    write!(answer, "spec {spec} {claim}")?;
    match found {
        Answer::Accepted => answer.push_str(" accepted"),
        Answer::Rejected { line } => write!(answer, " rejected line {line}"),
        Answer::NodeLimit { held: _ } => answer.push_str(" unanswered"),
    }
}

fn tell_blocks<L: Ledger>(
    alloc: Global,
    model: &Ruled,
    file: &ProofFile,
    blank: Blank,
    answer: &mut String,
) -> Result<(), AllocError>
    requires blank { IsBlankOf L.name L.parts blank }
    requires faultless { IsFaultless model.now }
    requires few { state_bits model.now ≤ 128 }
    requires read { (bytes : List ℕ) × Spells model.now file.now bytes }
{
    let mut steps = Steps::<L>::new(blank);
    for (place, block) in file.blocks.iter().enumerate() {
        if place > 0 {
            answer.push_str("; ")?;
        }
        let found = check_block(alloc, model, &file.order, block, LIMIT, &mut steps)?;
        tell_answer(block, &found, answer)?;
    }
    Ok(())
}

fn tell_file(
    alloc: Global,
    model: &Ruled,
    file: &ProofFile,
    answer: &mut String,
) -> Result<(), AllocError>
    requires { (bytes : List ℕ) × Spells model.now file.now bytes }
{
    if file.blocks.is_empty() {
        return answer.push_str("no block");
    }
    if !is_checkable::<Brand>(alloc, model, Blank::new(1))? {
        return answer.push_str("no relation");
    }
    tell_blocks::<Brand>(alloc, model, file, Blank::new(1), answer)
}

/// Adds what the checker answers to each block of a text, or why this is no proof file.
pub fn tell_checked(
    alloc: Global,
    model: &Ruled,
    text: &[u8],
    answer: &mut String,
) -> Result<(), AllocError> {
    match read_file(alloc, model, text) {
        Ok(file) => tell_file(alloc, model, &file, answer),
        Err(refusal) => tell_refusal(refusal, None, answer),
    }
}
