//! What the checker of proofs answers to a file with one block.

ghost use Rattle.std.specs.Prelude.{◌<◌, ◌≤◌, IfOk, IsTrue, List, ℕ};
ghost use Rattle.bit_encode.specs.Code.{state_bits};
ghost use Rattle.kripke_model.specs.Faults.{IsFaultless};
ghost use Rattle.proof_text.specs.Spells.{Spells};
ghost use Rattle.bdd_nodes.specs.Steps.{IsBlankOf};

use crate::times::cpu_nanos;
use bdd_nodes::Steps;
use bit_encode::orders::declared_order;
use kripke_model::models::Ruled;
use proof_checker::checking::{Answer, check_block};
use proof_text::file::ProofFile;
use proof_text::reading::read_file;
use std::alloc::{AllocError, Global};
use std::marker::Brand;
use std::sync::ledger::{Blank, Ledger};
use trans_parts::Parts;

/// The most nodes of a store.
const LIMIT: u32 = 1_000_000;

/// How many answers are remembered.
const CACHE: u32 = 65_536;

/// Whether the model has a relation.
fn has_relation<L: Ledger>(alloc: Global, model: &Ruled, blank: Blank) -> Result<bool, AllocError>
    requires blank { IsBlankOf L.name L.parts blank }
    ensures faultless { IfOk result (λ yes. IsTrue yes → IsFaultless model.now) }
    ensures few { IfOk result (λ yes. IsTrue yes → state_bits model.now ≤ 128) }
{
    model.rules_law();
    let order = declared_order(alloc, model.vars().len())?;
    let copy = model.copy(alloc)?;
    let mut steps = Steps::<L>::new(blank);
    let built = Parts::build(alloc, copy, &order, LIMIT, CACHE, &mut steps);
    Ok(built.is_ok())
}

/// The answer to the file's first block, in a word.
fn first_answer<L: Ledger>(
    alloc: Global,
    model: &Ruled,
    file: &ProofFile,
    blank: Blank,
) -> Result<&'static str, AllocError>
    requires blank { IsBlankOf L.name L.parts blank }
    requires faultless { IsFaultless model.now }
    requires few { state_bits model.now ≤ 128 }
    requires read { (bytes : List ℕ) × Spells model.now file.now bytes }
{
    let mut steps = Steps::<L>::new(blank);
    if file.blocks.is_empty() {
        return Ok("without a block");
    }
    match check_block(
        alloc,
        model,
        &file.order,
        &file.blocks[0],
        LIMIT,
        &mut steps,
    )? {
        Answer::Accepted => Ok("accepted"),
        Answer::Rejected { line: _ } => Ok("rejected"),
        Answer::NodeLimit { held: _ } => Ok("unanswered"),
    }
}

/// The answer to a file, and the time of reading it and testing its block.
pub fn recheck(
    rt: &HostRuntime,
    model: &Ruled,
    text: &[u8],
) -> Result<(&'static str, u128), AllocError> {
    let alloc = rt.alloc();
    if !has_relation::<Brand>(alloc, model, Blank::new(1))? {
        return Ok(("not tested", 0));
    }
    let start = cpu_nanos(rt);
    let Ok(file) = read_file(alloc, model, text) else {
        return Ok(("not read", 0));
    };
    let answer = first_answer::<Brand>(alloc, model, &file, Blank::new(1))?;
    Ok((answer, cpu_nanos(rt).saturating_sub(start)))
}
