// The blocks of a proof file are tested, one after another over one relation.
ghost use Rattle.std.specs.Prelude.{◌≤◌, ◌<◌, ◌++◌, ◌∷◌, [], ◌^◌, ℕ, IfOk, List, OnOk};
ghost use Rattle.bit_encode.specs.Code.{state_bits};
ghost use Rattle.kripke_model.specs.Faults.{IsFaultless};
ghost use Rattle.kripke_model.specs.System.{System};
ghost use Rattle.command_replies.specs.Answered.{AreAnswered};
ghost use Rattle.command_replies.specs.Rechecked.{Rechecked};
ghost use Rattle.proof_checker.specs.Answers.{IsAnswerTo};
ghost use Rattle.proof_checker.specs.Reads.{IsRead};
ghost use Rattle.proof_checker.specs.Ready.{IsKept};
ghost use Rattle.proof_text.specs.File.{Block};
ghost use Rattle.proof_text.specs.Spells.{Spells};
ghost use Rattle.smv_session.specs.Relation.{AreOver};
ghost use Rattle.smv_session.specs.Source.{most_state_bits};
ghost use Rattle.smv_texts.specs.Replies.{IsReply};
ghost use Rattle.bdd_nodes.specs.Steps.{IsBlankOf};

use bdd_nodes::Steps;
use command_replies::{Answers, rechecked, refuse_proofs};
use kripke_model::models::Ruled;
use proof_checker::checking::{Answer, check_next};
use proof_checker::kept::KeptSets;
use proof_text::file::{Block, ProofFile};
use proof_text::reading::read_file;
use smv_texts::Reply;
use std::alloc::{AllocError, Global};
use std::marker::Brand;
use std::sync::ledger::{Blank, Ledger};
use trans_parts::Parts;

/// What is found of a block.
fn test_in_steps<L: Ledger>(
    alloc: Global,
    model: &Ruled,
    limit: u32,
    order: &[u32],
    block: &Block,
    kept: &mut KeptSets,
    blank: Blank,
) -> Result<Answer, AllocError>
    requires blank { IsBlankOf L.name L.parts blank }
    requires limit { limit < 2 ^ 31 }
    requires faultless { IsFaultless model.now }
    requires few { state_bits model.now ≤ most_state_bits }
    requires read { IsRead model.now order.now block.now }
    requires kept { IsKept model.now order.now limit kept.old }
    ensures kept { IsKept model.now order.now limit kept.new }
    ensures answer { IfOk result (IsAnswerTo model.now order.now block.now limit) }
{
    let mut steps = Steps::<L>::new(blank);
    check_next(alloc, model, order, block, limit, kept, &mut steps)
}

/// The same, where the steps are not counted.
fn test(
    alloc: Global,
    model: &Ruled,
    limit: u32,
    order: &[u32],
    block: &Block,
    kept: &mut KeptSets,
) -> Result<Answer, AllocError>
    requires limit { limit < 2 ^ 31 }
    requires faultless { IsFaultless model.now }
    requires few { state_bits model.now ≤ most_state_bits }
    requires read { IsRead model.now order.now block.now }
    requires kept { IsKept model.now order.now limit kept.old }
    ensures kept { IsKept model.now order.now limit kept.new }
    ensures answer { IfOk result (IsAnswerTo model.now order.now block.now limit) }
{
    test_in_steps::<Brand>(alloc, model, limit, order, block, kept, Blank::new(1))
}

/// Adds what is found of one more block.
fn add(answers: &mut Answers, limit: u32, answer: Answer) -> Result<(), AllocError>
    ensures { (m : System) (order : List ℕ) (blocks : List Block) (b : Block)
        → AreAnswered m limit order blocks answers.old → IsAnswerTo m order b limit answer
        → OnOk result (AreAnswered m limit order (blocks ++ b ∷ []) answers.new) }
{
    match answer {
        Answer::Accepted => answers.accept(),
        Answer::Rejected { line } => answers.reject(line),
        Answer::NodeLimit { held } => answers.leave(limit, held),
    }
}

/// Adds what is found of each block of the file.
fn test_each(
    alloc: Global,
    model: &Ruled,
    limit: u32,
    file: &ProofFile,
    kept: &mut KeptSets,
    answers: &mut Answers,
) -> Result<(), AllocError>
    requires limit { limit < 2 ^ 31 }
    requires faultless { IsFaultless model.now }
    requires few { state_bits model.now ≤ most_state_bits }
    requires spelled { (bytes : List ℕ) × Spells model.now file.now bytes }
    requires kept { IsKept model.now file.now.order limit kept.old }
    requires begun { AreAnswered model.now limit file.now.order [] answers.old }
    ensures { OnOk result
        (AreAnswered model.now limit file.now.order file.now.blocks answers.new) }
{
    for block in file.blocks.iter() {
        let answer = test(alloc, model, limit, &file.order, block, kept)?;
        add(answers, limit, answer)?;
    }
    Ok(())
}

/// What is found of each block of the file, over the sets that are kept for it.
fn test_over(
    alloc: Global,
    model: &Ruled,
    limit: u32,
    file: &ProofFile,
    kept: &mut KeptSets,
) -> Result<Answers, AllocError>
    requires limit { limit < 2 ^ 31 }
    requires faultless { IsFaultless model.now }
    requires few { state_bits model.now ≤ most_state_bits }
    requires spelled { (bytes : List ℕ) × Spells model.now file.now bytes }
    requires kept { IsKept model.now file.now.order limit kept.old }
    ensures { IfOk result (AreAnswered model.now limit file.now.order file.now.blocks) }
{
    let mut answers = Answers::new(alloc);
    test_each(alloc, model, limit, file, kept, &mut answers)?;
    Ok(answers)
}

/// What is found of each block of the file.
fn test_all(
    alloc: Global,
    model: &Ruled,
    limit: u32,
    parts: Parts,
    file: &ProofFile,
) -> Result<Answers, AllocError>
    requires limit { limit < 2 ^ 31 }
    requires faultless { IsFaultless model.now }
    requires few { state_bits model.now ≤ most_state_bits }
    requires parts { AreOver model.now limit parts }
    requires spelled { (bytes : List ℕ) × Spells model.now file.now bytes }
    ensures { IfOk result (AreAnswered model.now limit file.now.order file.now.blocks) }
{
    let mut kept = KeptSets::over(alloc, model, parts, &file.order);
    test_over(alloc, model, limit, file, &mut kept)
}

/// The reply to a proof file.
fn recheck_file<'a>(
    alloc: Global,
    model: &Ruled,
    limit: u32,
    parts: Parts,
    file: &ProofFile,
) -> Result<Reply<'a>, AllocError>
    requires limit { limit < 2 ^ 31 }
    requires faultless { IsFaultless model.now }
    requires few { state_bits model.now ≤ most_state_bits }
    requires parts { AreOver model.now limit parts }
    requires spelled { (bytes : List ℕ) × Spells model.now file.now bytes }
    ensures { (bytes : List ℕ) → Spells model.now file.now bytes
        → IfOk result (IsReply (Rechecked model.now limit bytes)) }
{
    let answers = test_all(alloc, model, limit, parts, file)?;
    rechecked(alloc, file, answers)
}

/// The reply to the bytes of a proof file, of a model without faults, whose parts with the variables
/// in declared order serve a file in this order. The blocks are tested in a store of at most
/// `limit` nodes, which is below 2^31.
pub(crate) fn recheck<'a>(
    alloc: Global,
    model: &Ruled,
    limit: u32,
    parts: Parts,
    bytes: &[u8],
) -> Result<Reply<'a>, AllocError>
    requires limit { limit < 2 ^ 31 }
    requires faultless { IsFaultless model.now }
    requires few { state_bits model.now ≤ most_state_bits }
    requires parts { AreOver model.now limit parts }
    ensures { IfOk result (IsReply (Rechecked model.now limit bytes.now)) }
{
    match read_file(alloc, model, bytes) {
        Ok(file) => recheck_file(alloc, model, limit, parts, &file),
        Err(refusal) => refuse_proofs(alloc, refusal),
    }
}
