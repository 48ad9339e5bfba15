// The report of the answers, line by line.
ghost use Rattle.std.specs.Prelude.{◌≡◌, ◌++◌, map, IfOk, OnOk};
ghost use Rattle.command_replies.specs.Answered.{answer_of};
ghost use Rattle.command_replies.specs.ProofReport as lines;
ghost use Rattle.proof_text.specs.Lines as file_lines;

use crate::answers::{Answer, accepted_count, rejected_count, unanswered_count};
use crate::numbers::push_numbered;
use proof_text::file::Block;
use std::alloc::{AllocError, Global};
use value_texts::text::Text;

/// The report of one answer for each block, in order.
pub(crate) fn report_text(
    alloc: Global,
    blocks: &[Block],
    answers: &[Answer],
) -> Result<Vec<u8>, AllocError>
    ensures { IfOk result (λ text. text.items
        ≡ lines.answers_report blocks.now (map answer_of answers.now)) }
{
    let mut text = Text::new(alloc);
    push_answers(&mut text, blocks, answers)?;
    push_total(&mut text, answers)?;
    Ok(text.into_bytes())
}

fn push_answers(text: &mut Text, blocks: &[Block], answers: &[Answer]) -> Result<(), AllocError>
    ensures { OnOk result (text.new ≡ text.old
        ++ lines.answer_lines blocks.now (map answer_of answers.now)) }
{
    for (block, answer) in blocks.iter().zip(answers) {
        push_answer(text, block, *answer)?;
    }
    Ok(())
}

// The block's specification, what it claims of it, and the answer.
fn push_answer(text: &mut Text, block: &Block, answer: Answer) -> Result<(), AllocError>
    ensures { OnOk result (text.new ≡ text.old ++ lines.answer_line block.now (answer_of answer)) }
{
    text.push(b"spec ")?;
    text.push_number(block.spec)?;
    text.push(b" ")?;
    text.push(claim_word(block.proof.claim))?;
    text.push(b" ")?;
    push_verdict(text, answer)?;
    text.push(b"\n")
}

fn claim_word(claim: bool) -> &'static [u8]
    ensures { result.now ≡ file_lines.claim_word claim }
{
    if claim { b"true" } else { b"false" }
}

fn push_verdict(text: &mut Text, answer: Answer) -> Result<(), AllocError>
    ensures { OnOk result (text.new ≡ text.old ++ lines.answer_text (answer_of answer)) }
{
    match answer {
        Answer::Accepted => text.push(b"accepted"),
        Answer::Rejected(line) => push_numbered(text, b"rejected line ", line),
        Answer::Unanswered(limit) => push_numbered(text, b"unanswered: node limit ", limit),
    }
}

// How many blocks there are, and how many of each answer.
fn push_total(text: &mut Text, answers: &[Answer]) -> Result<(), AllocError>
    ensures { OnOk result (text.new ≡ text.old ++ lines.answer_total (map answer_of answers.now)) }
{
    push_numbered(text, b"total ", answers.len())?;
    push_numbered(text, b" accepted ", accepted_count(answers))?;
    push_numbered(text, b" rejected ", rejected_count(answers))?;
    push_numbered(text, b" unanswered ", unanswered_count(answers))?;
    text.push(b"\n")
}
