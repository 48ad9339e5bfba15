//! What reading gives, as an answer.

use kripke_model::models::Ruled;
use proof_text::file::{Block, ProofFile};
use proof_text::reading::read_file;
use proof_text::refusals::TextRefusal;
use proof_text::writing::{write_block, write_header};
use std::alloc::{AllocError, Global};

/// Adds the number of a line, or where it stands beside the changed one.
fn tell_line(line: u32, changed: Option<usize>, answer: &mut String) -> Result<(), AllocError> {
    match changed {
        Some(number) if line as usize == number => answer.push_str(" there"),
        Some(number) if line as usize == number.saturating_add(1) => answer.push_str(" behind"),
        _ => write!(answer, " line {line}"),
    }
}

/// Adds a refusal by its number, with its line.
pub fn tell_refusal(
    refusal: TextRefusal,
    changed: Option<usize>,
    answer: &mut String,
) -> Result<(), AllocError> {
    let (number, line) = match refusal {
        TextRefusal::BadLine { line } => ("P1", line),
        TextRefusal::Truncated { line } => ("P2", line),
        TextRefusal::BadOrder => return answer.push_str("P3"),
        TextRefusal::BadNode { line } => ("P4", line),
        TextRefusal::TooLong => return answer.push_str("P5"),
        TextRefusal::Memory => return Err(AllocError),
    };
    answer.push_str(number)?;
    tell_line(line, changed, answer)
}

fn is_declared(order: &[u32]) -> bool {
    for (place, x) in order.iter().enumerate() {
        if *x as usize != place {
            return false;
        }
    }
    true
}

/// Adds the order of the variables, where it isn't the declared one.
fn tell_order(model: &Ruled, order: &[u32], answer: &mut String) -> Result<(), AllocError> {
    if is_declared(order) {
        return Ok(());
    }
    answer.push_str(", order")?;
    for x in order {
        let name = match model.vars().get(*x as usize) {
            Some(var) => var.name.as_str(),
            None => "?",
        };
        write!(answer, " {name}")?;
    }
    Ok(())
}

fn tell_block(block: &Block, answer: &mut String) -> Result<(), AllocError> {
    let claim = if block.proof.claim { "true" } else { "false" };
    let Block { spec, first, .. } = block;
    write!(answer, ", spec {spec} {claim} from line {first}")
}

/// The text of the file, with the variables in declared order.
fn written(alloc: Global, model: &Ruled, file: &ProofFile) -> Result<Vec<u8>, AllocError> {
    let mut text = write_header(alloc, model)?;
    for block in file.blocks.iter() {
        let lines = write_block(alloc, model, block.spec, &block.proof, &block.nodes)?;
        text.extend_from_slice(&lines)?;
    }
    Ok(text)
}

/// What stands behind the first two lines.
fn blocks_of(text: &[u8]) -> Option<&[u8]> {
    let mut parts = text.splitn(3, |byte| *byte == b'\n');
    let _version = parts.next()?;
    let _order = parts.next()?;
    parts.next()
}

/// Adds whether the file is written as it was read.
fn tell_written(text: &[u8], written: &[u8], answer: &mut String) -> Result<(), AllocError> {
    if text == written {
        return answer.push_str(", written so");
    }
    if blocks_of(text) == blocks_of(written) {
        return answer.push_str(", written so but for the order");
    }
    answer.push_str(", written otherwise")
}

/// Adds the parts of a file, and whether it is written as it was read.
fn tell_file(
    alloc: Global,
    model: &Ruled,
    text: &[u8],
    file: &ProofFile,
    answer: &mut String,
) -> Result<(), AllocError> {
    answer.push_str("read")?;
    tell_order(model, &file.order, answer)?;
    for block in file.blocks.iter() {
        tell_block(block, answer)?;
    }
    let written = written(alloc, model, file)?;
    tell_written(text, &written, answer)
}

/// Adds what reading gives of a text, which was changed at a line.
pub fn tell_read(
    alloc: Global,
    model: &Ruled,
    text: &[u8],
    changed: Option<usize>,
    answer: &mut String,
) -> Result<(), AllocError> {
    match read_file(alloc, model, text) {
        Ok(file) => tell_file(alloc, model, text, &file, answer),
        Err(refusal) => tell_refusal(refusal, changed, answer),
    }
}
