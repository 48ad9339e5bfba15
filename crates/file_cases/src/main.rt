//! What reading gives of proof files, and of the same files with changes.
//!
//! The words of this program are the names of case files; without words the cases are read from the
//! standard input.
#![tactic(auto)]

mod changes;
mod checking;
mod each;
mod edits;
mod models;
mod telling;

use crate::checking::tell_checked;
use crate::each::{tell_each_byte, tell_each_line};
use crate::edits::edited;
use crate::models::model_of;
use crate::telling::tell_read;
use case_text::asking::{Answer, Asking};
use case_text::fault::Fault;
use case_text::running::run_cases;
use kripke_model::models::Ruled;
use std::alloc::{AllocError, Global};

/// A model's text, and the proof file behind it.
#[derive(Drop)]
struct Parts {
    model: Vec<u8>,
    file: Vec<u8>,
}

/// The proof file begins at the first line that begins with `smvproof`.
fn parts_of(alloc: Global, text: &[u8]) -> Result<Parts, AllocError> {
    let mut model = Vec::new(alloc);
    let mut file = Vec::new(alloc);
    let mut in_file = false;
    for line in text.split_inclusive(|byte| *byte == b'\n') {
        in_file = in_file || line.starts_with(b"smvproof");
        let part = if in_file { &mut file } else { &mut model };
        part.extend_from_slice(line)?;
    }
    Ok(Parts { model, file })
}

/// Adds what reading gives of the file with the changes that the question names.
fn answer_file(
    alloc: Global,
    model: &Ruled,
    file: &[u8],
    question: &[u8],
    answer: &mut String,
) -> Result<(), Fault> {
    if question == b"whole".as_slice() {
        return Ok(tell_read(alloc, model, file, None, answer)?);
    }
    if question == b"each byte cut".as_slice() {
        return Ok(tell_each_byte(alloc, model, file, answer)?);
    }
    if let Some(words) = question.strip_prefix(b"each line ") {
        return tell_each_line(alloc, model, file, words, answer);
    }
    if question == b"checked".as_slice() {
        return Ok(tell_checked(alloc, model, file, answer)?);
    }
    if let Some(edits) = question.strip_prefix(b"checked: ") {
        return Ok(tell_checked(alloc, model, &edited(alloc, file, edits)?, answer)?);
    }
    let file = edited(alloc, file, question)?;
    Ok(tell_read(alloc, model, &file, None, answer)?)
}

/// Answers what reading gives of a file.
struct Files;

impl Answer for Files {
    fn answer(
        &self,
        alloc: Global,
        text: &[u8],
        question: &[u8],
        answer: &mut String,
    ) -> Result<(), Fault> {
        let parts = parts_of(alloc, text)?;
        match model_of(alloc, &parts.model) {
            Some(model) => answer_file(alloc, &model, &parts.file, question, answer),
            None => Ok(answer.push_str("no model")?),
        }
    }
}

fn main(rt: HostRuntime) -> anyhow::Result<()> {
    run_cases(&rt, &Asking { answers: Files })
}
