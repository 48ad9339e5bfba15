//! What texts and words are read as: the tokens, the program or the place where it is refused, the command.
//!
//! The words of this program are the names of case files; without words the cases are read from the standard input.
#![tactic(auto)]

mod expressions;
mod programs;
mod reading;
mod words;

use crate::expressions::tell_expr;
use crate::programs::tell_program;
use crate::reading::{program_of, tell_tokens};
use crate::words::tell_words;
use case_text::asking::{Answer, Asking};
use case_text::fault::Fault;
use case_text::running::run_cases;
use case_text::telling::Telling;
use smv_parser::{Expr, Module, Program, Section, SectionKind};
use std::alloc::{AllocError, Global};

/// The first word of a question, and what stands behind the space or the line feed after it.
fn word_and_rest(question: &[u8]) -> Option<(&[u8], &[u8])> {
    let mut parts = question.splitn(2, |byte| *byte == b' ' || *byte == b'\n');
    let word = parts.next()?;
    let rest = parts.next().unwrap_or(&[]);
    Some((word, rest))
}

/// How the program of a text is told.
#[derive(Clone, Copy)]
enum Way {
    /// That it was read.
    Read,
    Tree,
    /// The expression of its one specification.
    Expression,
}

/// The expression of the one specification that a program is.
fn only_spec(program: &Program) -> Option<&Expr> {
    let [Module { sections, .. }] = program.modules.as_slice() else {
        return None;
    };
    match sections.as_slice() {
        [
            Section {
                kind: SectionKind::Condition(_, expr),
                ..
            },
        ] => Some(expr),
        _ => None,
    }
}

fn tell_read(program: &Program, way: Way, answer: &mut Telling) {
    match way {
        Way::Read => answer.add("read"),
        Way::Tree => tell_program(program, answer),
        Way::Expression => match only_spec(program) {
            Some(expr) => tell_expr(expr, answer),
            None => answer.fail(Fault::Unasked),
        },
    }
}

/// Adds what is asked of the program of a text, or why it has none.
fn tell_text(alloc: Global, text: &[u8], way: Way, answer: &mut Telling) {
    if let Some(program) = program_of(alloc, text, answer) {
        tell_read(&program, way, answer);
    }
}

/// A text that has the expression as its one specification.
fn with_spec(alloc: Global, expr: &[u8]) -> Result<Vec<u8>, AllocError> {
    let mut whole = b"MODULE m SPEC ".to_vec(alloc)?;
    whole.extend_from_slice(expr)?;
    Ok(whole)
}

/// Adds the tree of an expression, which is read as a specification.
fn tell_expression(alloc: Global, expr: &[u8], answer: &mut Telling) {
    match with_spec(alloc, expr) {
        Ok(text) => tell_text(alloc, &text, Way::Expression, answer),
        Err(error) => answer.fail(Fault::Memory(error)),
    }
}

/// Adds what a text is read as, the way that the word asks for.
fn tell_asked(alloc: Global, word: &[u8], text: &[u8], answer: &mut Telling) {
    match word {
        b"tokens" => tell_tokens(alloc, text, answer),
        b"parse" => tell_text(alloc, text, Way::Read, answer),
        b"tree" => tell_text(alloc, text, Way::Tree, answer),
        b"expression" => tell_expression(alloc, text, answer),
        b"words" => tell_words(alloc, text, answer),
        _ => answer.fail(Fault::Unasked),
    }
}

/// Adds what the text behind the question's first word is read as.
fn tell_question(alloc: Global, model: &[u8], question: &[u8], answer: &mut Telling) {
    match word_and_rest(question) {
        Some((word, text)) if model.is_empty() => tell_asked(alloc, word, text, answer),
        _ => answer.fail(Fault::Unasked),
    }
}

/// Answers what the text behind the question's first word is read as.
struct Texts;

impl Answer for Texts {
    fn answer(
        &self,
        alloc: Global,
        model: &[u8],
        question: &[u8],
        answer: &mut String,
    ) -> Result<(), Fault> {
        let mut told = Telling::new(alloc);
        tell_question(alloc, model, question, &mut told);
        answer.push_str(told.text()?.as_str())?;
        Ok(())
    }
}

fn main(rt: HostRuntime) -> anyhow::Result<()> {
    run_cases(&rt, &Asking { answers: Texts })
}
