//! From a text and a question to the answer.

ghost use Rattle.smv_parser.specs.ProgramView as programs;
ghost use Rattle.smv_instantiate.specs.Parsed.{IsParsed};

use crate::models::push_model;
use crate::paths::push_paths;
use crate::questions::{Asked, PathPart, Question, read_question};
use crate::refusals::push_refusal;
use crate::texts::text_of;
use case_text::asking::Answer;
use case_text::fault::Fault;
use case_text::telling::Telling;
use smv_instantiate::flatten;
use smv_lexer::lex;
use smv_parser::{Program, parse};
use std::alloc::Global;

/// Answers questions on texts, their flat models and their paths.
pub struct FlatAnswers;

/// The text that a question is asked of. A path is its last specification.
fn text_asked(alloc: Global, text: &str, question: &Question<'_>) -> Result<String, Fault> {
    let mut whole = text_of(alloc, text, question.text)?;
    if let Asked::Path(PathPart::Denotes | PathPart::Known) = question.asked {
        whole.push_str(" SPEC ")?;
        whole.push_str(question.subject)?;
    }
    Ok(whole)
}

/// Adds what is found of a program.
fn push_answer(alloc: Global, program: &Program, question: &Question<'_>, answer: &mut Telling)
    requires { IsParsed (programs.program program.now) }
{
    match question.asked {
        Asked::Path(part) => push_paths(alloc, program, part, answer),
        Asked::Model(part) => match flatten(alloc, program) {
            Ok(model) => push_model(alloc, &model, part, question.subject, answer),
            Err(refusal) => push_refusal(answer, refusal),
        },
    }
}

/// Adds what is found of a text, or that it is no program.
fn push_found(alloc: Global, text: &str, question: &Question<'_>, answer: &mut Telling) {
    match lex(alloc, text.as_bytes()) {
        Ok(tokens) => match parse(alloc, &tokens) {
            Ok(program) => push_answer(alloc, &program, question, answer),
            Err(_) => answer.add("no program"),
        },
        Err(_) => answer.add("no tokens"),
    }
}

/// Adds what is found of a question.
fn push_asked(alloc: Global, text: &str, question: &str, answer: &mut Telling) {
    let question = read_question(question);
    match text_asked(alloc, text, &question) {
        Ok(text) => push_found(alloc, text.as_str(), &question, answer),
        Err(fault) => answer.fail(fault),
    }
}

impl Answer for FlatAnswers {
    fn answer(
        &self,
        alloc: Global,
        text: &[u8],
        question: &[u8],
        answer: &mut String,
    ) -> Result<(), Fault> {
        let text = str::from_utf8(text).map_err(|_| Fault::NoText)?;
        let question = str::from_utf8(question).map_err(|_| Fault::NoText)?;
        let mut told = Telling::new(alloc);
        push_asked(alloc, text, question, &mut told);
        answer.push_str(told.text()?.as_str())?;
        Ok(())
    }
}
