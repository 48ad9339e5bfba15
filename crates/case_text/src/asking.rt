//! Cases that ask questions of a text.
//!
//! | Line | Says |
//! |---|---|
//! | `model` | that the text below it is the text of the questions that follow, up to the next such line |
//! | `ANSWER \| QUESTION` | a question, and what must be found |
//! | `ANSWER` | the same; the question is the text below the line |

use crate::expected::add_line;
use crate::fault::{Blame, Fault};
use crate::notation::read_text;
use crate::running::Judge;
use crate::section::{Kind, Line, Section};
use std::alloc::Global;

/// Who answers questions.
pub trait Answer {
    /// Adds what is found of the question over the text. `Unasked` where it can't be asked.
    fn answer(
        &self,
        alloc: Global,
        text: &[u8],
        question: &[u8],
        answer: &mut String,
    ) -> Result<(), Fault>;
}

/// A question: its line, its text, and the answer that must be found.
#[derive(Drop)]
struct Question {
    line: usize,
    model: Vec<u8>,
    question: Vec<u8>,
    answer: String,
}

/// Where a line of a text belongs.
#[derive(Clone, Copy)]
enum Place {
    Nowhere,
    Model,
    Question,
}

/// The questions of a case while they are read.
#[derive(Drop)]
struct Reader {
    alloc: Global,
    model: Vec<u8>,
    questions: Vec<Question>,
    place: Place,
}

impl Reader {
    fn new(alloc: Global) -> Reader {
        Reader {
            alloc,
            model: Vec::new(alloc),
            questions: Vec::new(alloc),
            place: Place::Nowhere,
        }
    }

    fn read(&mut self, line: &Line) -> Result<(), Fault> {
        match line.kind()? {
            Kind::Text(text) => self.read_text(line.blank, text),
            Kind::Words("model") => {
                self.model.clear();
                self.place = Place::Model;
                Ok(())
            }
            Kind::Words(words) => self.read_question(line.number, words),
        }
    }

    fn read_text(&mut self, blank: usize, line: &str) -> Result<(), Fault> {
        match self.place {
            Place::Nowhere => Err(Fault::LooseText),
            Place::Model => add_line(self.alloc, blank, line, &mut self.model),
            Place::Question => {
                let asked = self.questions.last_mut().ok_or(Fault::LooseText)?;
                add_line(self.alloc, blank, line, &mut asked.question)
            }
        }
    }

    fn read_question(&mut self, number: usize, words: &str) -> Result<(), Fault> {
        let (answer, question) = match words.split_once(" | ") {
            Some((answer, question)) => {
                self.place = Place::Nowhere;
                (answer, read_text(self.alloc, question)?)
            }
            None => {
                self.place = Place::Question;
                (words, Vec::new(self.alloc))
            }
        };
        self.questions.push(Question {
            line: number,
            model: self.model.clone()?,
            question,
            answer: String::from_str(self.alloc, answer)?,
        })?;
        Ok(())
    }
}

/// The questions of a case.
fn questions_of(alloc: Global, case: &Section) -> Result<Vec<Question>, Blame> {
    let mut reader = Reader::new(alloc);
    for line in case.lines.iter() {
        if let Err(fault) = reader.read(line) {
            return Err(Blame {
                line: line.number,
                fault,
            });
        }
    }
    if reader.questions.is_empty() {
        return Err(Blame {
            line: case.number,
            fault: Fault::NothingAsked,
        });
    }
    Ok(reader.questions)
}

/// Asks a question, and adds what differs.
fn ask<A: Answer>(
    alloc: Global,
    answers: &A,
    asked: &Question,
    report: &mut String,
) -> Result<(), Fault> {
    let mut found = String::new(alloc);
    answers.answer(alloc, &asked.model, &asked.question, &mut found)?;
    if found != asked.answer {
        let Question { line, answer, .. } = asked;
        write!(report, "  line {line}: {found}\n  and not: {answer}\n")?;
    }
    Ok(())
}

/// Judges cases by their questions.
pub struct Asking<A> {
    pub answers: A,
}

impl<A: Answer> Judge for Asking<A> {
    fn differences(&self, alloc: Global, case: &Section) -> Result<String, Blame> {
        let mut report = String::new(alloc);
        for asked in questions_of(alloc, case)?.iter() {
            if let Err(fault) = ask(alloc, &self.answers, asked, &mut report) {
                return Err(Blame {
                    line: asked.line,
                    fault,
                });
            }
        }
        Ok(report)
    }
}
