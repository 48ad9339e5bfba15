//! Why a text has no flat model, in the words of the program's reports.

use case_text::fault::Fault;
use case_text::telling::Telling;
use kripke_model::refusals::{FlatRefusal, Which};
use std::alloc::AllocError;

/// The word of a limit.
fn limit_word(which: Which) -> &'static str {
    match which {
        Which::Variables => "variables",
        Which::Values => "values",
        Which::Instances => "instances",
        Which::Depth => "depth",
        Which::Specifications => "specifications",
        Which::Constraints => "constraints",
        Which::Nodes => "nodes",
        Which::Nesting => "nesting",
    }
}

/// The number and the line of a refusal that has no more than these.
fn number_and_line(refusal: FlatRefusal) -> Option<(u32, u32)> {
    match refusal {
        FlatRefusal::DuplicateName { line } => Some((7, line)),
        FlatRefusal::UnknownName { line } => Some((8, line)),
        FlatRefusal::RecursiveModule { line } => Some((9, line)),
        FlatRefusal::ArgumentCount { line } => Some((10, line)),
        FlatRefusal::CircularDefine { line } => Some((11, line)),
        FlatRefusal::NameIsConstant { line } => Some((12, line)),
        FlatRefusal::BadIndex { line } => Some((13, line)),
        FlatRefusal::BadType { line } => Some((14, line)),
        FlatRefusal::NotAssignable { line } => Some((15, line)),
        _ => None,
    }
}

/// Adds a refusal that has more than a line, or less.
fn push_other(answer: &mut Telling, refusal: FlatRefusal) {
    match refusal {
        FlatRefusal::Limit {
            line,
            which,
            counted,
        } => write!(answer, "E16 line {line} {} {counted}", limit_word(which)),
        FlatRefusal::Memory => answer.fail(Fault::Memory(AllocError)),
        _ => answer.add("E6"),
    }
}

/// Adds a refusal: its number, its line, and of a limit the word and what was counted.
pub fn push_refusal(answer: &mut Telling, refusal: FlatRefusal) {
    match number_and_line(refusal) {
        Some((number, line)) => write!(answer, "E{number} line {line}"),
        None => push_other(answer, refusal),
    }
}
