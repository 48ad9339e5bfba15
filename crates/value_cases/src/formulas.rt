//! Formulas with parentheses around each operator and its operands, and `_` for each leaf.

use case_text::telling::Telling;
use kripke_model::expressions::{Formula, PathOp};

/// Adds each formula behind a space.
pub fn tell_formulas(formulas: &[Formula], answer: &mut Telling) {
    for formula in formulas {
        answer.add(" ");
        tell_formula(formula, answer);
    }
}

#[cycle(tell)]
fn tell_formula(formula: &Formula, answer: &mut Telling) {
    match formula {
        Formula::Leaf(_) => answer.add("_"),
        Formula::Not(f) => tell_between("(!", f, ")", answer),
        Formula::And(f, g) => {
            tell_between("(", f, "&", answer);
            tell_between("", g, ")", answer);
        }
        Formula::Or(f, g) => {
            tell_between("(", f, "|", answer);
            tell_between("", g, ")", answer);
        }
        Formula::Implies(f, g) => {
            tell_between("(", f, "->", answer);
            tell_between("", g, ")", answer);
        }
        Formula::Iff(f, g) => {
            tell_between("(", f, "<->", answer);
            tell_between("", g, ")", answer);
        }
        Formula::Quant(op, f) => tell_between(path_word(*op), f, ")", answer),
        Formula::Until(all, f, g) => {
            tell_between(until_word(*all), f, " U ", answer);
            tell_between("", g, ")", answer);
        }
    }
}

/// Adds a formula between two texts.
#[cycle(tell)]
fn tell_between(front: &str, formula: &Formula, back: &str, answer: &mut Telling) {
    answer.add(front);
    tell_formula(formula, answer);
    answer.add(back);
}

fn until_word(all: bool) -> &'static str {
    if all { "A(" } else { "E(" }
}

fn path_word(op: PathOp) -> &'static str {
    match op {
        PathOp::EX => "(EX ",
        PathOp::AX => "(AX ",
        PathOp::EF => "(EF ",
        PathOp::AF => "(AF ",
        PathOp::EG => "(EG ",
        PathOp::AG => "(AG ",
    }
}
