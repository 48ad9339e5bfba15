//! The values of expressions in a model, and which texts keep the static rules.
//!
//! The words of this program are the names of case files; without words the cases are read from the standard input.
#![tactic(auto)]

mod formulas;
mod models;
mod outcomes;

use crate::formulas::tell_formulas;
use crate::models::{model_of, tell_refusal};
use crate::outcomes::tell_value;
use case_text::asking::{Answer, Asking};
use case_text::fault::Fault;
use case_text::running::run_cases;
use case_text::telling::Telling;
use std::alloc::Global;

/// Adds the formulas of a text's specifications, or the static rule that it breaks.
fn tell_rules(alloc: Global, text: &[u8], answer: &mut Telling) {
    match model_of(alloc, text) {
        Some(Ok(model)) => {
            answer.add("accepted");
            tell_formulas(model.formulas(), answer);
        }
        Some(Err(refusal)) => tell_refusal(refusal, answer),
        None => answer.fail(Fault::Unasked),
    }
}

/// Answers what an expression comes to in a model; without a model, whether a text keeps the static rules.
struct Values;

impl Answer for Values {
    fn answer(
        &self,
        alloc: Global,
        model: &[u8],
        question: &[u8],
        answer: &mut String,
    ) -> Result<(), Fault> {
        let mut told = Telling::new(alloc);
        if model.is_empty() {
            tell_rules(alloc, question, &mut told);
        } else {
            tell_value(alloc, model, question, &mut told);
        }
        answer.push_str(told.text()?.as_str())?;
        Ok(())
    }
}

fn main(rt: HostRuntime) -> anyhow::Result<()> {
    run_cases(&rt, &Asking { answers: Values })
}
