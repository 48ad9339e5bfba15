//! The proof of a specification as an answer, over both kinds of sets.

ghost use Rattle.std.specs.Prelude.{◌≡◌};

use crate::finding::decide;
use crate::telling::{tell_found, tell_tested};
use crate::wrong::Change;
use case_models::formulas::spec_formulas;
use case_models::kinds::{diagrams, trees};
use case_models::reading::{model_of, with_spec};
use case_models::telling::{tell_full, tell_refusal};
use case_text::asking::Answer;
use case_text::fault::Fault;
use kripke_model::models::Ruled;
use region_sets::{SetRefusal, StateSets};
use std::alloc::{AllocError, Global};

/// Adds what is found of the model's one specification over the sets, and of its proof with the change.
fn add_found<S: StateSets>(
    alloc: Global,
    sets: &mut S,
    model: &Ruled,
    change: Change,
    answer: &mut String,
) -> Result<(), SetRefusal>
    requires { model.now ≡ (S.seen sets.old).over }
{
    match spec_formulas(model) {
        [formula] => {
            let found = decide(alloc, sets, model, formula, change)?;
            if change.is_nothing() {
                tell_found(model, &found, answer)?;
            } else {
                tell_tested(&found, answer)?;
            }
        }
        _ => answer.push_str("not one specification")?,
    }
    Ok(())
}

/// What is found over the sets.
fn found_over<S: StateSets>(
    alloc: Global,
    sets: &mut S,
    model: &Ruled,
    change: Change,
) -> Result<String, AllocError>
    requires { model.now ≡ (S.seen sets.old).over }
{
    let mut answer = String::new(alloc);
    match add_found(alloc, sets, model, change, &mut answer) {
        Ok(()) => {}
        Err(SetRefusal::Full { held }) => tell_full(&held, &mut answer)?,
        Err(SetRefusal::Memory) => return Err(AllocError),
    }
    Ok(answer)
}

/// What is found over trees.
fn found_by_trees(alloc: Global, model: &Ruled, change: Change) -> Result<String, AllocError> {
    let mut sets = trees(alloc, model)?;
    found_over(alloc, &mut sets, model, change)
}

/// What is found over diagrams.
fn found_by_diagrams(alloc: Global, model: &Ruled, change: Change) -> Result<String, AllocError> {
    match diagrams(alloc, model) {
        Ok(mut sets) => found_over(alloc, &mut sets, model, change),
        Err(refusal) => {
            let mut answer = String::new(alloc);
            tell_refusal(&refusal, &mut answer)?;
            Ok(answer)
        }
    }
}

/// Adds what is found of the model: once where both kinds of sets agree.
fn answer_model(
    alloc: Global,
    model: &Ruled,
    change: Change,
    answer: &mut String,
) -> Result<(), AllocError> {
    let trees = found_by_trees(alloc, model, change)?;
    let diagrams = found_by_diagrams(alloc, model, change)?;
    if trees == diagrams {
        answer.push_str(trees.as_str())
    } else {
        write!(answer, "trees {trees}, diagrams {diagrams}")
    }
}

/// The change of a question that begins with `wrong `, and the specification behind it.
fn read_question(question: &[u8]) -> Result<(Change, &[u8]), Fault> {
    let Some(rest) = question.strip_prefix(b"wrong ") else {
        return Ok((Change::Nothing, question));
    };
    let rest = str::from_utf8(rest).map_err(|_| Fault::NoText)?;
    let (word, spec) = rest.split_once(": ").ok_or(Fault::Unasked)?;
    let change = Change::of_word(word).ok_or(Fault::Unasked)?;
    Ok((change, spec.as_bytes()))
}

/// Answers whether a specification of a text is true, and whether its proof is one.
pub struct Proofs;

impl Answer for Proofs {
    fn answer(
        &self,
        alloc: Global,
        text: &[u8],
        question: &[u8],
        answer: &mut String,
    ) -> Result<(), Fault> {
        let (change, spec) = read_question(question)?;
        let text = with_spec(alloc, text, spec)?;
        match model_of(alloc, &text) {
            Ok(model) => Ok(answer_model(alloc, &model, change, answer)?),
            Err(refusal) => Ok(write!(answer, "refused, {refusal}")?),
        }
    }
}
