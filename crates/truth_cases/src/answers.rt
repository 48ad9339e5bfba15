//! The truth of a specification as an answer, over both kinds of sets.

ghost use Rattle.std.specs.Prelude.{◌≡◌, Contains, map};
ghost use Rattle.kripke_model.specs.Ctl.{formula_of};
ghost use Rattle.kripke_model.specs.WellFormed.{ctl_of};
ghost use Rattle.kripke_model.specs.Leaves.{HasModelLeaves};

use crate::given::tell_path;
use crate::paths::is_fair_by_sets;
use crate::questions::{Asked, asked_by, split_question};
use crate::telling::{tell_counts, tell_found};
use crate::verdicts::judged_failing;
use case_models::formulas::spec_formulas;
use case_models::kinds::{diagrams, trees};
use case_models::reading::{model_of, with_spec};
use case_models::telling::{tell_full, tell_refusal};
use case_text::asking::Answer;
use case_text::fault::Fault;
use kripke_model::expressions::Formula;
use kripke_model::models::Ruled;
use kripke_model::states::Lasso;
use region_sets::{SetRefusal, StateSets};
use std::alloc::{AllocError, Global};

/// Adds what is found of the formula by its sets.
fn add_verdict<S: StateSets>(
    alloc: Global,
    sets: &mut S,
    model: &Ruled,
    formula: &Formula,
    asked: &Asked,
    answer: &mut String,
) -> Result<(), SetRefusal>
    requires model { model.now ≡ (S.seen sets.old).over }
    requires leaves { HasModelLeaves model.now (ctl_of formula.now) }
    requires formula { Contains (map (λ c. formula_of c.expr) model.now.specs)
        (ctl_of formula.now) }
{
    let found = judged_failing(alloc, sets, model, formula)?;
    match asked {
        Asked::Counts => tell_counts(&found, answer)?,
        _ => tell_found(model, &found, answer)?,
    }
    Ok(())
}

/// Adds what is found of the path.
fn add_path<S: StateSets>(
    alloc: Global,
    sets: &mut S,
    model: &Ruled,
    formula: &Formula,
    path: &Lasso,
    answer: &mut String,
) -> Result<(), SetRefusal>
    requires model { model.now ≡ (S.seen sets.old).over }
    requires formula { Contains (map (λ c. formula_of c.expr) model.now.specs)
        (ctl_of formula.now) }
{
    let fair = is_fair_by_sets(alloc, sets, model, path)?;
    tell_path(model, formula, path, fair, answer)?;
    Ok(())
}

/// Adds what is found of the formula, or of the path.
fn add_found<S: StateSets>(
    alloc: Global,
    sets: &mut S,
    model: &Ruled,
    formula: &Formula,
    asked: &Asked,
    answer: &mut String,
) -> Result<(), SetRefusal>
    requires model { model.now ≡ (S.seen sets.old).over }
    requires leaves { HasModelLeaves model.now (ctl_of formula.now) }
    requires formula { Contains (map (λ c. formula_of c.expr) model.now.specs)
        (ctl_of formula.now) }
{
    match asked {
        Asked::Path(path) => add_path(alloc, sets, model, formula, path, answer),
        _ => add_verdict(alloc, sets, model, formula, asked, answer),
    }
}

/// What is found over the sets.
fn found_over<S: StateSets>(
    alloc: Global,
    sets: &mut S,
    model: &Ruled,
    formula: &Formula,
    asked: &Asked,
) -> Result<String, AllocError>
    requires model { model.now ≡ (S.seen sets.old).over }
    requires leaves { HasModelLeaves model.now (ctl_of formula.now) }
    requires formula { Contains (map (λ c. formula_of c.expr) model.now.specs)
        (ctl_of formula.now) }
{
    let mut answer = String::new(alloc);
    match add_found(alloc, sets, model, formula, asked, &mut answer) {
        Ok(()) => {}
        Err(SetRefusal::Full { held }) => tell_full(&held, &mut answer)?,
        Err(SetRefusal::Memory) => return Err(AllocError),
    }
    Ok(answer)
}

/// What is found of the formula over trees.
fn found_by_trees(
    alloc: Global,
    model: &Ruled,
    formula: &Formula,
    asked: &Asked,
) -> Result<String, AllocError>
    requires leaves { HasModelLeaves model.now (ctl_of formula.now) }
    requires formula { Contains (map (λ c. formula_of c.expr) model.now.specs)
        (ctl_of formula.now) }
{
    let mut sets = trees(alloc, model)?;
    found_over(alloc, &mut sets, model, formula, asked)
}

/// What is found of the formula over diagrams.
fn found_by_diagrams(
    alloc: Global,
    model: &Ruled,
    formula: &Formula,
    asked: &Asked,
) -> Result<String, AllocError>
    requires leaves { HasModelLeaves model.now (ctl_of formula.now) }
    requires formula { Contains (map (λ c. formula_of c.expr) model.now.specs)
        (ctl_of formula.now) }
{
    match diagrams(alloc, model) {
        Ok(mut sets) => found_over(alloc, &mut sets, model, formula, asked),
        Err(refusal) => {
            let mut answer = String::new(alloc);
            tell_refusal(&refusal, &mut answer)?;
            Ok(answer)
        }
    }
}

/// Adds what is found of the formula: once where both kinds of sets agree.
fn answer_formula(
    alloc: Global,
    model: &Ruled,
    formula: &Formula,
    asked: &Asked,
    answer: &mut String,
) -> Result<(), AllocError>
    requires leaves { HasModelLeaves model.now (ctl_of formula.now) }
    requires formula { Contains (map (λ c. formula_of c.expr) model.now.specs)
        (ctl_of formula.now) }
{
    let trees = found_by_trees(alloc, model, formula, asked)?;
    let diagrams = found_by_diagrams(alloc, model, formula, asked)?;
    if trees == diagrams {
        answer.push_str(trees.as_str())
    } else {
        write!(answer, "trees {trees}, diagrams {diagrams}")
    }
}

/// Adds what is found of the model's one specification.
fn answer_model(
    alloc: Global,
    model: &Ruled,
    asked: &Asked,
    answer: &mut String,
) -> Result<(), Fault> {
    match spec_formulas(model) {
        [formula] => Ok(answer_formula(alloc, model, formula, asked, answer)?),
        _ => Err(Fault::Unasked),
    }
}

/// Answers whether a specification of a text is true, and what else is asked of it.
pub struct Truth;

impl Answer for Truth {
    fn answer(
        &self,
        alloc: Global,
        text: &[u8],
        question: &[u8],
        answer: &mut String,
    ) -> Result<(), Fault> {
        let (words, spec) = split_question(question)?;
        let asked = asked_by(alloc, words)?;
        let text = with_spec(alloc, text, spec)?;
        match model_of(alloc, &text) {
            Ok(model) => answer_model(alloc, &model, &asked, answer),
            Err(refusal) => Ok(write!(answer, "refused, {refusal}")?),
        }
    }
}
