//! The questions of a model.
//!
//! | Question | Is answered by |
//! |---|---|
//! | `count` | how many states, initial states and steps there are by the tests of single states, how many states are in the set of the last specification, how many have a step into it, and how many have no other step |
//! | `relation ORDER` | `as defined`, or in how many places the diagrams and the tests of single states differ |
//! | `collection ORDER` | the same after a collection, for sets that were made before it and behind it |
//! | `build ORDER`, `build ORDER within N nodes` | what comes of building the parts |
//! | a text that begins with `MODULE` | whether it has the same initial states and steps |
//!
//! ORDER is `in declared order`, `in reverse order`, or `in the order` with the numbers of variables, from 0.

ghost use Rattle.std.specs.Prelude.{◌<◌, ◌^◌, IfOk};

use crate::builds::tell_build;
use crate::leaves::last_leaf;
use crate::orders::order_of;
use crate::pairs::differences;
use crate::reading::model_of;
use crate::seconds::tell_second;
use crate::seen::{Counts, counts_of, look_at_all};
use case_text::asking::Answer;
use case_text::fault::Fault;
use kripke_model::models::Ruled;
use std::alloc::Global;

/// More triples than any of the models takes.
const ENOUGH: u32 = 1_000_000;

/// The greatest limit of a store.
const MOST: u32 = 0x7fff_ffff;

fn answer_count(alloc: Global, model: &Ruled, answer: &mut String) -> Result<(), Fault> {
    let Some(leaf) = last_leaf(model) else {
        return Err(Fault::Unasked);
    };
    let all = look_at_all(alloc, model, leaf)?;
    let Counts {
        states,
        initial,
        steps,
        inside,
        into,
        always,
    } = counts_of(&all);
    write!(
        answer,
        "{states} states, {initial} initial, {steps} steps; "
    )?;
    write!(
        answer,
        "{inside} in the set, {into} with a step into it, {always} with no other step"
    )?;
    Ok(())
}

fn answer_relation(
    alloc: Global,
    model: &Ruled,
    words: &str,
    collect: bool,
    answer: &mut String,
) -> Result<(), Fault> {
    let order = order_of(alloc, model, words)?;
    match differences(alloc, model, &order, collect)? {
        0 => answer.push_str("as defined")?,
        count => write!(answer, "{count} differences")?,
    }
    Ok(())
}

/// The limit in `N nodes`.
fn limit_of(words: &str) -> Result<u32, Fault>
    ensures { IfOk result (λ n. n < 2 ^ 31) }
{
    let number = words.strip_suffix(" nodes").ok_or(Fault::Unasked)?;
    let limit = number.parse::<u32>().map_err(|_| Fault::NoNumber)?;
    if limit > MOST {
        return Err(Fault::NoNumber);
    }
    Ok(limit)
}

fn answer_build(
    alloc: Global,
    model: &Ruled,
    words: &str,
    answer: &mut String,
) -> Result<(), Fault> {
    match words.split_once(" within ") {
        Some((order, limit)) => {
            let order = order_of(alloc, model, order)?;
            tell_build(alloc, model, &order, limit_of(limit)?, answer)
        }
        None => {
            let order = order_of(alloc, model, words)?;
            tell_build(alloc, model, &order, ENOUGH, answer)
        }
    }
}

/// Answers questions of a model.
pub struct Relations;

impl Answer for Relations {
    fn answer(
        &self,
        alloc: Global,
        text: &[u8],
        question: &[u8],
        answer: &mut String,
    ) -> Result<(), Fault> {
        let model = model_of(alloc, text).ok_or(Fault::Unasked)?;
        let question = str::from_utf8(question).map_err(|_| Fault::NoText)?;
        match question.split_once(' ') {
            Some(("relation", words)) => answer_relation(alloc, &model, words, false, answer),
            Some(("collection", words)) => answer_relation(alloc, &model, words, true, answer),
            Some(("build", words)) => answer_build(alloc, &model, words, answer),
            Some(("MODULE", _)) => tell_second(alloc, &model, question.as_bytes(), answer),
            None if question == "count" => answer_count(alloc, &model, answer),
            _ => Err(Fault::Unasked),
        }
    }
}
