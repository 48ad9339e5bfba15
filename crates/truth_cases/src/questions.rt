//! What a question asks of a specification, and how it is written.
//!
//! | Question | Asks |
//! |---|---|
//! | `FORMULA` | whether it is true |
//! | `layers: FORMULA` | how many layers and constraints stand in its sets |
//! | `path STATES; STATES: FORMULA` | whether a path is fair, and whether it falsifies the formula |

use case_text::fault::Fault;
use kripke_model::expressions::Value;
use kripke_model::states::{Lasso, State};
use std::alloc::Global;

/// What is asked of a specification.
#[derive(Drop)]
pub enum Asked {
    /// Whether it is true.
    Truth,
    /// How many layers and constraints stand in its sets.
    Counts,
    /// Whether the path is fair, and falsifies it.
    Path(Lasso),
}

/// The words before the specification, and the specification. There are none where its truth is asked.
pub fn split_question(question: &[u8]) -> Result<(&str, &[u8]), Fault> {
    if question.strip_prefix(b"layers: ").is_none() && question.strip_prefix(b"path ").is_none() {
        return Ok(("", question));
    }
    let text = str::from_utf8(question).map_err(|_| Fault::NoText)?;
    let (words, spec) = text.split_once(": ").ok_or(Fault::Unasked)?;
    Ok((words, spec.as_bytes()))
}

/// The state with these numbers as its values.
fn state_of(alloc: Global, words: &str) -> Result<State, Fault> {
    let mut state = State::new(alloc);
    for word in words.split(' ') {
        let number = word.parse::<i32>().map_err(|_| Fault::NoNumber)?;
        state.push(Value::Number(number))?;
    }
    Ok(state)
}

/// The states between commas.
fn states_of(alloc: Global, words: &str) -> Result<Vec<State>, Fault> {
    let mut states = Vec::new(alloc);
    if words.is_empty() {
        return Ok(states);
    }
    for part in words.split(", ") {
        states.push(state_of(alloc, part)?)?;
    }
    Ok(states)
}

/// The looping path whose stem stands before the semicolon, and whose cycle behind it.
fn path_of(alloc: Global, words: &str) -> Result<Lasso, Fault> {
    let (stem, cycle) = words.split_once("; ").ok_or(Fault::Unasked)?;
    let stem = states_of(alloc, stem)?;
    let cycle = states_of(alloc, cycle)?;
    Ok(Lasso { stem, cycle })
}

/// What the words before a specification ask.
pub fn asked_by(alloc: Global, words: &str) -> Result<Asked, Fault> {
    match words.strip_prefix("path ") {
        Some(states) => Ok(Asked::Path(path_of(alloc, states)?)),
        None if words.is_empty() => Ok(Asked::Truth),
        None => Ok(Asked::Counts),
    }
}
