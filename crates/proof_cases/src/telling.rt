//! What is found, as an answer.

use crate::finding::Found;
use case_models::telling::tell_state;
use kripke_model::models::Ruled;
use std::alloc::AllocError;

/// Adds `true`, or `false` with the least failing initial state.
fn tell_verdict(model: &Ruled, found: &Found, answer: &mut String) -> Result<(), AllocError> {
    match &found.failing {
        None => answer.push_str("true"),
        Some(state) => {
            answer.push_str("false")?;
            tell_state(model, state, answer)
        }
    }
}

/// Adds the verdict, and whether it is proved.
pub fn tell_found(model: &Ruled, found: &Found, answer: &mut String) -> Result<(), AllocError> {
    tell_verdict(model, found, answer)?;
    answer.push_str(match (found.proved, found.bare) {
        (false, _) => ", not proved",
        (true, false) => ", proved by layers",
        (true, true) => ", proved",
    })
}

/// Adds whether the proof is one.
pub fn tell_tested(found: &Found, answer: &mut String) -> Result<(), AllocError> {
    answer.push_str(if found.proved { "proved" } else { "not proved" })
}
