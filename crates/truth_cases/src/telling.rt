//! What is found, as an answer.

use crate::verdicts::Found;
use case_models::telling::tell_state;
use kripke_model::models::Ruled;
use std::alloc::AllocError;

/// Adds `true`, or `false` with the least failing initial state.
pub fn tell_found(model: &Ruled, found: &Found, answer: &mut String) -> Result<(), AllocError> {
    match &found.failing {
        None => answer.push_str("true")?,
        Some(state) => {
            answer.push_str("false")?;
            tell_state(model, state, answer)?;
        }
    }
    if !found.parted {
        answer.push_str(", by sets that don't part the states")?;
    }
    if !found.lawful {
        answer.push_str(", by a path that doesn't show it")?;
    }
    Ok(())
}

/// Adds how many layers and constraints there are.
pub fn tell_counts(found: &Found, answer: &mut String) -> Result<(), AllocError> {
    let layers = found.counts.layers;
    let constraints = found.counts.constraints;
    write!(answer, "layers {layers}, constraints {constraints}")
}
