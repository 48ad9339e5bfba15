//! Finite paths of the latch.

use kripke_model::expressions::Value;
use kripke_model::states::State;
use std::alloc::{AllocError, Global};

/// The state with these values of x and of go.
fn state_of(alloc: Global, x: i32, go: i32) -> Result<State, AllocError> {
    Ok(State {
        values: vec![in alloc; Value::Number(x), Value::Number(go)]?,
    })
}

/// The states with these values of x and of go, one after another.
pub fn states_of(alloc: Global, rows: &[(i32, i32)]) -> Result<Vec<State>, AllocError> {
    let mut states = Vec::new(alloc);
    for (x, go) in rows {
        states.push(state_of(alloc, *x, *go)?)?;
    }
    Ok(states)
}
