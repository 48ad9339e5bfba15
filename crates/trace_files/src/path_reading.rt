// Reads the states of a path, and the line that closes it.

ghost use Rattle.std.specs.Prelude.{◌≡◌, ◌+◌, ◌≤◌, ◌∷◌, IfErr, IfOk, IsTrue, length, Err};
ghost use Rattle.trace_files.specs.Parts.{AreAllLater, Finds, FitsEnding, ending_lines, in_ending};
ghost use Rattle.text_lines.specs.Cursor.{BeginsWith};
ghost use Rattle.trace_files.specs.Small.{HasSmallValues};
ghost use Rattle.trace_files.specs.Spells.{IsLasso};
ghost use Rattle.trace_files.specs.Trace.{lasso_lines, members};

use crate::heads::read_loop;
use crate::state_reading::read_state;
use kripke_model::models::Ruled;
use kripke_model::states::{Lasso, State};
use std::alloc::{AllocError, Global};
use text_lines::cursor::Cursor;
use text_lines::faults::Fault;

/// Whether the next line begins with these bytes.
fn begins_with(cursor: &Cursor<'_>, front: &[u8]) -> bool
    ensures yes { IsTrue result → BeginsWith front.now cursor.now }
    ensures no { BeginsWith front.now cursor.now → IsTrue result }
{
    match cursor.peek() {
        Some(text) => text.starts_with(front),
        None => false,
    }
}

/// Reads the states behind the first one, as long as a line begins with the word.
fn read_later(alloc: Global, cursor: &mut Cursor<'_>, model: &Ruled) -> Result<Vec<State>, Fault>
    requires room { cursor.old.line + length cursor.old.left ≤ 4294967295 }
    requires small { HasSmallValues model.now }
    ensures all { IfOk result (λ states. AreAllLater model.now cursor.old states.items
        cursor.new) }
    ensures fault { IfErr result (λ fault. Finds (FitsEnding model.now) (ending_lines model.now)
        cursor.old (Err fault) cursor.new) }
{
    model.rules_law();
    let mut states = Vec::new(alloc);
    while begins_with(cursor, b"state ") {
        let state = read_state(alloc, cursor, model, states.len() + 1)?;
        let Ok(()) = states.push(state) else {
            return Err(Fault::Memory);
        };
    }
    Ok(states)
}

/// Reads them, and the state at which the path goes on.
fn read_ending(
    alloc: Global,
    cursor: &mut Cursor<'_>,
    model: &Ruled,
) -> Result<(Vec<State>, u32), Fault>
    requires room { cursor.old.line + length cursor.old.left ≤ 4294967295 }
    requires small { HasSmallValues model.now }
    ensures { Finds (FitsEnding model.now) (ending_lines model.now) cursor.old (in_ending result)
        cursor.new }
{
    model.rules_law();
    let states = read_later(alloc, cursor, model)?;
    let place = read_loop(cursor, &states)?;
    Ok((states, place))
}

/// The path of these states that goes on at the state of this place.
fn lasso_of(first: State, others: Vec<State>, place: u32) -> Result<Lasso, AllocError>
    requires { place ≤ length others.items }
    ensures members { IfOk result (λ p. members p ≡ first ∷ others.items) }
    ensures place { IfOk result (λ p. length p.stem ≡ place) }
{
    let mut stem = others;
    let Ok(()) = stem.insert(0, first) else {
        return Err(AllocError);
    };
    let cycle = stem.split_off(place as usize)?;
    Ok(Lasso { stem, cycle })
}

/// Reads a path.
pub(crate) fn read_lasso(
    alloc: Global,
    cursor: &mut Cursor<'_>,
    model: &Ruled,
) -> Result<Lasso, Fault>
    requires room { cursor.old.line + length cursor.old.left ≤ 4294967295 }
    requires small { HasSmallValues model.now }
    ensures { Finds (IsLasso model.now) (lasso_lines model.now) cursor.old result cursor.new }
{
    model.rules_law();
    let first = read_state(alloc, cursor, model, 0)?;
    let (others, place) = read_ending(alloc, cursor, model)?;
    match lasso_of(first, others, place) {
        Ok(lasso) => Ok(lasso),
        Err(_) => Err(Fault::Memory),
    }
}
