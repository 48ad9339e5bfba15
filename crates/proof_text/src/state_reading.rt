//! Reads the end of a block.

ghost use Rattle.std.specs.Prelude.{◌+◌, ◌≤◌, ◌∷◌, [], length, codes, true, false};
ghost use Rattle.kripke_model.specs.Step.{IsState};
ghost use Rattle.proof_text.specs.FileParts.{FitsEnd};
ghost use Rattle.proof_text.specs.Lines.{Words as words_line, end_lines, value_words};
ghost use Rattle.proof_text.specs.SetParts.{Finds};

use crate::fixed_lines::read_fixed;
use crate::laws::variables_law;
use crate::written_states::state_in;
use kripke_model::models::Ruled;
use kripke_model::states::State;
use std::alloc::Global;
use text_lines::cursor::Cursor;
use text_lines::faults::Fault;

/// Reads the last line of a block.
pub(crate) fn read_last(cursor: &mut Cursor<'_>) -> Result<(), Fault>
    requires { cursor.old.line + length cursor.old.left ≤ 4294967295 }
    ensures { Finds (λ (x : Unit {0}). Unit {0}) (λ x. words_line (codes "end" ∷ []) ∷ [])
        cursor.old result cursor.new }
{
    read_fixed(cursor, b"end")
}

/// Reads the line of a state.
fn read_state(alloc: Global, cursor: &mut Cursor<'_>, model: &Ruled) -> Result<State, Fault>
    requires { cursor.old.line + length cursor.old.left ≤ 4294967295 }
    ensures { Finds (IsState model.now)
        (λ s. words_line (codes "at" ∷ value_words model.now 0 s) ∷ [])
        cursor.old result cursor.new }
{
    model.rules_law();
    let line = cursor.line();
    let Some(text) = cursor.next() else {
        return Err(Fault::End);
    };
    match state_in(alloc, model, text) {
        Ok(Some(state)) => Ok(state),
        Ok(None) => Err(Fault::Stops { line }),
        Err(_) => Err(Fault::Memory),
    }
}

/// Reads the end of a block that claims that its specification is true: there is no state.
fn read_true_end(cursor: &mut Cursor<'_>, _model: &Ruled) -> Result<Option<State>, Fault>
    requires { cursor.old.line + length cursor.old.left ≤ 4294967295 }
    ensures { Finds (FitsEnd _model.now true) (end_lines _model.now) cursor.old result cursor.new }
{
    read_last(cursor)?;
    Ok(None)
}

/// Reads the end of a block that claims that its specification is false: a state, and the last
/// line.
fn read_false_end(
    alloc: Global,
    cursor: &mut Cursor<'_>,
    model: &Ruled,
) -> Result<Option<State>, Fault>
    requires { cursor.old.line + length cursor.old.left ≤ 4294967295 }
    ensures { Finds (FitsEnd model.now false) (end_lines model.now) cursor.old result cursor.new }
{
    model.rules_law();
    variables_law(model.vars());
    let state = read_state(alloc, cursor, model)?;
    read_last(cursor)?;
    Ok(Some(state))
}

/// Reads the end of a block.
pub(crate) fn read_end(
    alloc: Global,
    cursor: &mut Cursor<'_>,
    model: &Ruled,
    claim: bool,
) -> Result<Option<State>, Fault>
    requires { cursor.old.line + length cursor.old.left ≤ 4294967295 }
    ensures { Finds (FitsEnd model.now claim) (end_lines model.now) cursor.old result cursor.new }
{
    if claim {
        read_true_end(cursor, model)
    } else {
        read_false_end(alloc, cursor, model)
    }
}
