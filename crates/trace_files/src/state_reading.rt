// Reads the lines of a state.

ghost use Rattle.std.specs.Prelude.{◌≡◌, ◌+◌, ◌≤◌, ◌<◌, ◌∷◌, [], length, MatchOption};
ghost use Rattle.kripke_model.specs.declared.expressions.Value.{Value as Data};
ghost use Rattle.kripke_model.specs.Step.{IsState};
ghost use Rattle.text_lines.specs.Formats.{FitMany, lines_of_many};
ghost use Rattle.trace_files.specs.Parts.{Finds, FitsValue, one_value};
ghost use Rattle.trace_files.specs.Small.{HasSmallValues};
ghost use Rattle.trace_files.specs.Trace.{state_lines, value_line};

use crate::fronts::behind_name;
use crate::heads::read_head;
use crate::values::value_written;
use kripke_model::expressions::Value;
use kripke_model::models::Ruled;
use kripke_model::states::State;
use std::alloc::Global;
use text_lines::cursor::Cursor;
use text_lines::faults::Fault;

/// The value that a line gives the variable behind those of the earlier values.
fn value_in(model: &Ruled, earlier: &State, text: &[u8]) -> Option<Value>
    requires { length earlier.now < length model.now.vars }
    ensures { MatchOption result
        ((v : Data) → FitsValue model.now earlier.now v
        → value_line model.now (length earlier.now) v ≡ text.now → ⊥)
        (λ v. FitsValue model.now earlier.now v
        × (value_line model.now (length earlier.now) v ≡ text.now)) }
{
    let x = earlier.values().len();
    let word = behind_name(model, x, text)?;
    value_written(model, x, model.vars()[x].values(), word)
}

/// Reads the line of the variable behind those of the earlier values.
fn read_value(cursor: &mut Cursor<'_>, model: &Ruled, earlier: &State) -> Result<Value, Fault>
    requires room { cursor.old.line + length cursor.old.left ≤ 4294967295 }
    requires more { length earlier.now < length model.now.vars }
    ensures { Finds (FitsValue model.now earlier.now) (one_value model.now earlier.now) cursor.old
        result cursor.new }
{
    model.rules_law();
    let line = cursor.line();
    let Some(text) = cursor.next() else {
        return Err(Fault::End);
    };
    match value_in(model, earlier, text) {
        Some(value) => Ok(value),
        None => Err(Fault::Stops { line }),
    }
}

/// Reads the values of all variables.
fn read_values(alloc: Global, cursor: &mut Cursor<'_>, model: &Ruled) -> Result<State, Fault>
    requires room { cursor.old.line + length cursor.old.left ≤ 4294967295 }
    requires small { HasSmallValues model.now }
    ensures { Finds (FitMany (FitsValue model.now) (length model.now.vars) [])
        (lines_of_many (one_value model.now) []) cursor.old result cursor.new }
{
    model.rules_law();
    let mut state = State::new(alloc);
    for _x in 0..model.vars().len() {
        let value = read_value(cursor, model, &state)?;
        let Ok(()) = state.push(value) else {
            return Err(Fault::Memory);
        };
    }
    Ok(state)
}

/// Reads state number k.
pub(crate) fn read_state(
    alloc: Global,
    cursor: &mut Cursor<'_>,
    model: &Ruled,
    k: usize,
) -> Result<State, Fault>
    requires room { cursor.old.line + length cursor.old.left ≤ 4294967295 }
    requires small { HasSmallValues model.now }
    ensures { Finds (IsState model.now) (state_lines model.now k) cursor.old result cursor.new }
{
    model.rules_law();
    read_head(cursor, k)?;
    read_values(alloc, cursor, model)
}
