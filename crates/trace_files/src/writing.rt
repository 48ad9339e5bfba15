//! From a trace to its text.

ghost use Rattle.std.specs.Prelude.{◌≡◌, ◌++◌, ◌∷◌, [], ◌+◌, ◌≤◌, IfOk, OnOk, decimal, length};
ghost use Rattle.text_lines.specs.WholeLines.{join_lines};
ghost use Rattle.trace_files.specs.Trace.{lasso_lines, loop_line, spec_line, state_line, state_lines, states_lines, trace_lines, value_line, value_lines};

use crate::fronts::variable_name;
use crate::trace::TraceFile;
use kripke_model::expressions::Value;
use kripke_model::models::Ruled;
use kripke_model::states::{Lasso, State};
use std::alloc::{AllocError, Global};
use value_texts::text::Text;
use value_texts::values::push_value;

/// Adds a line of these bytes and a number.
fn push_numbered(text: &mut Text, front: &[u8], n: u64) -> Result<(), AllocError>
    ensures { OnOk result (text.new ≡ text.old
        ++ join_lines ((front.now ++ decimal n) ∷ [])) }
{
    text.push(front)?;
    text.push_number(n)?;
    text.push(b"\n")
}

/// Adds the line of a value of variable x.
fn push_value_line(text: &mut Text, model: &Ruled, x: usize, value: Value) -> Result<(), AllocError>
    ensures { OnOk result (text.new ≡ text.old
        ++ join_lines (value_line model.now x value ∷ [])) }
{
    text.push(b"  ")?;
    text.push(variable_name(model, x))?;
    text.push(b" = ")?;
    push_value(text, model, x, value)?;
    text.push(b"\n")
}

/// Adds the lines of a state's values.
fn push_values(text: &mut Text, model: &Ruled, state: &State) -> Result<(), AllocError>
    ensures { OnOk result (text.new ≡ text.old ++ join_lines (value_lines model.now 0 state.now)) }
{
    let values = state.values();
    for (x, value) in values.iter().enumerate() {
        push_value_line(text, model, x, *value)?;
    }
    Ok(())
}

/// Adds the lines of state number k.
fn push_state(text: &mut Text, model: &Ruled, k: u64, state: &State) -> Result<(), AllocError>
    ensures { OnOk result (text.new ≡ text.old ++ join_lines (state_lines model.now k state.now)) }
{
    push_numbered(text, b"state ", k)?;
    push_values(text, model, state)
}

/// Adds the lines of states, from number k on.
fn push_states(text: &mut Text, model: &Ruled, k: u64, states: &[State]) -> Result<(), AllocError>
    requires { k + length states.now ≤ 18446744073709551615 }
    ensures { OnOk result (text.new ≡ text.old
        ++ join_lines (states_lines model.now k states.now)) }
{
    for (i, state) in states.iter().enumerate() {
        push_state(text, model, k + i as u64, state)?;
    }
    Ok(())
}

/// Adds the lines of a path.
fn push_lasso(text: &mut Text, model: &Ruled, lasso: &Lasso) -> Result<(), AllocError>
    ensures { OnOk result (text.new ≡ text.old ++ join_lines (lasso_lines model.now lasso.now)) }
{
    let stem = lasso.stem.len() as u64;
    push_states(text, model, 0, &lasso.stem)?;
    push_states(text, model, stem, &lasso.cycle)?;
    push_numbered(text, b"loop ", stem)
}

/// The text of the trace. It may be longer than a trace file may be.
pub fn write_trace(alloc: Global, model: &Ruled, file: &TraceFile) -> Result<Vec<u8>, AllocError>
    ensures { IfOk result (λ text. text.items ≡ join_lines (trace_lines model.now file.now)) }
{
    let mut text = Text::new(alloc);
    push_numbered(&mut text, b"trace ", file.spec as u64)?;
    push_lasso(&mut text, model, &file.lasso)?;
    Ok(text.into_bytes())
}
