//! Values as they are written.

ghost use Rattle.std.specs.Prelude.{◌≡◌, ◌++◌, [], slice_index_or, OnOk};
ghost use Rattle.kripke_model.specs.Shown.{process_name, value_text};
ghost use Rattle.kripke_model.specs.System.{value_in};

use crate::text::Text;
use kripke_model::Name;
use kripke_model::expressions::Value;
use kripke_model::models::Ruled;
use kripke_model::states::State;
use std::alloc::AllocError;

/// The value of variable x, or 0 where the state has none.
pub fn value_at(state: &State, x: usize) -> Value
    ensures { result ≡ value_in state.now x }
{
    match state.values().get(x) {
        Some(value) => *value,
        None => Value::Number(0),
    }
}

/// Adds a value of variable x. A value of the selector is written as its process.
pub fn push_value(text: &mut Text, model: &Ruled, x: usize, value: Value) -> Result<(), AllocError>
    ensures { OnOk result (text.new ≡ text.old ++ value_text model.now x value) }
{
    match value {
        Value::Symbol(c) => text.push(name_at(model.symbols(), c as usize)),
        Value::Number(i) => {
            if model.has_selector() && x == 0 {
                push_process(text, model, i)
            } else {
                text.push_number(i)
            }
        }
    }
}

fn push_process(text: &mut Text, model: &Ruled, i: i32) -> Result<(), AllocError>
    ensures { OnOk result (text.new ≡ text.old ++ process_name model.now i) }
{
    if i < 0 {
        return Ok(());
    }
    text.push(name_at(model.processes(), i as usize))
}

// The bytes of the name at a place, and none past the last.
fn name_at(names: &[Name], place: usize) -> &[u8]
    ensures { result.now ≡ slice_index_or names.now place [] }
{
    match names.get(place) {
        Some(name) => name.as_bytes(),
        None => b"",
    }
}
