// Values of a variable by their texts.

ghost use Rattle.std.specs.Prelude.{◌≡◌, ◌↔◌, IsTrue, MatchOption, Contains, slice_index_or, []};
ghost use Rattle.std.specs.Fmt.{signed_decimal};
ghost use Rattle.kripke_model.specs.declared.expressions.Value.{Value as Data};
ghost use Rattle.kripke_model.specs.Shown.{process_name, value_text};

use itoa::Buffer;
use kripke_model::Name;
use kripke_model::expressions::Value;
use kripke_model::models::Ruled;

/// Whether the word is the name at a place, or empty where there is none.
fn is_name(names: &[Name], place: usize, word: &[u8]) -> bool
    ensures { IsTrue result ↔ (word.now ≡ slice_index_or names.now place []) }
{
    match names.get(place) {
        Some(name) => word == name.as_bytes(),
        None => word.is_empty(),
    }
}

fn is_process(model: &Ruled, i: i32, word: &[u8]) -> bool
    ensures { IsTrue result ↔ (word.now ≡ process_name model.now i) }
{
    if i < 0 {
        word.is_empty()
    } else {
        is_name(model.processes(), i as usize, word)
    }
}

fn is_signed(i: i32, word: &[u8]) -> bool
    ensures { IsTrue result ↔ (word.now ≡ signed_decimal i) }
{
    let mut buffer = Buffer::new();
    word == buffer.format(i).as_bytes()
}

/// Whether a value of variable x is written so.
fn is_written(model: &Ruled, x: usize, value: Value, word: &[u8]) -> bool
    ensures { IsTrue result ↔ (word.now ≡ value_text model.now x value) }
{
    match value {
        Value::Symbol(c) => is_name(model.symbols(), c as usize, word),
        Value::Number(i) => {
            if model.has_selector() && x == 0 {
                is_process(model, i, word)
            } else {
                is_signed(i, word)
            }
        }
    }
}

/// The value of variable x that is written so, of these values. It takes no memory.
pub(crate) fn value_written(model: &Ruled, x: usize, values: &[Value], word: &[u8]) -> Option<Value>
    ensures { MatchOption result
        ((v : Data) → Contains values.now v → word.now ≡ value_text model.now x v → ⊥)
        (λ v. Contains values.now v × (word.now ≡ value_text model.now x v)) }
{
    for value in values {
        if is_written(model, x, *value, word) {
            return Some(*value);
        }
    }
    None
}
