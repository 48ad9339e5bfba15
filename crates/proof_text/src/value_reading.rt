//! Values of a variable by their texts.

ghost use Rattle.std.specs.Prelude.{◌≡◌, ◌↔◌, IfOk, IsTrue, MatchOption, Contains};
ghost use Rattle.kripke_model.specs.declared.expressions.Value.{Value as Data};
ghost use Rattle.kripke_model.specs.Shown.{value_text};

use kripke_model::expressions::Value;
use kripke_model::models::Ruled;
use std::alloc::{AllocError, Global};
use value_texts::text::Text;
use value_texts::values::push_value;

/// Whether a value of variable x is written so.
fn is_written(
    alloc: Global,
    model: &Ruled,
    x: usize,
    value: Value,
    word: &[u8],
) -> Result<bool, AllocError>
    ensures { IfOk result (λ yes. IsTrue yes ↔ (word.now ≡ value_text model.now x value)) }
{
    let mut text = Text::new(alloc);
    push_value(&mut text, model, x, value)?;
    let bytes = text.into_bytes();
    Ok(word == bytes.as_slice())
}

/// The value of variable x that is written so, of these values.
pub(crate) fn value_written(
    alloc: Global,
    model: &Ruled,
    x: usize,
    values: &[Value],
    word: &[u8],
) -> Result<Option<Value>, AllocError>
    ensures { IfOk result (λ found. MatchOption found
        ((v : Data) → Contains values.now v → word.now ≡ value_text model.now x v → ⊥)
        (λ v. Contains values.now v × (word.now ≡ value_text model.now x v))) }
{
    for value in values {
        if is_written(alloc, model, x, *value, word)? {
            return Ok(Some(*value));
        }
    }
    Ok(None)
}
