//! The values of a model's variables are numbers of a machine.

ghost use Rattle.std.specs.Prelude.{All};
ghost use Rattle.trace_files.specs.Small.{HasSmallValues, IsSmall};

use kripke_model::expressions::Value;
use kripke_model::models::Ruled;

fn look_at(value: &Value)
    ensures { IsSmall value.now }
{
    match *value {
        Value::Number(_number) => {}
        Value::Symbol(_) => {}
    }
}

fn look_at_all(values: &[Value])
    ensures { All IsSmall values.now }
{
    for value in values {
        look_at(value);
    }
}

/// Each number of a type is one that a machine keeps. It looks at each value.
pub(crate) fn look_at_types(model: &Ruled)
    ensures { HasSmallValues model.now }
{
    for var in model.vars() {
        look_at_all(var.values());
    }
}
