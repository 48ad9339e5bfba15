// How many bits a state of a model has.
ghost use Rattle.std.specs.Prelude.{◌≡◌};
ghost use Rattle.bit_encode.specs.Code as code;

use bit_encode::binary::bit_width;
use kripke_model::models::Ruled;

/// How many bits a state of the model has: those of each variable.
pub(crate) fn state_bits(model: &Ruled) -> u32
    ensures { result ≡ code.state_bits model.now }
{
    model.rules_law();
    let mut bits = 0;
    for variable in model.vars() {
        bits += bit_width(variable.values.len());
    }
    bits
}
