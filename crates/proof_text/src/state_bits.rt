//! How many bits a state has.

ghost use Rattle.std.specs.Prelude.{◌≡◌, ◌≤◌, ◌*◌, length, map};
ghost use Rattle.bit_encode.specs.Code as code;

use bit_encode::binary::bit_width;
use kripke_model::models::{FlatVar, Ruled};

/// How many bits the values of the variables have.
fn bits_of(vars: &[FlatVar]) -> u32
    requires { length vars.now ≤ 256 }
    ensures bits { result ≡ code.bit_count (map (λ v. v.values) vars.now) }
    ensures few { result ≤ 64 * length vars.now }
{
    match vars {
        [] => 0,
        [var, rest @ ..] => bit_width(var.values().len()) + bits_of(rest),
    }
}

/// How many bits a state of the model has.
pub(crate) fn state_bits(model: &Ruled) -> u32
    ensures { result ≡ code.state_bits model.now }
{
    model.rules_law();
    bits_of(model.vars())
}
