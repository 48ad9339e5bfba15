//! Laws of widths and of states. The functions compute nothing: their contracts are the laws.

ghost use Rattle.std.specs.Prelude.{◌≤◌, ◌^◌, ℕ};
ghost use Rattle.bit_encode.specs.Binary.{width};
ghost use Rattle.bit_encode.specs.Laws.{StatesAgree};

use kripke_model::models::Ruled;

/// The width of a type is the least number of bits with 2 ^ bits at least the number of its values.
pub fn width_law(count: usize)
    ensures enough { count ≤ 2 ^ width count }
    ensures least { (bits : ℕ) → count ≤ 2 ^ bits → width count ≤ bits }
{}

/// The states of the model are those that its layouts encode.
pub fn states_law(model: &Ruled)
    ensures { StatesAgree model.now }
{}
