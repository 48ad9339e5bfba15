//! Laws of the definitions. The functions compute nothing; one looks at each value of a type.

ghost use Rattle.std.specs.Prelude.{ℕ, List};
ghost use Rattle.text_lines.specs.Ceasing.{AreReadOnce, AreRefusedOnce};
ghost use Rattle.trace_files.specs.Refuses.{Refuses};
ghost use Rattle.trace_files.specs.Spells.{Spells};

use crate::small::look_at_types;
use kripke_model::models::Ruled;

/// A text is refused for one reason at most, and it is a trace file or refused.
pub fn refusal_law(model: &Ruled)
    ensures { (bytes : List ℕ)
        → AreRefusedOnce (λ t. Spells model.now t bytes) (Refuses model.now bytes) }
{}

/// A text is one trace file at most, and no trace file is refused.
pub fn reading_law(model: &Ruled)
    ensures { (bytes : List ℕ)
        → AreReadOnce (λ t. Spells model.now t bytes) (Refuses model.now bytes) }
{
    model.rules_law();
    look_at_types(model);
}
