//! Marks of the variables that an order names.

ghost use Rattle.std.specs.Prelude.{◌≡◌, ◌<◌, ◌↔◌, ℕ, All, length, true, false, get_or, set, slice_get, Some, IsTrue};
ghost use Rattle.kripke_model.specs.Flat.{AreDistinct};

use crate::variable_names::VariableNames;

/// Whether all marks are set.
pub(crate) fn all_set(marks: &[bool]) -> bool
    ensures { IsTrue result ↔ All (λ b. b ≡ true) marks.now }
{
    marks.iter().all(|x| *x)
}

/// The variable of a name, which is marked. `None` where there is none, or where it is marked already.
pub(crate) fn mark(names: &VariableNames<'_>, marks: &mut [bool], name: &[u8]) -> Option<usize>
    requires each { length marks.old ≡ length names.now }
    requires distinct { AreDistinct names.now }
    ensures none { result ≡ None → (x : ℕ) → slice_get names.now x ≡ Some name.now
        → get_or marks.old x false ≡ true }
    ensures some { (x : ℕ) → result ≡ Some x → (slice_get names.now x ≡ Some name.now)
        × (x < length marks.old) × (get_or marks.old x false ≡ false)
        × (marks.new ≡ set marks.old x true) }
{
    let x = names.place(name)?;
    if marks[x] {
        return None;
    }
    marks[x] = true;
    Some(x)
}
