// What stands behind the front of a line.

ghost use Rattle.std.specs.Prelude.{◌≡◌, ◌++◌, ℕ, List, MatchOption, codes};
ghost use Rattle.kripke_model.specs.System.{variable_name};

use kripke_model::models::Ruled;

/// What stands behind these bytes, where the text begins with them.
pub(crate) fn behind<'a>(text: &'a [u8], front: &[u8]) -> Option<&'a [u8]>
    ensures { MatchOption result ((rest : List ℕ) → text.now ≡ front.now ++ rest → ⊥)
        (λ rest. text.now ≡ front.now ++ rest.now) }
{
    text.strip_prefix(front)
}

/// The name of variable x, and no bytes where there is none.
pub(crate) fn variable_name(model: &Ruled, x: usize) -> &[u8]
    ensures { result.now ≡ variable_name model.now x }
{
    match model.vars().get(x) {
        Some(var) => var.name.as_bytes(),
        None => b"",
    }
}

/// The value in a line of variable x.
pub(crate) fn behind_name<'a>(model: &Ruled, x: usize, text: &'a [u8]) -> Option<&'a [u8]>
    ensures { MatchOption result
        ((word : List ℕ) → text.now ≡ codes "  " ++ (variable_name model.now x
        ++ (codes " = " ++ word)) → ⊥)
        (λ word. text.now ≡ codes "  " ++ (variable_name model.now x
        ++ (codes " = " ++ word.now))) }
{
    let named = behind(text, b"  ")?;
    let valued = behind(named, variable_name(model, x))?;
    behind(valued, b" = ")
}
