//! What the flat names of an instance begin with.

ghost use Rattle.std.specs.Prelude.{◌≡◌, ◌++◌, ◌∷◌, [], IfOk, Some, List, slice_get, string_bytes};
ghost use Rattle.smv_instances.specs.declared.modules.Modules.{Modules as Tables};
ghost use Rattle.smv_instances.specs.Instances.{Scope, spelled};
ghost use Rattle.smv_instances.specs.Walk.{AreRows, IsInside};
ghost use Rattle.smv_instantiate.specs.Bodies.{front as front_of};

use kripke_model::Name;
use smv_instances::rows::Row;
use std::alloc::{AllocError, Global};

/// The flat name of what an instance declares, whose flat names begin with this front.
pub fn flat_name(alloc: Global, front: &str, name: &Name) -> Result<Name, AllocError>
    ensures { IfOk result (λ flat. flat ≡ front.now ++ name.now) }
{
    let text = name.as_str();
    Ok(Name::new(format!(in alloc; "{front}{text}")?))
}

/// The front of an instance that is declared under this name.
pub fn inner_front(alloc: Global, front: &str, name: &Name) -> Result<String, AllocError>
    ensures { IfOk result (λ inner. string_bytes inner ≡ front.now ++ name.now ++ 46 ∷ []) }
{
    let text = name.as_str();
    format!(in alloc; "{front}{text}.")
}

/// Adds the front of an instance.
fn push_front(rows: &[Row<'_>], number: usize, text: &mut String) -> Result<(), AllocError>
    requires { (ms : Tables) × IsInside ms rows.now number }
    ensures { (ms : Tables) (done : List Scope) (s : Scope) → AreRows ms rows.now done
        → slice_get done number ≡ Some s
        → IfOk result (λ _. string_bytes text.new ≡ string_bytes text.old ++ front_of s) }
{
    let row = &rows[number];
    match &row.step {
        None => Ok(()),
        Some(step) => {
            push_front(rows, step.around, text)?;
            text.push_str(step.name.as_str())?;
            text.push_str(".")?;
            Ok(())
        }
    }
}

/// The flat name of what an instance declares.
pub fn spelled_name(
    alloc: Global,
    rows: &[Row<'_>],
    number: usize,
    name: &Name,
) -> Result<Name, AllocError>
    requires { (ms : Tables) × IsInside ms rows.now number }
    ensures { (ms : Tables) (done : List Scope) (s : Scope) → AreRows ms rows.now done
        → slice_get done number ≡ Some s → IfOk result (λ flat. flat ≡ spelled s name.now) }
{
    let mut text = String::new(alloc);
    push_front(rows, number, &mut text)?;
    text.push_str(name.as_str())?;
    Ok(Name::new(text))
}
