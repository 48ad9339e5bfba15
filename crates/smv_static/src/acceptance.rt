//! The flat models that keep the static rules, with the formulas of their specifications and constraints.

ghost use Rattle.std.specs.Prelude.{◌≡◌, ◌⊎◌, IfOk, IfErr, OnOk};
ghost use Rattle.kripke_model.specs.Flat.{IsFlat};
ghost use Rattle.kripke_model.specs.Static.{Breaks, KeepsRules};

use crate::assignments::{check_beside, check_twice};
use crate::cycles::check_cycles;
use crate::formulas::formulas_of;
use crate::parts::{constraints_of, specs_of};
use crate::sections::{ItemRule, check_items};
use kripke_model::models::{FlatModel, Ruled};
use kripke_model::refusals::StaticRefusal;
use std::alloc::Global;

/// The first static rule that the model breaks, in the order of the rules.
fn check(alloc: Global, flat: &FlatModel) -> Result<(), StaticRefusal>
    requires { IsFlat flat.now }
    ensures ok { OnOk result (KeepsRules flat.now) }
    ensures err { IfErr result (λ r. (r ≡ StaticRefusal.Memory) ⊎ Breaks flat.now r) }
{
    check_twice(alloc, flat)?;
    check_beside(alloc, flat)?;
    check_cycles(alloc, flat)?;
    check_items(flat, ItemRule::Next)?;
    check_items(flat, ItemRule::Formula)
}

/// The model as it is, where it keeps the static rules; or else the first of them that it breaks, with the line of the
/// item that breaks it, or want of memory.
pub fn accept(alloc: Global, flat: FlatModel) -> Result<Ruled, StaticRefusal>
    requires { IsFlat flat }
    ensures kept { IfOk result (λ r. r ≡ flat) }
    ensures ok { OnOk result (KeepsRules flat) }
    ensures refused { IfErr result (λ r. (r ≡ StaticRefusal.Memory) ⊎ Breaks flat r) }
{
    check(alloc, &flat)?;
    let formulas = formulas_of(alloc, specs_of(&flat))?;
    let fair = formulas_of(alloc, constraints_of(&flat))?;
    Ok(Ruled {
        flat,
        formulas,
        fair,
    })
}
