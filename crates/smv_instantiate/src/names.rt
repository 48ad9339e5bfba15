//! The numbers of the flat variables, by their names.

ghost use Rattle.std.specs.Prelude.{◌≡◌, ◌≤◌, IfOk, IfSome, IfNone, length, map, false};
ghost use Rattle.std.specs.List.{list_any};
ghost use Rattle.std.specs.Str.{bytes_eq};
ghost use Rattle.kripke_model.specs.Flat.{AreDistinct};
ghost use Rattle.smv_instances.specs.Instances.{place_of};

use kripke_model::Name;
use kripke_model::models::FlatVar;
use smv_instances::names::Names;
use std::alloc::{AllocError, Global};
use std::marker::Model;

/// The names of the flat variables, in their order, which find the number of each by hash. Contracts see the list of
/// them.
#[derive(Drop)]
pub struct VariableNames<'v> {
    names: Names<'v>,
}

impl<'v> Model for VariableNames<'v> {
    ghost use Rattle.std.specs.Prelude.{List, ℕ, ◌≤◌, length};

    ghost Value = { List (List ℕ) };

    ghost view = { λ n. n.names };

    ghost invariant = { λ n. length n.names ≤ 256 };
}

impl<'v> VariableNames<'v> {
    /// Those of the variables.
    pub fn of(alloc: Global, variables: &'v [FlatVar]) -> Result<VariableNames<'v>, AllocError>
        requires distinct { AreDistinct (map (λ v. v.name) variables.now) }
        requires few { length variables.now ≤ 256 }
        ensures { IfOk result (λ names. names ≡ map (λ v. v.name) variables.now) }
    {
        let mut names = Names::new(alloc);
        for variable in variables {
            names.insert(variable.name.as_str())?;
        }
        Ok(VariableNames { names })
    }

    /// The number of the variable of this name.
    pub fn number(&self, name: &Name) -> Option<u32>
        ensures some { IfSome result (λ k. k ≡ place_of self.now name.now) }
        ensures none { IfNone result (list_any (bytes_eq name.now) self.now ≡ false) }
    {
        let place = self.names.place(name.as_str())?;
        Some(place as u32)
    }
}
