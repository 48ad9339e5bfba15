//! The variables of a model, by their names.

ghost use Rattle.std.specs.Prelude.{◌≡◌, map, IfOk, MatchOption, Contains, Some, slice_get};
ghost use Rattle.kripke_model.specs.Flat.{AreDistinct};

use indexmap::IndexSet;
use kripke_model::models::FlatVar;
use std::alloc::{AllocError, Global};
use std::marker::Model;

/// The names of variables, each once. Contracts see the list of them.
#[derive(Drop)]
pub(crate) struct VariableNames<'m> {
    set: IndexSet<&'m [u8]>,
}

impl<'m> Model for VariableNames<'m> {
    ghost use Rattle.std.specs.Prelude.{List, ℕ, map};

    ghost Value = { List (List ℕ) };

    ghost view = { λ n. map (λ k. k.now) n.set.keys };
}

impl<'m> VariableNames<'m> {
    /// The names of the variables.
    pub(crate) fn of(alloc: Global, vars: &'m [FlatVar]) -> Result<VariableNames<'m>, AllocError>
        requires { AreDistinct (map (λ v. v.name) vars.now) }
        ensures { IfOk result (λ n. n ≡ map (λ v. v.name) vars.now) }
    {
        let mut set = IndexSet::new(alloc);
        for var in vars {
            set.insert(var.name.as_bytes())?;
        }
        Ok(VariableNames { set })
    }

    /// The place of a name.
    pub(crate) fn place(&self, name: &[u8]) -> Option<usize>
        ensures { MatchOption result (Contains self.now name.now → ⊥)
            (λ x. slice_get self.now x ≡ Some name.now) }
    {
        self.set.get_index_of(name)
    }
}
