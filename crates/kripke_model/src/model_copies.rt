//! Copies of models and their parts, which share no memory with what they are copies of.

ghost use Rattle.std.specs.Prelude.{◌≡◌, IfOk, map};
ghost use Rattle.kripke_model.specs.WellFormed.{ctl_of};

use crate::expressions::Formula;
use crate::models::{Assign, FlatModel, FlatVar, Item, Ruled};
use crate::names::Name;
use std::alloc::{AllocError, Global};

/// What can be copied. The copy is equal to it.
pub(crate) trait Copied: Drop {
    fn copied(&self, alloc: Global) -> Result<Self, AllocError>
        ensures { IfOk result (λ x. x ≡ self.now) };
}

impl Copied for Name {
    fn copied(&self, alloc: Global) -> Result<Name, AllocError> {
        self.copy(alloc)
    }
}

impl Copied for FlatVar {
    fn copied(&self, alloc: Global) -> Result<FlatVar, AllocError> {
        Ok(FlatVar {
            name: self.name.copy(alloc)?,
            values: self.values.to_vec(alloc)?,
            line: self.line,
        })
    }
}

impl Copied for Assign {
    fn copied(&self, alloc: Global) -> Result<Assign, AllocError> {
        Ok(Assign {
            part: self.part,
            var: self.var,
            process: self.process,
            right: self.right.copy(alloc)?,
            line: self.line,
        })
    }
}

impl Copied for Item {
    fn copied(&self, alloc: Global) -> Result<Item, AllocError> {
        Ok(Item {
            expr: self.expr.copy(alloc)?,
            line: self.line,
        })
    }
}

fn copy_all<T: Copied>(alloc: Global, members: &[T]) -> Result<Vec<T>, AllocError>
    ensures { IfOk result (λ v. v.items ≡ members.now) }
{
    let mut copies = Vec::new(alloc);
    for member in members {
        copies.push(member.copied(alloc)?)?;
    }
    Ok(copies)
}

fn copy_both<T: Copied, U: Copied>(
    alloc: Global,
    first: &[T],
    second: &[U],
) -> Result<(Vec<T>, Vec<U>), AllocError>
    ensures first { IfOk result (λ both. both.0.items ≡ first.now) }
    ensures second { IfOk result (λ both. both.1.items ≡ second.now) }
{
    let first = copy_all(alloc, first)?;
    let second = copy_all(alloc, second)?;
    Ok((first, second))
}

fn copy_formulas(alloc: Global, formulas: &[Formula]) -> Result<Vec<Formula>, AllocError>
    ensures { IfOk result (λ v. map ctl_of v.items ≡ map ctl_of formulas.now) }
{
    let mut copies = Vec::new(alloc);
    for formula in formulas {
        copies.push(formula.copy(alloc)?)?;
    }
    Ok(copies)
}

impl FlatModel {
    /// An equal model.
    pub fn copy(&self, alloc: Global) -> Result<FlatModel, AllocError>
        ensures { IfOk result (λ m. m ≡ self.now) }
    {
        let (symbols, processes) = copy_both(alloc, &self.symbols, &self.processes)?;
        let (vars, assigns) = copy_both(alloc, &self.vars, &self.assigns)?;
        let (inits, invars) = copy_both(alloc, &self.inits, &self.invars)?;
        let (trans, constraints) = copy_both(alloc, &self.trans, &self.constraints)?;
        let specs = copy_all(alloc, &self.specs)?;
        Ok(FlatModel {
            symbols,
            vars,
            selector: self.selector,
            processes,
            assigns,
            inits,
            invars,
            trans,
            constraints,
            specs,
        })
    }
}

impl Ruled {
    /// An equal model.
    pub fn copy(&self, alloc: Global) -> Result<Ruled, AllocError>
        ensures { IfOk result (λ r. r ≡ self.now) }
    {
        Ok(Ruled {
            flat: self.flat.copy(alloc)?,
            formulas: copy_formulas(alloc, &self.formulas)?,
            fair: copy_formulas(alloc, &self.fair)?,
        })
    }
}
