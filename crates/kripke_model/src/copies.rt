//! Copies of expressions and formulas, which share no memory with what they are copies of.

ghost use Rattle.std.specs.Prelude.{◌≡◌, IfOk, map};
ghost use Rattle.kripke_model.specs.Reading.{term_of, arm_of};
ghost use Rattle.kripke_model.specs.WellFormed.{ctl_of};

use crate::expressions::{Arm, Expr, Formula};
use std::alloc::{AllocError, Global};

impl Expr {
    /// An expression with the same tree.
    pub fn copy(&self, alloc: Global) -> Result<Expr, AllocError>
        ensures { IfOk result (λ e. term_of e ≡ term_of self.now) }
    {
        copy_expression(alloc, self)
    }
}

#[cycle(copy)]
fn copy_expression(alloc: Global, e: &Expr) -> Result<Expr, AllocError>
    ensures { IfOk result (λ f. term_of f ≡ term_of e.now) }
{
    match e {
        Expr::Const(value) => Ok(Expr::Const(*value)),
        Expr::Var(x) => Ok(Expr::Var(*x)),
        Expr::Running(p) => Ok(Expr::Running(*p)),
        Expr::Next(e) => Ok(Expr::Next(Box::new(alloc, copy_expression(alloc, e)?)?)),
        Expr::Not(e) => Ok(Expr::Not(Box::new(alloc, copy_expression(alloc, e)?)?)),
        Expr::Binary(op, a, b) => {
            let a = Box::new(alloc, copy_expression(alloc, a)?)?;
            let b = Box::new(alloc, copy_expression(alloc, b)?)?;
            Ok(Expr::Binary(*op, a, b))
        }
        Expr::Braces(elements) => Ok(Expr::Braces(copy_elements(alloc, elements)?)),
        Expr::Case(arms) => Ok(Expr::Case(copy_arms(alloc, arms)?)),
        Expr::Quant(op, e) => Ok(Expr::Quant(*op, Box::new(alloc, copy_expression(alloc, e)?)?)),
        Expr::Until(all, a, b) => {
            let a = Box::new(alloc, copy_expression(alloc, a)?)?;
            let b = Box::new(alloc, copy_expression(alloc, b)?)?;
            Ok(Expr::Until(*all, a, b))
        }
    }
}

#[cycle(copy)]
fn copy_elements(alloc: Global, elements: &[Expr]) -> Result<Vec<Expr>, AllocError>
    ensures { IfOk result (λ v. map term_of v.items ≡ map term_of elements.now) }
{
    let mut copies = Vec::new(alloc);
    for e in elements {
        copies.push(copy_expression(alloc, e)?)?;
    }
    Ok(copies)
}

#[cycle(copy)]
fn copy_arms(alloc: Global, arms: &[Arm]) -> Result<Vec<Arm>, AllocError>
    ensures { IfOk result (λ v. map arm_of v.items ≡ map arm_of arms.now) }
{
    let mut copies = Vec::new(alloc);
    for arm in arms {
        let guard = copy_expression(alloc, &arm.guard)?;
        let right = copy_expression(alloc, &arm.right)?;
        copies.push(Arm { guard, right })?;
    }
    Ok(copies)
}

impl Formula {
    /// A formula with the same tree.
    pub fn copy(&self, alloc: Global) -> Result<Formula, AllocError>
        ensures { IfOk result (λ f. ctl_of f ≡ ctl_of self.now) }
    {
        copy_formula(alloc, self)
    }
}

#[cycle(copy_formula)]
fn copy_formula(alloc: Global, f: &Formula) -> Result<Formula, AllocError>
    ensures { IfOk result (λ g. ctl_of g ≡ ctl_of f.now) }
{
    match f {
        Formula::Leaf(e) => Ok(Formula::Leaf(e.copy(alloc)?)),
        Formula::Not(f) => Ok(Formula::Not(copy_boxed(alloc, f)?)),
        Formula::And(f, g) => {
            let f = copy_boxed(alloc, f)?;
            let g = copy_boxed(alloc, g)?;
            Ok(Formula::And(f, g))
        }
        Formula::Or(f, g) => {
            let f = copy_boxed(alloc, f)?;
            let g = copy_boxed(alloc, g)?;
            Ok(Formula::Or(f, g))
        }
        Formula::Implies(f, g) => {
            let f = copy_boxed(alloc, f)?;
            let g = copy_boxed(alloc, g)?;
            Ok(Formula::Implies(f, g))
        }
        Formula::Iff(f, g) => {
            let f = copy_boxed(alloc, f)?;
            let g = copy_boxed(alloc, g)?;
            Ok(Formula::Iff(f, g))
        }
        Formula::Quant(op, f) => Ok(Formula::Quant(*op, copy_boxed(alloc, f)?)),
        Formula::Until(all, f, g) => {
            let f = copy_boxed(alloc, f)?;
            let g = copy_boxed(alloc, g)?;
            Ok(Formula::Until(*all, f, g))
        }
    }
}

#[cycle(copy_formula)]
fn copy_boxed(alloc: Global, f: &Formula) -> Result<Box<Formula>, AllocError>
    ensures { IfOk result (λ g. ctl_of g.value ≡ ctl_of f.now) }
{
    Ok(Box::new(alloc, copy_formula(alloc, f)?)?)
}
