//! The formulas of expressions.

ghost use Rattle.std.specs.Prelude.{◌≡◌, true, false, All, IfOk, IsTrue, MatchResult, map};
ghost use Rattle.kripke_model.specs.Ctl.{Ctl, formula_of as formula_of_term};
ghost use Rattle.kripke_model.specs.Reading.{term_of};
ghost use Rattle.kripke_model.specs.Static.{is_connective, is_formula};
ghost use Rattle.kripke_model.specs.WellFormed.{ctl_of};
ghost use Rattle.smv_static.specs.Leaves.{negation, connected, joined, joined_leaf};
ghost use Rattle.kripke_model.specs.Leaves.{is_leaf};

use crate::operators::connects;
use kripke_model::expressions::{BinOp, Expr, Formula};
use kripke_model::models::Item;
use std::alloc::{AllocError, Global};

/// The leaf that the formula is, or else the formula.
fn as_leaf(f: Formula) -> Result<Expr, Formula>
    ensures leaf { MatchResult result (λ e. ctl_of f ≡ Ctl.Leaf (term_of e))
        (λ g. ctl_of g ≡ ctl_of f) }
    ensures other { MatchResult result (λ e. is_leaf (ctl_of f) ≡ true)
        (λ g. is_leaf (ctl_of f) ≡ false) }
{
    match f {
        Formula::Leaf(e) => Ok(e),
        Formula::Not(f) => Err(Formula::Not(f)),
        Formula::And(f, g) => Err(Formula::And(f, g)),
        Formula::Or(f, g) => Err(Formula::Or(f, g)),
        Formula::Implies(f, g) => Err(Formula::Implies(f, g)),
        Formula::Iff(f, g) => Err(Formula::Iff(f, g)),
        Formula::Quant(op, f) => Err(Formula::Quant(op, f)),
        Formula::Until(all, f, g) => Err(Formula::Until(all, f, g)),
    }
}

/// `!` before the formula.
fn negated(alloc: Global, f: Formula) -> Result<Formula, AllocError>
    ensures { IfOk result (λ g. ctl_of g ≡ negation (ctl_of f)) }
{
    match as_leaf(f) {
        Ok(e) => Ok(Formula::Leaf(Expr::Not(Box::new(alloc, e)?))),
        Err(f) => Ok(Formula::Not(Box::new(alloc, f)?)),
    }
}

/// The connective between two formulas.
fn connected(alloc: Global, op: BinOp, f: Formula, g: Formula) -> Result<Formula, AllocError>
    requires { IsTrue (is_connective op) }
    ensures { IfOk result (λ h. ctl_of h ≡ connected op (ctl_of f) (ctl_of g)) }
{
    let f = Box::new(alloc, f)?;
    let g = Box::new(alloc, g)?;
    match op {
        BinOp::And => Ok(Formula::And(f, g)),
        BinOp::Or => Ok(Formula::Or(f, g)),
        BinOp::Implies => Ok(Formula::Implies(f, g)),
        BinOp::Iff => Ok(Formula::Iff(f, g)),
        BinOp::Mul
        | BinOp::Div
        | BinOp::Add
        | BinOp::Sub
        | BinOp::Mod
        | BinOp::Union
        | BinOp::Member
        | BinOp::Eq
        | BinOp::Lt
        | BinOp::Gt
        | BinOp::Le
        | BinOp::Ge => unreachable!(),
    }
}

fn joined_leaf(alloc: Global, op: BinOp, a: Expr, g: Formula) -> Result<Formula, AllocError>
    requires { IsTrue (is_connective op) }
    ensures { IfOk result (λ h. ctl_of h ≡ joined_leaf op (term_of a) (ctl_of g)) }
{
    match as_leaf(g) {
        Ok(b) => {
            let a = Box::new(alloc, a)?;
            let b = Box::new(alloc, b)?;
            Ok(Formula::Leaf(Expr::Binary(op, a, b)))
        }
        Err(g) => connected(alloc, op, Formula::Leaf(a), g),
    }
}

/// The connective between two formulas, which is a leaf where both are.
fn joined(alloc: Global, op: BinOp, f: Formula, g: Formula) -> Result<Formula, AllocError>
    requires { IsTrue (is_connective op) }
    ensures { IfOk result (λ h. ctl_of h ≡ joined op (ctl_of f) (ctl_of g)) }
{
    match as_leaf(f) {
        Ok(a) => joined_leaf(alloc, op, a, g),
        Err(f) => connected(alloc, op, f, g),
    }
}

/// The formula of an expression.
fn formula_of(alloc: Global, expr: &Expr) -> Result<Formula, AllocError>
    requires { is_formula (term_of expr.now) ≡ true }
    ensures { IfOk result (λ f. ctl_of f ≡ formula_of_term (term_of expr.now)) }
{
    match expr {
        Expr::Not(e) => negated(alloc, formula_of(alloc, e)?),
        Expr::Binary(op, a, b) => {
            if connects(*op) {
                let f = formula_of(alloc, a)?;
                let g = formula_of(alloc, b)?;
                joined(alloc, *op, f, g)
            } else {
                Ok(Formula::Leaf(expr.copy(alloc)?))
            }
        }
        Expr::Quant(op, e) => {
            let f = Box::new(alloc, formula_of(alloc, e)?)?;
            Ok(Formula::Quant(*op, f))
        }
        Expr::Until(all, a, b) => {
            let f = Box::new(alloc, formula_of(alloc, a)?)?;
            let g = Box::new(alloc, formula_of(alloc, b)?)?;
            Ok(Formula::Until(*all, f, g))
        }
        Expr::Const(_)
        | Expr::Var(_)
        | Expr::Running(_)
        | Expr::Next(_)
        | Expr::Braces(_)
        | Expr::Case(_) => Ok(Formula::Leaf(expr.copy(alloc)?)),
    }
}

fn formula_of_item(alloc: Global, item: &Item) -> Result<Formula, AllocError>
    requires { is_formula item.now.expr ≡ true }
    ensures { IfOk result (λ f. ctl_of f ≡ formula_of_term item.now.expr) }
{
    formula_of(alloc, &item.expr)
}

/// The formulas of items.
pub fn formulas_of(alloc: Global, items: &[Item]) -> Result<Vec<Formula>, AllocError>
    requires { All (λ c. is_formula c.expr ≡ true) items.now }
    ensures { IfOk result (λ v. map ctl_of v.items ≡ map (λ c. formula_of_term c.expr) items.now) }
{
    let mut formulas = Vec::new(alloc);
    for item in items {
        formulas.push(formula_of_item(alloc, item)?)?;
    }
    Ok(formulas)
}
