//! The variables that an assignment's variable depends on.

ghost use Rattle.std.specs.Prelude.{◌≡◌, ◌++◌, OnOk};
ghost use Rattle.kripke_model.specs.Reading.{term_of, terms_in, arms_in};
ghost use Rattle.kripke_model.specs.Static.{variables_in, variables_in_elements, variables_in_arms};
ghost use Rattle.smv_static.specs.Targets.{next_variables_in, next_variables_in_elements, next_variables_in_arms, targets_of};

use crate::numbers::Row;
use kripke_model::expressions::{Arm, Expr};
use kripke_model::models::{Assign, Part};
use std::alloc::AllocError;

/// Appends the variables in the expression.
#[cycle(variables)]
fn push_variables(expr: &Expr, row: &mut Row) -> Result<(), AllocError>
    ensures { OnOk result (row.new ≡ row.old ++ variables_in (term_of expr.now)) }
{
    match expr {
        Expr::Const(_) | Expr::Running(_) => Ok(()),
        Expr::Var(x) => row.push(*x),
        Expr::Next(e) => push_variables(e, row),
        Expr::Not(e) => push_variables(e, row),
        Expr::Binary(_, a, b) => {
            push_variables(a, row)?;
            push_variables(b, row)
        }
        Expr::Braces(elements) => push_element_variables(elements, row),
        Expr::Case(arms) => push_arm_variables(arms, row),
        Expr::Quant(_, e) => push_variables(e, row),
        Expr::Until(_, a, b) => {
            push_variables(a, row)?;
            push_variables(b, row)
        }
    }
}

#[cycle(variables)]
fn push_element_variables(elements: &[Expr], row: &mut Row) -> Result<(), AllocError>
    ensures { OnOk result (row.new ≡ row.old ++ variables_in_elements (terms_in elements.now)) }
{
    for e in elements {
        push_variables(e, row)?;
    }
    Ok(())
}

#[cycle(variables)]
fn push_arm_variables(arms: &[Arm], row: &mut Row) -> Result<(), AllocError>
    ensures { OnOk result (row.new ≡ row.old ++ variables_in_arms (arms_in arms.now)) }
{
    for arm in arms {
        push_variables(&arm.guard, row)?;
        push_variables(&arm.right, row)?;
    }
    Ok(())
}

/// Appends the variables under `next` in the expression.
#[cycle(next_variables)]
fn push_next_variables(expr: &Expr, row: &mut Row) -> Result<(), AllocError>
    ensures { OnOk result (row.new ≡ row.old ++ next_variables_in (term_of expr.now)) }
{
    match expr {
        Expr::Const(_) | Expr::Running(_) | Expr::Var(_) => Ok(()),
        Expr::Next(e) => push_variables(e, row),
        Expr::Not(e) => push_next_variables(e, row),
        Expr::Binary(_, a, b) => {
            push_next_variables(a, row)?;
            push_next_variables(b, row)
        }
        Expr::Braces(elements) => push_next_element_variables(elements, row),
        Expr::Case(arms) => push_next_arm_variables(arms, row),
        Expr::Quant(_, e) => push_next_variables(e, row),
        Expr::Until(_, a, b) => {
            push_next_variables(a, row)?;
            push_next_variables(b, row)
        }
    }
}

#[cycle(next_variables)]
fn push_next_element_variables(elements: &[Expr], row: &mut Row) -> Result<(), AllocError>
    ensures { OnOk result
        (row.new ≡ row.old ++ next_variables_in_elements (terms_in elements.now)) }
{
    for e in elements {
        push_next_variables(e, row)?;
    }
    Ok(())
}

#[cycle(next_variables)]
fn push_next_arm_variables(arms: &[Arm], row: &mut Row) -> Result<(), AllocError>
    ensures { OnOk result (row.new ≡ row.old ++ next_variables_in_arms (arms_in arms.now)) }
{
    for arm in arms {
        push_next_variables(&arm.guard, row)?;
        push_next_variables(&arm.right, row)?;
    }
    Ok(())
}

/// Appends what the assignment's variable depends on: the variables of the right side, for `next` those under `next`.
pub fn push_targets(assign: &Assign, row: &mut Row) -> Result<(), AllocError>
    ensures { OnOk result (row.new ≡ row.old ++ targets_of assign.now) }
{
    match assign.part {
        Part::Init => push_variables(&assign.right, row),
        Part::Now => push_variables(&assign.right, row),
        Part::Next => push_next_variables(&assign.right, row),
    }
}
