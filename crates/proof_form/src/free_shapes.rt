//! The shape of a proof's free part.

ghost use Rattle.std.specs.Prelude.{◌≡◌, ◌↔◌, All, AllPairs, IfOk, IsTrue, map};
ghost use Rattle.kripke_model.specs.Ctl.{formula_of};
ghost use Rattle.kripke_model.specs.WellFormed.{ctl_of};
ghost use Rattle.proof_form.specs.Shape.{FitsConstraints, FitsFreely, HasConstraintRule, IsFreeInShape, StandsBefore};
ghost use Rattle.proof_form.specs.ShapeParts.{AreTables, IsFreelyLaidOut};

use crate::form::{FreeEntry, FreePart};
use crate::preorder::{Node, nodes_of};
use crate::shapes::{all_avoid, comes_before, has_rule, is_fitting, reaches_each};
use kripke_model::expressions::Formula;
use kripke_model::models::Ruled;
use single_states::steps::has_leaf_constraints;
use std::alloc::{AllocError, Global};

/// Whether a comes before b: by constraint, by node, and `+` before `-`.
pub fn stands_before<T>(a: &FreeEntry<T>, b: &FreeEntry<T>) -> bool
    ensures { IsTrue result ↔ StandsBefore a.now b.now }
{
    a.constraint < b.constraint
        || (a.constraint == b.constraint && comes_before(&a.entry, &b.entry))
}

/// Whether each entry comes before all later ones.
fn are_rising<T>(entries: &[FreeEntry<T>]) -> bool
    ensures { IsTrue result ↔ AllPairs StandsBefore entries.now }
{
    for i in 1..entries.len() {
        if !stands_before(&entries[i - 1], &entries[i]) {
            return false;
        }
    }
    true
}

/// Whether what each entry gives fits one constraint.
fn are_fitting<T>(entries: &[FreeEntry<T>]) -> bool
    ensures { IsTrue result ↔ All (λ e. FitsConstraints 1 e.entry.rule) entries.now }
{
    for free in entries {
        if !is_fitting(&free.entry.rule, 1) {
            return false;
        }
    }
    true
}

/// Whether the entries rise, and all that the part gives fits one constraint.
fn is_laid_out<T>(part: &FreePart<T>) -> bool
    ensures { IsTrue result ↔ IsFreelyLaidOut part.now }
{
    if !are_rising(&part.entries) {
        return false;
    }
    if !all_avoid(&part.nonfair, 1) {
        return false;
    }
    if !reaches_each(&part.fair, 1) {
        return false;
    }
    are_fitting(&part.entries)
}

/// The nodes of each formula.
pub fn tables_of(alloc: Global, formulas: &[Formula]) -> Result<Vec<Vec<Node<'_>>>, AllocError>
    ensures { IfOk result (λ tables. AreTables formulas.now tables.items) }
{
    let mut tables = Vec::new(alloc);
    for formula in formulas {
        tables.push(nodes_of(alloc, formula)?)?;
    }
    Ok(tables)
}

/// Whether the entry names a temporal node of a constraint's formula, and has the rule of its sign. The tables are of
/// the constraints' formulas.
pub fn has_constraint_rule<T>(
    model: &Ruled,
    formulas: &[Formula],
    tables: &[Vec<Node<'_>>],
    free: &FreeEntry<T>,
) -> bool
    requires formulas { map ctl_of formulas.now ≡ map (λ c. formula_of c.expr)
        model.now.constraints }
    requires tables { AreTables formulas.now tables.now }
    ensures { IsTrue result ↔ HasConstraintRule model.now free.now }
{
    let number = free.constraint as usize;
    if number == 0 {
        return false;
    }
    if number > tables.len() {
        return false;
    }
    has_rule(&formulas[number - 1], &tables[number - 1], &free.entry)
}

/// Whether each entry has a rule of its constraint's formula.
fn have_constraint_rules<T>(
    alloc: Global,
    model: &Ruled,
    entries: &[FreeEntry<T>],
) -> Result<bool, AllocError>
    ensures { IfOk result (λ yes. IsTrue yes ↔ All (HasConstraintRule model.now) entries.now) }
{
    let formulas = model.fair();
    let tables = tables_of(alloc, formulas)?;
    for free in entries {
        if !has_constraint_rule(model, formulas, &tables, free) {
            return Ok(false);
        }
    }
    Ok(true)
}

/// Whether the part has the shape of one for a model some constraint of which holds a path operator.
fn is_free_in_shape<T>(alloc: Global, model: &Ruled, part: &FreePart<T>) -> Result<bool, AllocError>
    ensures { IfOk result (λ yes. IsTrue yes ↔ IsFreeInShape model.now part.now) }
{
    if !is_laid_out(part) {
        return Ok(false);
    }
    have_constraint_rules(alloc, model, &part.entries)
}

/// Whether a free part is there exactly where some constraint holds a path operator, and in shape.
pub fn fits_freely<T>(
    alloc: Global,
    model: &Ruled,
    part: &Option<FreePart<T>>,
) -> Result<bool, AllocError>
    ensures { IfOk result (λ yes. IsTrue yes ↔ FitsFreely model.now part.now) }
{
    let leaves = has_leaf_constraints(model);
    match part {
        None => Ok(leaves),
        Some(part) => {
            if leaves {
                return Ok(false);
            }
            is_free_in_shape(alloc, model, part)
        }
    }
}
