//! The rules on what may stand in an item: where `next` is allowed, and where path operators are.

ghost use Rattle.std.specs.Prelude.{◌≡◌, ◌↔◌, OnOk, IfErr, IsTrue};
ghost use Rattle.kripke_model.specs.Reading.{term_of};
ghost use Rattle.kripke_model.specs.Refusing.{Silent};
ghost use Rattle.kripke_model.specs.Static.{HasNext, HasNextInNext};
ghost use Rattle.smv_static.specs.Sections.{IsWrong, IsWrongIn, refusal, assignments_rule, conditions_rule, items_rule};

use crate::operators::{is_formula, uses_inner_next, uses_path_operator};
use crate::parts::{
    assigns_of, constraints_of, inits_of, invars_of, line_of, line_of_assign, specs_of, trans_of,
};
use kripke_model::expressions::Expr;
use kripke_model::models::{Assign, FlatModel, Item, Part};
use kripke_model::refusals::StaticRefusal;

/// A rule on what may stand in an item.
#[derive(Clone, Copy)]
pub enum ItemRule {
    /// Where `next` may stand.
    Next,
    /// Where path operators may stand.
    Formula,
}

/// What an item speaks of.
#[derive(Clone, Copy)]
pub enum Section {
    /// A state: `INIT` and `INVAR`.
    State,
    /// A step: `TRANS`.
    Step,
    /// A formula: the constraints and the specifications.
    Formula,
}

fn holds_next(expr: &Expr) -> bool
    ensures { IsTrue result ↔ HasNext (term_of expr.now) }
{
    expr.uses_next()
}

fn holds_inner_next(expr: &Expr) -> bool
    ensures { IsTrue result ↔ HasNextInNext (term_of expr.now) }
{
    uses_inner_next(expr)
}

fn stands_wrong(section: Section, expr: &Expr) -> bool
    ensures { IsTrue result ↔ IsWrong ItemRule.Next section (term_of expr.now) }
{
    match section {
        Section::State => holds_next(expr),
        Section::Step => holds_inner_next(expr),
        Section::Formula => holds_next(expr),
    }
}

fn operates_wrong(section: Section, expr: &Expr) -> bool
    ensures { IsTrue result ↔ IsWrong ItemRule.Formula section (term_of expr.now) }
{
    match section {
        Section::State => uses_path_operator(expr),
        Section::Step => uses_path_operator(expr),
        Section::Formula => !is_formula(expr),
    }
}

/// Whether the rule refuses the item.
fn is_wrong(rule: ItemRule, section: Section, item: &Item) -> bool
    ensures { IsTrue result ↔ IsWrong rule section item.now.expr }
{
    match rule {
        ItemRule::Next => stands_wrong(section, &item.expr),
        ItemRule::Formula => operates_wrong(section, &item.expr),
    }
}

fn next_stands_wrong(assign: &Assign) -> bool
    ensures { IsTrue result ↔ IsWrongIn ItemRule.Next assign.now }
{
    holds_inner_next(&assign.right) || assign.part != Part::Next && holds_next(&assign.right)
}

/// Whether the rule refuses the assignment.
fn is_wrong_in(rule: ItemRule, assign: &Assign) -> bool
    ensures { IsTrue result ↔ IsWrongIn rule assign.now }
{
    match rule {
        ItemRule::Next => next_stands_wrong(assign),
        ItemRule::Formula => uses_path_operator(&assign.right),
    }
}

fn refusal(rule: ItemRule, line: u32) -> StaticRefusal
    ensures { result ≡ refusal rule line }
{
    match rule {
        ItemRule::Next => StaticRefusal::NextNotAllowed { line },
        ItemRule::Formula => StaticRefusal::FormulaNotAllowed { line },
    }
}

/// Refuses the first item that the rule refuses.
fn refuse_items(items: &[Item], rule: ItemRule, section: Section) -> Result<(), StaticRefusal>
    ensures ok { OnOk result (Silent (conditions_rule rule section items.now)) }
    ensures err { IfErr result (conditions_rule rule section items.now) }
{
    for item in items {
        if is_wrong(rule, section, item) {
            return Err(refusal(rule, line_of(item)));
        }
    }
    Ok(())
}

/// Refuses the first assignment that the rule refuses.
fn refuse_assigns(assigns: &[Assign], rule: ItemRule) -> Result<(), StaticRefusal>
    ensures ok { OnOk result (Silent (assignments_rule rule assigns.now)) }
    ensures err { IfErr result (assignments_rule rule assigns.now) }
{
    for assign in assigns {
        if is_wrong_in(rule, assign) {
            return Err(refusal(rule, line_of_assign(assign)));
        }
    }
    Ok(())
}

/// Refuses the first item of the model, in flat order, that the rule refuses.
pub fn check_items(flat: &FlatModel, rule: ItemRule) -> Result<(), StaticRefusal>
    ensures ok { OnOk result (Silent (items_rule rule flat.now)) }
    ensures err { IfErr result (items_rule rule flat.now) }
{
    refuse_assigns(assigns_of(flat), rule)?;
    refuse_items(inits_of(flat), rule, Section::State)?;
    refuse_items(invars_of(flat), rule, Section::State)?;
    refuse_items(trans_of(flat), rule, Section::Step)?;
    refuse_items(constraints_of(flat), rule, Section::Formula)?;
    refuse_items(specs_of(flat), rule, Section::Formula)
}
