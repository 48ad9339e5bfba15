//! The items of the flat model.

ghost use Rattle.std.specs.Prelude.{◌≡◌, ◌≤◌, ◌++◌, ◌∷◌, [], All, IfOk, List, Some};
ghost use Rattle.kripke_model.specs.Size.{nesting};
ghost use Rattle.kripke_model.specs.Term.{Term};
ghost use Rattle.smv_instances.specs.Abstract.{part as plain_part};
ghost use Rattle.smv_instances.specs.Instances.{Scope};
ghost use Rattle.smv_instances.specs.Numbered.{scope_at};
ghost use Rattle.smv_instances.specs.Plain.{plain_expr};
ghost use Rattle.smv_instances.specs.Program.{Program as Plain, Stated};
ghost use Rattle.smv_names.specs.Expands.{Expands};
ghost use Rattle.smv_instantiate.specs.Flattens.{IsAssignment, IsCondition, Placed, all_items};
ghost use Rattle.smv_instantiate.specs.Flattens.Item.{Assigns, States};
ghost use Rattle.smv_instantiate.specs.Items.{kind_of, plain_assigned, plain_item};
ghost use Rattle.smv_instantiate.specs.Parts.{AreParts};
ghost use Rattle.smv_instantiate.specs.Passes.{AreTables, IsExpandable, placed};
ghost use Rattle.smv_instantiate.specs.Written.{IsWrittenExpr};

use crate::expansion::{expand, selected};
use crate::items::{Item, items_of};
use crate::totals::MOST_NESTING;
use kripke_model::models::{Assign, Item as FlatItem, Part};
use smv_instances::Instances;
use smv_names::Paths;
use smv_parser::{Assignment, Condition, Expr, LeftKind};
use std::alloc::{AllocError, Global};

/// The items of a flat model, each list in instantiation order.
#[derive(Drop)]
pub struct FlatParts {
    pub assigns: Vec<Assign>,
    pub inits: Vec<FlatItem>,
    pub invars: Vec<FlatItem>,
    pub trans: Vec<FlatItem>,
    pub constraints: Vec<FlatItem>,
    pub specs: Vec<FlatItem>,
}

/// What an assignment ties.
fn part_of(kind: LeftKind) -> Part
    ensures { result ≡ plain_part kind }
{
    match kind {
        LeftKind::Current => Part::Now,
        LeftKind::Init => Part::Init,
        LeftKind::Next => Part::Next,
    }
}

/// The flat assignment of an assignment in the body of an instance.
fn flat_assignment<'p>(
    alloc: Global,
    instances: &Instances<'p>,
    paths: &Paths<'p>,
    firsts: &[Option<u32>],
    i: usize,
    assignment: &'p Assignment,
) -> Result<Assign, AllocError>
    requires { (p : Plain) × (s : Scope) × AreTables p instances.now paths.now firsts.now
        × (scope_at p i ≡ Some s) × IsExpandable p (s, Assigns (plain_assigned assignment.now)) }
    ensures { (p : Plain) (s : Scope) → AreTables p instances.now paths.now firsts.now
        → scope_at p i ≡ Some s → IsExpandable p (s, Assigns (plain_assigned assignment.now))
        → IfOk result (IsAssignment p (s, Assigns (plain_assigned assignment.now))) }
{
    let Some(var) = selected(alloc, instances, paths, firsts, i, &assignment.left.path)? else {
        unreachable!()
    };
    let right = expand(
        alloc,
        instances,
        paths,
        firsts,
        i,
        &assignment.right,
        MOST_NESTING,
    )?;
    let process = instances.process(i);
    Ok(Assign {
        part: part_of(assignment.left.kind),
        var,
        process: process as u32,
        right,
        line: assignment.right.line,
    })
}

/// The flat condition of an expression in the body of an instance, with this line.
fn flat_condition<'p>(
    alloc: Global,
    instances: &Instances<'p>,
    paths: &Paths<'p>,
    firsts: &[Option<u32>],
    i: usize,
    expr: &'p Expr,
    line: u32,
) -> Result<FlatItem, AllocError>
    requires { (p : Plain) × (s : Scope) × (t : Term)
        × AreTables p instances.now paths.now firsts.now × (scope_at p i ≡ Some s)
        × IsWrittenExpr (plain_expr expr.now) × Expands p s (plain_expr expr.now) t
        × (nesting t ≤ 1024) }
    ensures { (p : Plain) (s : Scope) (t : Term) → AreTables p instances.now paths.now firsts.now
        → scope_at p i ≡ Some s → IsWrittenExpr (plain_expr expr.now)
        → Expands p s (plain_expr expr.now) t → nesting t ≤ 1024
        → IfOk result (λ c. (c.expr ≡ t) × (c.line ≡ line)) }
{
    let expr = expand(alloc, instances, paths, firsts, i, expr, MOST_NESTING)?;
    Ok(FlatItem { expr, line })
}

/// Adds a flat condition to those of its kind.
fn push_condition(
    condition: Condition,
    flat: FlatItem,
    parts: &mut FlatParts,
) -> Result<(), AllocError>
    ensures { (p : Plain) (items : List Placed) (s : Scope) (c : Stated)
        → c.kind ≡ kind_of condition → IsCondition p (s, States c) flat → AreParts p items parts.old
        → IfOk result (λ _. AreParts p (items ++ (s, States c) ∷ []) parts.new) }
{
    match condition {
        Condition::Init => {
            parts.inits.push(flat)?;
            Ok(())
        }
        Condition::Invar => {
            parts.invars.push(flat)?;
            Ok(())
        }
        Condition::Trans => {
            parts.trans.push(flat)?;
            Ok(())
        }
        Condition::Spec => {
            parts.specs.push(flat)?;
            Ok(())
        }
        Condition::Fairness => {
            parts.constraints.push(flat)?;
            Ok(())
        }
    }
}

/// Adds an item in the body of an instance.
fn push_item<'p>(
    alloc: Global,
    instances: &Instances<'p>,
    paths: &Paths<'p>,
    firsts: &[Option<u32>],
    i: usize,
    item: &Item<'p>,
    parts: &mut FlatParts,
) -> Result<(), AllocError>
    requires { (p : Plain) × (s : Scope) × AreTables p instances.now paths.now firsts.now
        × (scope_at p i ≡ Some s) × IsExpandable p (s, plain_item item.now) }
    ensures { (p : Plain) (s : Scope) (before : List Placed)
        → AreTables p instances.now paths.now firsts.now → scope_at p i ≡ Some s
        → IsExpandable p (s, plain_item item.now) → AreParts p before parts.old
        → IfOk result (λ _. AreParts p (before ++ (s, plain_item item.now) ∷ []) parts.new) }
{
    match item {
        Item::Assigns(assignment) => {
            let flat = flat_assignment(alloc, instances, paths, firsts, i, *assignment)?;
            parts.assigns.push(flat)?;
            Ok(())
        }
        Item::States {
            condition,
            expr,
            ..
        } => {
            let line = item.line();
            let flat = flat_condition(alloc, instances, paths, firsts, i, *expr, line)?;
            push_condition(*condition, flat, parts)
        }
    }
}

/// Adds the items of an instance.
fn push_body<'p>(
    alloc: Global,
    instances: &Instances<'p>,
    paths: &Paths<'p>,
    firsts: &[Option<u32>],
    i: usize,
    items: &[Item<'p>],
    parts: &mut FlatParts,
) -> Result<(), AllocError>
    requires { (p : Plain) × (s : Scope) × AreTables p instances.now paths.now firsts.now
        × (scope_at p i ≡ Some s) × All (IsExpandable p) (placed s items.now) }
    ensures { (p : Plain) (s : Scope) (before : List Placed)
        → AreTables p instances.now paths.now firsts.now → scope_at p i ≡ Some s
        → All (IsExpandable p) (placed s items.now) → AreParts p before parts.old
        → IfOk result (λ _. AreParts p (before ++ placed s items.now) parts.new) }
{
    for item in items {
        push_item(alloc, instances, paths, firsts, i, item, parts)?;
    }
    Ok(())
}

fn no_parts(alloc: Global) -> FlatParts
    ensures { (p : Plain) → AreParts p [] result }
{
    FlatParts {
        assigns: Vec::new(alloc),
        inits: Vec::new(alloc),
        invars: Vec::new(alloc),
        trans: Vec::new(alloc),
        constraints: Vec::new(alloc),
        specs: Vec::new(alloc),
    }
}

/// The items of all instances.
pub fn parts_of<'p>(
    alloc: Global,
    instances: &Instances<'p>,
    paths: &Paths<'p>,
    firsts: &[Option<u32>],
) -> Result<FlatParts, AllocError>
    requires { (p : Plain) × AreTables p instances.now paths.now firsts.now
        × All (IsExpandable p) (all_items p) }
    ensures { (p : Plain) → AreTables p instances.now paths.now firsts.now
        → All (IsExpandable p) (all_items p) → IfOk result (AreParts p (all_items p)) }
{
    let mut parts = no_parts(alloc);
    for i in 0..instances.len() {
        let items = items_of(alloc, instances.module(i))?;
        push_body(alloc, instances, paths, firsts, i, &items, &mut parts)?;
    }
    Ok(parts)
}
