//! The table of an expression, by recursion.

ghost use Rattle.std.specs.Prelude.{◌≡◌, ◌<◌, ◌+◌, ◌^◌, ◌&&◌, ◌||◌, true, List, Bool, IfOk, OnOk, length};
ghost use Rattle.bdd_nodes.specs.Store.{Has, value_of, levels_of};
ghost use Rattle.bdd_ops.specs.Engine.{store_of};
ghost use Rattle.variable_codes.specs.LaidOut.{LaidOut};
ghost use Rattle.kripke_model.specs.Evaluable.{IsEvaluable, AreEvaluable, AreEvaluableArms};
ghost use Rattle.kripke_model.specs.Reading.{term_of, terms_in, arms_in};
ghost use Rattle.kripke_model.specs.Size.{term_nodes, element_nodes, arm_nodes};
ghost use Rattle.value_tables.specs.Work.{IsWork, Spends, allowance, list_allowance};
ghost use Rattle.value_tables.specs.States.{meaning_of, elements_meaning, arms_meaning};
ghost use Rattle.kripke_model.specs.declared.expressions.Value.{Value as Values};
ghost use Rattle.kripke_model.specs.Evaluation.{Checked};
ghost use Rattle.value_tables.specs.Cells.{shows, AreCells};
ghost use Rattle.value_tables.specs.Tables.{IsTable, IsSetTable, guard_of, arm_shows, goes_on};

use crate::binary::binary_of;
use crate::cell_lists::CellList;
use crate::cells::add;
use crate::operands::Table;
use crate::operators::everywhere;
use crate::pick::truth;
use crate::sets::{add_arm, negated, united};
use crate::variables::{running, variable};
use bdd_nodes::{Ref, Steps, StoreRefusal};
use bdd_ops::Engine;
use bit_encode::layout::Layout;
use kripke_model::expressions::{Arm, Expr, FaultKind};
use kripke_model::models::Ruled;
use std::alloc::Global;
use std::sync::ledger::Ledger;

/// The table of an expression, read in the next state alone where `next` says so.
#[cycle(build)]
pub(crate) fn build<L: Ledger>(
    alloc: Global,
    engine: &mut Engine,
    layout: &Layout,
    model: &Ruled,
    expr: &Expr,
    next: bool,
    steps: &mut Steps<L>,
) -> Result<Table, StoreRefusal>
    requires evaluable { IsEvaluable model.now (term_of expr.now) }
    requires laid { LaidOut layout.now model.now (store_of engine.old) }
    ensures table { IfOk result (λ t. IsTable (store_of engine.new) t.cells.items t.single
        (meaning_of layout.now model.now next (term_of expr.now))) }
    ensures call { IsWork engine.old engine.new steps.old steps.new result }
    ensures spends { Spends (allowance (term_nodes (term_of expr.now))
        (2 ^ levels_of (store_of engine.old))) (store_of engine.old) (store_of engine.new) }
{
    match expr {
        Expr::Const(value) => everywhere(alloc, engine, Ok(*value)),
        Expr::Var(x) => variable(alloc, engine, layout, model, *x, next, steps),
        Expr::Running(p) => running(alloc, engine, layout, model, *p, next, steps),
        Expr::Next(e) => build(alloc, engine, layout, model, e, true, steps),
        Expr::Not(e) => {
            let operand = build(alloc, engine, layout, model, e, next, steps)?;
            negated(alloc, engine, &operand, steps)
        }
        Expr::Binary(op, a, b) => {
            let left = build(alloc, engine, layout, model, a, next, steps)?;
            let right = build(alloc, engine, layout, model, b, next, steps)?;
            binary_of(alloc, engine, *op, &left, &right, steps)
        }
        // Braces may stand in braces as deep as an expression may go. Those of one element have its
        // values, so its table is theirs, and it is made with no call between.
        Expr::Braces(elements) if elements.len() == 1 => {
            build(alloc, engine, layout, model, &elements[0], next, steps)
        }
        Expr::Braces(elements) => {
            let cells = build_elements(alloc, engine, layout, model, elements, next, steps)?;
            Ok(Table {
                cells,
                single: false,
            })
        }
        Expr::Case(arms) => build_arms(alloc, engine, layout, model, arms, next, steps),
        Expr::Quant(_, _) | Expr::Until(_, _, _) => {
            everywhere(alloc, engine, Err(FaultKind::NotBoolean))
        }
    }
}

// Where elements are united one after another, each copies the table so far. In halves a cell is copied once for each
// halving.
/// The values of all elements of a set.
#[cycle(build)]
fn build_elements<L: Ledger>(
    alloc: Global,
    engine: &mut Engine,
    layout: &Layout,
    model: &Ruled,
    elements: &[Expr],
    next: bool,
    steps: &mut Steps<L>,
) -> Result<CellList, StoreRefusal>
    requires some { 0 < length elements.now }
    requires evaluable { AreEvaluable model.now (terms_in elements.now) }
    requires laid { LaidOut layout.now model.now (store_of engine.old) }
    ensures table { IfOk result (λ cells. IsSetTable (store_of engine.new) cells.items
        (elements_meaning layout.now model.now next (terms_in elements.now))) }
    ensures call { IsWork engine.old engine.new steps.old steps.new result }
    ensures spends { Spends (list_allowance (element_nodes (terms_in elements.now))
        (2 ^ levels_of (store_of engine.old))) (store_of engine.old) (store_of engine.new) }
{
    if elements.len() == 1 {
        let table = build(alloc, engine, layout, model, &elements[0], next, steps)?;
        return Ok(table.cells);
    }
    let (first, behind) = elements.split_at(elements.len() / 2);
    let left = build_elements(alloc, engine, layout, model, first, next, steps)?;
    let right = build_elements(alloc, engine, layout, model, behind, next, steps)?;
    united(alloc, engine, &left, &right, steps)
}

/// Adds what one arm of a `case` gives within the region that the arms before it left, and answers with the region
/// that it leaves.
#[cycle(build)]
fn build_arm<L: Ledger>(
    alloc: Global,
    engine: &mut Engine,
    layout: &Layout,
    model: &Ruled,
    arm: &Arm,
    next: bool,
    left: Ref,
    out: &mut CellList,
    steps: &mut Steps<L>,
) -> Result<Ref, StoreRefusal>
    requires guard { IsEvaluable model.now (term_of arm.now.guard) }
    requires right { IsEvaluable model.now (term_of arm.now.right) }
    requires laid { LaidOut layout.now model.now (store_of engine.old) }
    requires left { Has (store_of engine.old) left }
    requires out { AreCells (store_of engine.old) out.old.items }
    ensures cells { OnOk result (AreCells (store_of engine.new) out.new.items) }
    ensures has { IfOk result (Has (store_of engine.new)) }
    ensures shows { OnOk result ((bits : List Bool) (k : Checked Values)
        → shows (λ r. value_of (store_of engine.new) r bits) out.new.items k
        ≡ (shows (λ r. value_of (store_of engine.old) r bits) out.old.items k ||
        (value_of (store_of engine.old) left bits && arm_shows
        (guard_of (meaning_of layout.now model.now next (term_of arm.now.guard) bits))
        (meaning_of layout.now model.now next (term_of arm.now.right) bits) k))) }
    ensures rest { IfOk result (λ r. (bits : List Bool) → value_of (store_of engine.new) r bits
        ≡ (value_of (store_of engine.old) left bits && goes_on
        (guard_of (meaning_of layout.now model.now next (term_of arm.now.guard) bits)))) }
    ensures call { IsWork engine.old engine.new steps.old steps.new result }
    ensures spends { Spends (list_allowance (term_nodes (term_of arm.now.guard) + term_nodes
        (term_of arm.now.right)) (2 ^ levels_of (store_of engine.old))) (store_of engine.old)
        (store_of engine.new) }
{
    let guard = build(alloc, engine, layout, model, &arm.guard, next, steps)?;
    let right = build(alloc, engine, layout, model, &arm.right, next, steps)?;
    add_arm(alloc, engine, &guard, &right.cells, left, out, steps)
}

/// The table of a `case`.
#[cycle(build)]
fn build_arms<L: Ledger>(
    alloc: Global,
    engine: &mut Engine,
    layout: &Layout,
    model: &Ruled,
    arms: &[Arm],
    next: bool,
    steps: &mut Steps<L>,
) -> Result<Table, StoreRefusal>
    requires evaluable { AreEvaluableArms model.now (arms_in arms.now) }
    requires laid { LaidOut layout.now model.now (store_of engine.old) }
    ensures table { IfOk result (λ t. IsTable (store_of engine.new) t.cells.items t.single
        (arms_meaning layout.now model.now next (arms_in arms.now))) }
    ensures call { IsWork engine.old engine.new steps.old steps.new result }
    ensures spends { Spends (allowance (1 + arm_nodes (arms_in arms.now))
        (2 ^ levels_of (store_of engine.old))) (store_of engine.old) (store_of engine.new) }
{
    let mut cells = CellList::new(alloc);
    let mut left = Ref::TRUE;
    for arm in arms {
        left = build_arm(
            alloc, engine, layout, model, arm, next, left, &mut cells, steps,
        )?;
    }
    add(engine, &mut cells, Ok(truth(true)), left, steps)?;
    Ok(Table {
        cells,
        single: false,
    })
}
