//! The regions of an expression's values and faults.

ghost use Rattle.std.specs.Prelude.{◌≡◌, ◌≤◌, ◌+◌, ◌*◌, ◌^◌, ◌++◌, IfOk, OnOk, length};
ghost use Rattle.bdd_nodes.specs.Store.{levels_of, triples};
ghost use Rattle.bdd_ops.specs.Engine.{store_of, capacity_of, lists_of, refused_of};
ghost use Rattle.variable_codes.specs.LaidOut.{LaidOut};
ghost use Rattle.kripke_model.specs.Evaluable.{IsEvaluable};
ghost use Rattle.kripke_model.specs.Reading.{term_of};
ghost use Rattle.kripke_model.specs.Size.{term_nodes};
ghost use Rattle.value_tables.specs.Regions.{rows_of, faults_of, rows_in, faults_in, AreRegions};
ghost use Rattle.bdd_ops.specs.Kept.{IsStoreCall};

use crate::build::build;
use crate::cells::Cell;
use bdd_nodes::{Ref, Steps, StoreRefusal};
use bdd_ops::Engine;
use bit_encode::layout::Layout;
use kripke_model::expressions::{Expr, FaultKind, Value};
use kripke_model::models::Ruled;
use std::alloc::{AllocError, Global};
use std::sync::ledger::Ledger;

/// A value with the region of pairs of states where an expression has it among its values.
#[derive(Clone, Copy)]
pub struct Row {
    pub value: Value,
    pub region: Ref,
}

/// A fault with the region of pairs of states where it is the expression's.
#[derive(Clone, Copy)]
pub struct FaultRow {
    pub kind: FaultKind,
    pub region: Ref,
}

/// The values and the faults of an expression with their regions.
#[derive(Drop)]
pub struct Regions {
    /// One row for each value, with a region that is not empty.
    pub rows: Vec<Row>,
    /// One row for each fault, with a region that is not empty.
    pub faults: Vec<FaultRow>,
}

/// Adds the row of a cell, to those of values or to those of faults.
fn add_row(rows: &mut Vec<Row>, faults: &mut Vec<FaultRow>, cell: &Cell) -> Result<(), AllocError>
    ensures rows { OnOk result (rows.new.items ≡ rows.old.items ++ rows_of cell.now.reading
        cell.now.region) }
    ensures faults { OnOk result (faults.new.items ≡ faults.old.items ++ faults_of cell.now.reading
        cell.now.region) }
{
    let region = cell.region;
    match cell.reading {
        Ok(value) => {
            rows.push(Row { value, region })?;
        }
        Err(kind) => {
            faults.push(FaultRow { kind, region })?;
        }
    }
    Ok(())
}

/// The cells of values and those of faults.
fn regions_of(alloc: Global, cells: &[Cell]) -> Result<Regions, AllocError>
    ensures rows { IfOk result (λ t. t.rows.items ≡ rows_in cells.now) }
    ensures faults { IfOk result (λ t. t.faults.items ≡ faults_in cells.now) }
{
    let mut rows = Vec::new(alloc);
    let mut faults = Vec::new(alloc);
    for cell in cells {
        add_row(&mut rows, &mut faults, cell)?;
    }
    Ok(Regions { rows, faults })
}

/// The regions of an expression's values and faults over pairs of states: a region has value 1 at the bits of a pair
/// (the current state's at even levels, the next state's at odd ones) exactly where the expression has the value, or
/// the fault. A step is one recursive call of a diagram operation.
pub fn table<L: Ledger>(
    alloc: Global,
    engine: &mut Engine,
    layout: &Layout,
    model: &Ruled,
    expr: &Expr,
    steps: &mut Steps<L>,
) -> Result<Regions, StoreRefusal>
    requires evaluable { IsEvaluable model.now (term_of expr.now) }
    requires laid { LaidOut layout.now model.now (store_of engine.old) }
    ensures regions { IfOk result (λ t. AreRegions (store_of engine.new) layout.now model.now
        (term_of expr.now) t.rows.items t.faults.items) }
    ensures few { IfOk result (λ t. length t.rows.items + length t.faults.items
        ≤ term_nodes (term_of expr.now) * 2 ^ levels_of (store_of engine.old)) }
    ensures call { IsStoreCall engine.old engine.new result }
    // at each list of the levels' bits an expression of n nodes has at most n readings
    ensures growth { length (triples (store_of engine.new)) ≤ length (triples (store_of engine.old))
        + 16 * (term_nodes (term_of expr.now) + 1) ^ 2 * 4 ^ levels_of (store_of engine.old) }
    ensures refused { refused_of engine.old ≤ refused_of engine.new }
    ensures lists { lists_of engine.new ≡ lists_of engine.old }
    ensures capacity { capacity_of engine.new ≡ capacity_of engine.old }
    ensures counted { steps.old ≤ steps.new }
{
    layout.codes_law();
    layout.places_law();
    let table = build(alloc, engine, layout, model, expr, false, steps)?;
    let Ok(regions) = regions_of(alloc, &table.cells) else {
        return Err(StoreRefusal::Memory);
    };
    Ok(regions)
}
