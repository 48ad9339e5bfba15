//! Operators on two values: pairs of cells.

ghost use Rattle.std.specs.Prelude.{◌≡◌, ◌+◌, ◌*◌, ◌^◌, ◌||◌, ◌&&◌, true, List, IfOk, OnOk, All, length, Bool};
ghost use Rattle.bdd_nodes.specs.Store.{levels_of, Has, value_of};
ghost use Rattle.bdd_ops.specs.Engine.{store_of};
ghost use Rattle.kripke_model.specs.declared.expressions.Value.{Value as Values};
ghost use Rattle.kripke_model.specs.Evaluation.{Checked};
ghost use Rattle.value_tables.specs.declared.cells.Cell.{Cell as Cells};
ghost use Rattle.value_tables.specs.Work.{IsWork, Spends};
ghost use Rattle.value_tables.specs.Cells.{shows, any_cell, Reads, AreCells};
ghost use Rattle.value_tables.specs.Tables.{alone, pairs_to, paired};
ghost use Rattle.value_tables.specs.Weights.{weight, weights, AreApart};

use crate::cell_lists::CellList;
use crate::cells::Cell;
use crate::operands::{Table, faults_of};
use crate::pick::Pick;
use crate::spread::spread;
use bdd_nodes::{Steps, StoreRefusal};
use bdd_ops::Engine;
use kripke_model::expressions::BinOp;
use std::alloc::Global;
use std::sync::ledger::Ledger;

/// Adds the outcomes of one cell at the left with each value at the right.
fn pair_with<L: Ledger>(
    engine: &mut Engine,
    op: BinOp,
    cell: Cell,
    right: &[Cell],
    out: &mut CellList,
    steps: &mut Steps<L>,
) -> Result<(), StoreRefusal>
    requires cell { Has (store_of engine.old) cell.region }
    requires right { All (λ (c : Cells). Has (store_of engine.old) c.region) right.now }
    requires out { AreCells (store_of engine.old) out.old.items }
    ensures cells { OnOk result (AreCells (store_of engine.new) out.new.items) }
    ensures shows { OnOk result ((bits : List Bool) (k : Checked Values)
        → shows (λ r. value_of (store_of engine.new) r bits) out.new.items k
        ≡ (shows (λ r. value_of (store_of engine.old) r bits) out.old.items k || (pairs_to
        (λ r. value_of (store_of engine.old) r bits) op k right.now cell.reading && value_of
        (store_of engine.old) cell.region bits))) }
    ensures call { IsWork engine.old engine.new steps.old steps.new result }
    ensures thrifty { AreApart (store_of engine.old) right.now
        → OnOk result (Spends (2 * weight (store_of engine.old) cell.region) (store_of engine.old)
        (store_of engine.new)) }
    ensures frugal { AreApart (store_of engine.old) right.now
        → Spends (2 * weight (store_of engine.old) cell.region + 1) (store_of engine.old)
        (store_of engine.new) }
{
    match cell.reading {
        Ok(value) => spread(
            engine,
            right,
            Pick::With(op, value),
            cell.region,
            out,
            steps,
        ),
        Err(_) => Ok(()),
    }
}

/// Adds the outcomes of the pairs of values.
fn pair_up<L: Ledger>(
    engine: &mut Engine,
    op: BinOp,
    left: &[Cell],
    right: &[Cell],
    out: &mut CellList,
    steps: &mut Steps<L>,
) -> Result<(), StoreRefusal>
    requires left { All (λ (c : Cells). Has (store_of engine.old) c.region) left.now }
    requires right { All (λ (c : Cells). Has (store_of engine.old) c.region) right.now }
    requires out { AreCells (store_of engine.old) out.old.items }
    ensures cells { OnOk result (AreCells (store_of engine.new) out.new.items) }
    ensures shows { OnOk result ((bits : List Bool) (k : Checked Values)
        → shows (λ r. value_of (store_of engine.new) r bits) out.new.items k
        ≡ (shows (λ r. value_of (store_of engine.old) r bits) out.old.items k || any_cell
        (λ r. value_of (store_of engine.old) r bits) (pairs_to
        (λ r. value_of (store_of engine.old) r bits) op k right.now) left.now)) }
    ensures call { IsWork engine.old engine.new steps.old steps.new result }
    ensures frugal { AreApart (store_of engine.old) right.now
        → Spends (2 * weights (store_of engine.old) left.now + 1) (store_of engine.old)
        (store_of engine.new) }
{
    for cell in left {
        pair_with(engine, op, *cell, right, out, steps)?;
    }
    Ok(())
}

/// Arithmetic on operands that are numbers.
pub(crate) fn calculated<L: Ledger>(
    alloc: Global,
    engine: &mut Engine,
    op: BinOp,
    left: &[Cell],
    right: &[Cell],
    steps: &mut Steps<L>,
) -> Result<Table, StoreRefusal>
    requires left { AreCells (store_of engine.old) left.now }
    requires right { AreCells (store_of engine.old) right.now }
    ensures cells { IfOk result (λ t. AreCells (store_of engine.new) t.cells.items) }
    ensures single { IfOk result (λ t. t.single ≡ true) }
    ensures reads { IfOk result (λ t. (bits : List Bool) (a b : Checked Values)
        → Reads (λ r. value_of (store_of engine.old) r bits) left.now (alone a)
        → Reads (λ r. value_of (store_of engine.old) r bits) right.now (alone b)
        → Reads (λ r. value_of (store_of engine.new) r bits) t.cells.items
        (alone (paired op a b))) }
    ensures call { IsWork engine.old engine.new steps.old steps.new result }
    ensures spends { AreApart (store_of engine.old) left.now
        → AreApart (store_of engine.old) right.now
        → Spends (3 * length left.now + 3 * length right.now + 3 + 2 * 2 ^ levels_of
        (store_of engine.old)) (store_of engine.old) (store_of engine.new) }
{
    let faults = faults_of(alloc, engine, left, right, steps)?;
    let mut cells = faults.cells;
    pair_up(engine, op, left, right, &mut cells, steps)?;
    Ok(Table {
        cells,
        single: true,
    })
}
