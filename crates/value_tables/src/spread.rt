//! Cells of one table carried into another.

ghost use Rattle.std.specs.Prelude.{◌≡◌, ◌≤◌, ◌+◌, ◌*◌, ◌&&◌, ◌||◌, List, Bool, OnOk, All, length};
ghost use Rattle.bdd_nodes.specs.Store.{Has, value_of};
ghost use Rattle.bdd_ops.specs.Engine.{store_of};
ghost use Rattle.kripke_model.specs.Evaluation.{Checked};
ghost use Rattle.kripke_model.specs.declared.expressions.Value.{Value as Values};
ghost use Rattle.value_tables.specs.declared.cells.Cell.{Cell as Cells};
ghost use Rattle.value_tables.specs.Work.{IsWork, Spends};
ghost use Rattle.value_tables.specs.Cells.{shows, any_cell, AreCells};
ghost use Rattle.value_tables.specs.Pick.{becomes};
ghost use Rattle.value_tables.specs.Weights.{overlap, overlaps};

use crate::cell_lists::CellList;
use crate::cells::{Cell, add};
use crate::pick::Pick;
use crate::regions::meet;
use bdd_nodes::{Ref, Steps, StoreRefusal};
use bdd_ops::Engine;
use std::sync::ledger::Ledger;

/// Adds what becomes of a cell, as far as it lies within a region.
fn put<L: Ledger>(
    engine: &mut Engine,
    cell: Cell,
    pick: Pick,
    within: Ref,
    out: &mut CellList,
    steps: &mut Steps<L>,
) -> Result<(), StoreRefusal>
    requires cell { Has (store_of engine.old) cell.region }
    requires within { Has (store_of engine.old) within }
    requires out { AreCells (store_of engine.old) out.old.items }
    ensures cells { OnOk result (AreCells (store_of engine.new) out.new.items) }
    ensures shows { OnOk result ((bits : List Bool) (k : Checked Values)
        → shows (λ r. value_of (store_of engine.new) r bits) out.new.items k
        ≡ (shows (λ r. value_of (store_of engine.old) r bits) out.old.items k ||
        ((becomes pick k cell.reading && value_of (store_of engine.old) cell.region bits) &&
        value_of (store_of engine.old) within bits))) }
    ensures few { OnOk result (length out.new.items ≤ length out.old.items + 1) }
    ensures call { IsWork engine.old engine.new steps.old steps.new result }
    ensures spends { Spends 2 (store_of engine.old) (store_of engine.new) }
    ensures thrifty { OnOk result (Spends (2 * overlap (store_of engine.old) cell.region within)
        (store_of engine.old) (store_of engine.new)) }
    ensures frugal { Spends (2 * overlap (store_of engine.old) cell.region within + 1)
        (store_of engine.old) (store_of engine.new) }
{
    match pick.apply(cell.reading) {
        Some(reading) => {
            let region = meet(engine, cell.region, within, steps)?;
            add(engine, out, reading, region, steps)
        }
        None => Ok(()),
    }
}

/// Adds what becomes of the cells, as far as they lie within a region.
pub(crate) fn spread<L: Ledger>(
    engine: &mut Engine,
    cells: &[Cell],
    pick: Pick,
    within: Ref,
    out: &mut CellList,
    steps: &mut Steps<L>,
) -> Result<(), StoreRefusal>
    requires cells { All (λ (c : Cells). Has (store_of engine.old) c.region) cells.now }
    requires within { Has (store_of engine.old) within }
    requires out { AreCells (store_of engine.old) out.old.items }
    ensures cells { OnOk result (AreCells (store_of engine.new) out.new.items) }
    ensures shows { OnOk result ((bits : List Bool) (k : Checked Values)
        → shows (λ r. value_of (store_of engine.new) r bits) out.new.items k
        ≡ (shows (λ r. value_of (store_of engine.old) r bits) out.old.items k || (any_cell
        (λ r. value_of (store_of engine.old) r bits) (becomes pick k) cells.now && value_of
        (store_of engine.old) within bits))) }
    ensures few { OnOk result (length out.new.items ≤ length out.old.items + length cells.now) }
    ensures call { IsWork engine.old engine.new steps.old steps.new result }
    ensures spends { Spends (2 * length cells.now) (store_of engine.old) (store_of engine.new) }
    ensures thrifty { OnOk result (Spends (2 * overlaps (store_of engine.old) cells.now within)
        (store_of engine.old) (store_of engine.new)) }
    ensures frugal { Spends (2 * overlaps (store_of engine.old) cells.now within + 1)
        (store_of engine.old) (store_of engine.new) }
{
    for cell in cells {
        put(engine, *cell, pick, within, out, steps)?;
    }
    Ok(())
}
