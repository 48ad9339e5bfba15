//! Cells: a reading, which is one value or a fault, with the region where an expression comes to it.

ghost use Rattle.std.specs.Prelude.{◌≡◌, ◌≤◌, ◌+◌, ◌&&◌, ◌||◌, Bool, List, OnOk, length};
ghost use Rattle.bdd_nodes.specs.Store.{Has, value_of};
ghost use Rattle.bdd_ops.specs.Engine.{store_of};
ghost use Rattle.kripke_model.specs.Evaluation.{Checked};
ghost use Rattle.kripke_model.specs.declared.expressions.Value.{Value as Values};
ghost use Rattle.value_tables.specs.Work.{IsWork, Spends};
ghost use Rattle.value_tables.specs.Cells.{same_reading, shows, AreCells};

use crate::cell_lists::CellList;
use crate::regions::join;
use bdd_nodes::{Ref, Steps, StoreRefusal};
use bdd_ops::Engine;
use kripke_model::expressions::{FaultKind, Value};
use std::sync::ledger::Ledger;

/// A reading with its region.
#[derive(Clone, Copy)]
pub(crate) struct Cell {
    /// One value, or a fault.
    pub(crate) reading: Result<Value, FaultKind>,
    /// Where the expression comes to it.
    pub(crate) region: Ref,
}

/// Adds a region to that of a reading. An empty one changes nothing.
pub(crate) fn add<L: Ledger>(
    engine: &mut Engine,
    cells: &mut CellList,
    reading: Result<Value, FaultKind>,
    region: Ref,
    steps: &mut Steps<L>,
) -> Result<(), StoreRefusal>
    requires cells { AreCells (store_of engine.old) cells.old.items }
    requires region { Has (store_of engine.old) region }
    ensures cells { OnOk result (AreCells (store_of engine.new) cells.new.items) }
    ensures shows { OnOk result ((bits : List Bool) (k : Checked Values)
        → shows (λ r. value_of (store_of engine.new) r bits) cells.new.items k
        ≡ (shows (λ r. value_of (store_of engine.old) r bits) cells.old.items k ||
        (same_reading k reading && value_of (store_of engine.old) region bits))) }
    ensures few { OnOk result (length cells.new.items ≤ length cells.old.items + 1) }
    ensures call { IsWork engine.old engine.new steps.old steps.new result }
    ensures spends { Spends 1 (store_of engine.old) (store_of engine.new) }
    ensures stays { region ≡ 0 → Spends 0 (store_of engine.old) (store_of engine.new) }
{
    if region == Ref::FALSE {
        return Ok(());
    }
    match cells.place_of(reading) {
        Some(place) => {
            let joined = join(engine, cells[place].region, region, steps)?;
            cells.set_region(place, joined);
        }
        None => {
            let Ok(()) = cells.push(Cell { reading, region }) else {
                return Err(StoreRefusal::Memory);
            };
        }
    }
    Ok(())
}
