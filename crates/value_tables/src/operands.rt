//! Operands: tables that are tested, and the faults of two of them.

ghost use Rattle.std.specs.Prelude.{◌≡◌, ◌≤◌, ◌+◌, ◌*◌, ◌&&◌, not, Bool, ◌||◌, true, List, IfOk, OnOk, All, length, nat_lt};
ghost use Rattle.bdd_nodes.specs.Store.{Has, value_of};
ghost use Rattle.bdd_ops.specs.Engine.{store_of};
ghost use Rattle.kripke_model.specs.declared.expressions.Value.{Value as Values};
ghost use Rattle.kripke_model.specs.Evaluation.{Checked};
ghost use Rattle.value_tables.specs.declared.cells.Cell.{Cell as Cells};
ghost use Rattle.bdd_ops.specs.Kept.{IsRegion};
ghost use Rattle.value_tables.specs.Work.{IsWork, Spends};
ghost use Rattle.value_tables.specs.Cells.{shows, any_cell, Reads, AreCells};
ghost use Rattle.value_tables.specs.Pick.{becomes};
ghost use Rattle.value_tables.specs.declared.pick.Pick.{Pick as Picks};
ghost use Rattle.value_tables.specs.Tables.{is_fault, is_failure, is_fault_of, one_tested, both, IsProper, IsSingle, count_on};

use crate::cell_lists::CellList;
use crate::cells::{Cell, add};
use crate::counts::{faulty_of, many_of};
use crate::pick::{Pick, Test};
use crate::regions::{join, outside};
use crate::spread::spread;
use bdd_nodes::{Ref, Steps, StoreRefusal};
use bdd_ops::Engine;
use kripke_model::expressions::{FaultKind, Value};
use std::alloc::Global;
use std::sync::ledger::Ledger;

/// What an expression comes to at each list of bits: the readings of the cells whose regions have value 1 there.
#[derive(Drop)]
pub(crate) struct Table {
    pub(crate) cells: CellList,
    /// Whether it is known that the expression nowhere has more than one value.
    pub(crate) single: bool,
}

/// The region where there is more than one value.
fn many_in<L: Ledger>(
    engine: &mut Engine,
    table: &Table,
    steps: &mut Steps<L>,
) -> Result<Ref, StoreRefusal>
    requires { AreCells (store_of engine.old) table.now.cells.items }
    ensures region { IfOk result (λ r. IsRegion (store_of engine.new) r
        (λ bits. not table.now.single && nat_lt 1 (count_on
        (λ q. value_of (store_of engine.old) q bits) table.now.cells.items))) }
    ensures call { IsWork engine.old engine.new steps.old steps.new result }
    ensures spends { Spends (3 * length table.now.cells.items) (store_of engine.old)
        (store_of engine.new) }
{
    if table.single {
        return Ok(Ref::FALSE);
    }
    many_of(engine, &table.cells, steps)
}

/// The table of an operand that is to be one value and to pass a test. Where it has more values, that is its fault.
pub(crate) fn tested<L: Ledger>(
    alloc: Global,
    engine: &mut Engine,
    table: &Table,
    test: Test,
    steps: &mut Steps<L>,
) -> Result<CellList, StoreRefusal>
    requires { AreCells (store_of engine.old) table.now.cells.items }
    ensures cells { IfOk result (λ out. AreCells (store_of engine.new) out.items) }
    ensures reads { IfOk result (λ out. (bits : List Bool) (c : Checked (List Values))
        → Reads (λ r. value_of (store_of engine.old) r bits) table.now.cells.items c → IsProper c
        → (table.now.single ≡ true → IsSingle c)
        → Reads (λ r. value_of (store_of engine.new) r bits) out.items (one_tested test c)) }
    ensures few { IfOk result (λ out. length out.items ≤ length table.now.cells.items + 1) }
    ensures call { IsWork engine.old engine.new steps.old steps.new result }
    ensures spends { Spends (5 * length table.now.cells.items + 2) (store_of engine.old)
        (store_of engine.new) }
{
    let many = many_in(engine, table, steps)?;
    let one = outside(engine, many, steps)?;
    let mut out = CellList::new(alloc);
    spread(
        engine,
        &table.cells,
        Pick::Tested(test),
        one,
        &mut out,
        steps,
    )?;
    add(engine, &mut out, Err(FaultKind::ManyValues), many, steps)?;
    Ok(out)
}

/// Adds the faults of an operand, as far as they lie within a region, and answers with the region of all its faults.
fn add_faults<L: Ledger>(
    engine: &mut Engine,
    cells: &[Cell],
    within: Ref,
    out: &mut CellList,
    steps: &mut Steps<L>,
) -> Result<Ref, StoreRefusal>
    requires cells { All (λ (c : Cells). Has (store_of engine.old) c.region) cells.now }
    requires within { Has (store_of engine.old) within }
    requires out { AreCells (store_of engine.old) out.old.items }
    ensures cells { OnOk result (AreCells (store_of engine.new) out.new.items) }
    ensures shows { OnOk result ((bits : List Bool) (k : Checked Values)
        → shows (λ r. value_of (store_of engine.new) r bits) out.new.items k
        ≡ (shows (λ r. value_of (store_of engine.old) r bits) out.old.items k || (any_cell
        (λ r. value_of (store_of engine.old) r bits) (becomes Picks.Faults k) cells.now && value_of
        (store_of engine.old) within bits))) }
    ensures few { OnOk result (length out.new.items ≤ length out.old.items + length cells.now) }
    ensures region { IfOk result (λ r. IsRegion (store_of engine.new) r
        (λ bits. any_cell (λ q. value_of (store_of engine.old) q bits) is_fault cells.now)) }
    ensures call { IsWork engine.old engine.new steps.old steps.new result }
    ensures spends { Spends (3 * length cells.now) (store_of engine.old) (store_of engine.new) }
{
    spread(engine, cells, Pick::Faults, within, out, steps)?;
    faulty_of(engine, cells, steps)
}

/// Adds the faults of a right operand outside the region of the left one's, and answers with the region of both.
fn add_later_faults<L: Ledger>(
    engine: &mut Engine,
    first: Ref,
    right: &[Cell],
    out: &mut CellList,
    steps: &mut Steps<L>,
) -> Result<Ref, StoreRefusal>
    requires first { Has (store_of engine.old) first }
    requires right { All (λ (c : Cells). Has (store_of engine.old) c.region) right.now }
    requires out { AreCells (store_of engine.old) out.old.items }
    ensures cells { OnOk result (AreCells (store_of engine.new) out.new.items) }
    ensures shows { OnOk result ((bits : List Bool) (k : Checked Values)
        → shows (λ r. value_of (store_of engine.new) r bits) out.new.items k
        ≡ (shows (λ r. value_of (store_of engine.old) r bits) out.old.items k || (any_cell
        (λ r. value_of (store_of engine.old) r bits) (becomes Picks.Faults k) right.now && not
        (value_of (store_of engine.old) first bits)))) }
    ensures few { OnOk result (length out.new.items ≤ length out.old.items + length right.now) }
    ensures region { IfOk result (λ r. IsRegion (store_of engine.new) r
        (λ bits. value_of (store_of engine.old) first bits || any_cell
        (λ q. value_of (store_of engine.old) q bits) is_fault right.now)) }
    ensures call { IsWork engine.old engine.new steps.old steps.new result }
    ensures spends { Spends (3 * length right.now + 2) (store_of engine.old) (store_of engine.new) }
{
    let sound = outside(engine, first, steps)?;
    let second = add_faults(engine, right, sound, out, steps)?;
    join(engine, first, second, steps)
}

/// The cells of faults, and the region of all of them.
#[derive(Drop)]
pub(crate) struct Faults {
    pub(crate) cells: CellList,
    pub(crate) region: Ref,
}

/// The faults of two operands: where both have one, that of the left one.
pub(crate) fn faults_of<L: Ledger>(
    alloc: Global,
    engine: &mut Engine,
    left: &[Cell],
    right: &[Cell],
    steps: &mut Steps<L>,
) -> Result<Faults, StoreRefusal>
    requires left { AreCells (store_of engine.old) left.now }
    requires right { AreCells (store_of engine.old) right.now }
    ensures cells { IfOk result (λ f. AreCells (store_of engine.new) f.cells.items) }
    ensures region { IfOk result (λ f. Has (store_of engine.new) f.region) }
    ensures shows { IfOk result (λ f. (bits : List Bool) (c d : Checked (List Values))
        → Reads (λ r. value_of (store_of engine.old) r bits) left.now c
        → Reads (λ r. value_of (store_of engine.old) r bits) right.now d → (k : Checked Values)
        → shows (λ r. value_of (store_of engine.new) r bits) f.cells.items k
        ≡ is_fault_of (both c d) k) }
    ensures value { IfOk result (λ f. (bits : List Bool) (c d : Checked (List Values))
        → Reads (λ r. value_of (store_of engine.old) r bits) left.now c
        → Reads (λ r. value_of (store_of engine.old) r bits) right.now d
        → value_of (store_of engine.new) f.region bits ≡ is_failure (both c d)) }
    ensures few { IfOk result (λ f. length f.cells.items ≤ length left.now + length right.now) }
    ensures call { IsWork engine.old engine.new steps.old steps.new result }
    ensures spends { Spends (3 * length left.now + 3 * length right.now + 2) (store_of engine.old)
        (store_of engine.new) }
{
    let mut cells = CellList::new(alloc);
    let first = add_faults(engine, left, Ref::TRUE, &mut cells, steps)?;
    let region = add_later_faults(engine, first, right, &mut cells, steps)?;
    Ok(Faults { cells, region })
}
