//! Regions that a table's cells make together.

ghost use Rattle.std.specs.Prelude.{◌*◌, ◌||◌, ◌&&◌, IfOk, All, length, nat_lt};
ghost use Rattle.bdd_nodes.specs.Store.{Has, value_of};
ghost use Rattle.bdd_ops.specs.Engine.{store_of};
ghost use Rattle.value_tables.specs.declared.cells.Cell.{Cell as Cells};
ghost use Rattle.bdd_ops.specs.Kept.{IsRegion};
ghost use Rattle.value_tables.specs.Work.{IsWork, Spends};
ghost use Rattle.value_tables.specs.Cells.{any_cell};
ghost use Rattle.value_tables.specs.Tables.{is_fault, count_on, at_region};

use crate::cell_lists::CellList;
use crate::cells::Cell;
use crate::regions::{join, join_both};
use bdd_nodes::{Ref, Steps, StoreRefusal};
use bdd_ops::Engine;
use std::sync::ledger::Ledger;

/// The region and that of the cell, where the cell is a fault.
fn with_fault<L: Ledger>(
    engine: &mut Engine,
    faulty: Ref,
    cell: Cell,
    steps: &mut Steps<L>,
) -> Result<Ref, StoreRefusal>
    requires faulty { Has (store_of engine.old) faulty }
    requires cell { Has (store_of engine.old) cell.region }
    ensures region { IfOk result (λ r. IsRegion (store_of engine.new) r
        (λ bits. value_of (store_of engine.old) faulty bits || (is_fault cell.reading && value_of
        (store_of engine.old) cell.region bits))) }
    ensures call { IsWork engine.old engine.new steps.old steps.new result }
    ensures spends { Spends 1 (store_of engine.old) (store_of engine.new) }
{
    match cell.reading {
        Ok(_) => Ok(faulty),
        Err(_) => join(engine, faulty, cell.region, steps),
    }
}

/// The region of all faults.
pub(crate) fn faulty_of<L: Ledger>(
    engine: &mut Engine,
    cells: &[Cell],
    steps: &mut Steps<L>,
) -> Result<Ref, StoreRefusal>
    requires { All (λ (c : Cells). Has (store_of engine.old) c.region) cells.now }
    ensures region { IfOk result (λ r. IsRegion (store_of engine.new) r
        (λ bits. any_cell (λ q. value_of (store_of engine.old) q bits) is_fault cells.now)) }
    ensures call { IsWork engine.old engine.new steps.old steps.new result }
    ensures spends { Spends (length cells.now) (store_of engine.old) (store_of engine.new) }
{
    let mut faulty = Ref::FALSE;
    for cell in cells {
        faulty = with_fault(engine, faulty, *cell, steps)?;
    }
    Ok(faulty)
}

/// The regions of at least one and of at least two of the cells so far.
#[derive(Clone, Copy)]
struct Counted {
    one: Ref,
    two: Ref,
}

/// One more cell.
fn one_more<L: Ledger>(
    engine: &mut Engine,
    so_far: Counted,
    region: Ref,
    steps: &mut Steps<L>,
) -> Result<Counted, StoreRefusal>
    requires one { Has (store_of engine.old) so_far.one }
    requires two { Has (store_of engine.old) so_far.two }
    requires region { Has (store_of engine.old) region }
    ensures one { IfOk result (λ c. IsRegion (store_of engine.new) c.one
        (λ bits. value_of (store_of engine.old) so_far.one bits || value_of (store_of engine.old)
        region bits)) }
    ensures two { IfOk result (λ c. IsRegion (store_of engine.new) c.two
        (λ bits. value_of (store_of engine.old) so_far.two bits || (value_of (store_of engine.old)
        so_far.one bits && value_of (store_of engine.old) region bits))) }
    ensures call { IsWork engine.old engine.new steps.old steps.new result }
    ensures spends { Spends 3 (store_of engine.old) (store_of engine.new) }
{
    let two = join_both(engine, so_far.two, so_far.one, region, steps)?;
    let one = join(engine, so_far.one, region, steps)?;
    Ok(Counted { one, two })
}

/// The region where more than one cell is.
pub(crate) fn many_of<L: Ledger>(
    engine: &mut Engine,
    cells: &[Cell],
    steps: &mut Steps<L>,
) -> Result<Ref, StoreRefusal>
    requires { All (λ (c : Cells). Has (store_of engine.old) c.region) cells.now }
    ensures region { IfOk result (λ r. IsRegion (store_of engine.new) r
        (λ bits. nat_lt 1 (count_on (λ q. value_of (store_of engine.old) q bits) cells.now))) }
    ensures call { IsWork engine.old engine.new steps.old steps.new result }
    ensures spends { Spends (3 * length cells.now) (store_of engine.old) (store_of engine.new) }
{
    let mut so_far = Counted {
        one: Ref::FALSE,
        two: Ref::FALSE,
    };
    for cell in cells {
        so_far = one_more(engine, so_far, cell.region, steps)?;
    }
    Ok(so_far.two)
}

/// The region where some cell at the left and a cell of the same reading at the right both are.
pub(crate) fn matched<L: Ledger>(
    engine: &mut Engine,
    left: &[Cell],
    right: &CellList,
    steps: &mut Steps<L>,
) -> Result<Ref, StoreRefusal>
    requires left { All (λ (c : Cells). Has (store_of engine.old) c.region) left.now }
    requires right { All (λ (c : Cells). Has (store_of engine.old) c.region) right.now.items }
    ensures region { IfOk result (λ r. IsRegion (store_of engine.new) r
        (λ bits. any_cell (λ q. value_of (store_of engine.old) q bits) (at_region
        (λ q. value_of (store_of engine.old) q bits) right.now.items) left.now)) }
    ensures call { IsWork engine.old engine.new steps.old steps.new result }
    ensures spends { Spends (2 * length left.now) (store_of engine.old) (store_of engine.new) }
{
    let mut hit = Ref::FALSE;
    for cell in left {
        let equal = right.region_of(cell.reading);
        hit = join_both(engine, hit, equal, cell.region, steps)?;
    }
    Ok(hit)
}
