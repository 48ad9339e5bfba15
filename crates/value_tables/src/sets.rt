//! Sets, negation and the arms of a `case`.

ghost use Rattle.std.specs.Prelude.{◌≡◌, ◌+◌, ◌*◌, ◌||◌, ◌&&◌, true, Bool, List, IfOk, OnOk, length};
ghost use Rattle.bdd_nodes.specs.Store.{Has, value_of};
ghost use Rattle.bdd_ops.specs.Engine.{store_of};
ghost use Rattle.kripke_model.specs.declared.expressions.Value.{Value as Values};
ghost use Rattle.kripke_model.specs.Evaluation.{Checked};
ghost use Rattle.value_tables.specs.Work.{IsWork, Spends};
ghost use Rattle.value_tables.specs.Cells.{shows, Reads, AreCells};
ghost use Rattle.value_tables.specs.Tables.{IsProper, IsSingle, IsOperand, all_values, negation, truths, guard_of, arm_shows, goes_on};

use crate::cell_lists::CellList;
use crate::cells::Cell;
use crate::operands::{Table, faults_of, tested};
use crate::pick::{Pick, Test, truth};
use crate::regions::{meet, outside};
use crate::spread::spread;
use bdd_nodes::{Ref, Steps, StoreRefusal};
use bdd_ops::Engine;
use std::alloc::Global;
use std::sync::ledger::Ledger;

/// The values of both operands.
#[inline(never)]
pub(crate) fn united<L: Ledger>(
    alloc: Global,
    engine: &mut Engine,
    left: &[Cell],
    right: &[Cell],
    steps: &mut Steps<L>,
) -> Result<CellList, StoreRefusal>
    requires left { AreCells (store_of engine.old) left.now }
    requires right { AreCells (store_of engine.old) right.now }
    ensures cells { IfOk result (λ out. AreCells (store_of engine.new) out.items) }
    ensures reads { IfOk result (λ out. (bits : List Bool) (c d : Checked (List Values))
        → Reads (λ r. value_of (store_of engine.old) r bits) left.now c
        → Reads (λ r. value_of (store_of engine.old) r bits) right.now d
        → Reads (λ r. value_of (store_of engine.new) r bits) out.items (all_values c d)) }
    ensures call { IsWork engine.old engine.new steps.old steps.new result }
    ensures spends { Spends (5 * length left.now + 5 * length right.now + 3) (store_of engine.old)
        (store_of engine.new) }
{
    let faults = faults_of(alloc, engine, left, right, steps)?;
    let sound = outside(engine, faults.region, steps)?;
    let mut cells = faults.cells;
    spread(engine, left, Pick::Values, sound, &mut cells, steps)?;
    spread(engine, right, Pick::Values, sound, &mut cells, steps)?;
    Ok(cells)
}

/// `!` on an operand that is to be 0 or 1.
#[inline(never)]
pub(crate) fn negated<L: Ledger>(
    alloc: Global,
    engine: &mut Engine,
    operand: &Table,
    steps: &mut Steps<L>,
) -> Result<Table, StoreRefusal>
    requires { AreCells (store_of engine.old) operand.now.cells.items }
    ensures cells { IfOk result (λ t. AreCells (store_of engine.new) t.cells.items) }
    ensures single { IfOk result (λ t. t.single ≡ true) }
    ensures reads { IfOk result (λ t. (bits : List Bool) (c : Checked (List Values))
        → Reads (λ r. value_of (store_of engine.old) r bits) operand.now.cells.items c → IsProper c
        → (operand.now.single ≡ true → IsSingle c)
        → Reads (λ r. value_of (store_of engine.new) r bits) t.cells.items (negation c)) }
    ensures call { IsWork engine.old engine.new steps.old steps.new result }
    ensures spends { Spends (7 * length operand.now.cells.items + 4) (store_of engine.old)
        (store_of engine.new) }
{
    let boolean = tested(alloc, engine, operand, Test::Boolean, steps)?;
    let mut cells = CellList::new(alloc);
    spread(
        engine,
        &boolean,
        Pick::Negated,
        Ref::TRUE,
        &mut cells,
        steps,
    )?;
    Ok(Table {
        cells,
        single: true,
    })
}

/// Adds what one arm of a `case` gives within the region that the arms before it left, and answers with the region
/// that it leaves: that where its guard is 0.
fn choose<L: Ledger>(
    engine: &mut Engine,
    guard: &CellList,
    right: &[Cell],
    left: Ref,
    out: &mut CellList,
    steps: &mut Steps<L>,
) -> Result<Ref, StoreRefusal>
    requires guard { AreCells (store_of engine.old) guard.now.items }
    requires right { AreCells (store_of engine.old) right.now }
    requires left { Has (store_of engine.old) left }
    requires out { AreCells (store_of engine.old) out.old.items }
    ensures cells { OnOk result (AreCells (store_of engine.new) out.new.items) }
    ensures has { IfOk result (Has (store_of engine.new)) }
    ensures shows { OnOk result ((bits : List Bool) (b : Checked Bool) (d : Checked (List Values))
        → Reads (λ r. value_of (store_of engine.old) r bits) guard.now.items (truths b)
        → Reads (λ r. value_of (store_of engine.old) r bits) right.now d → (k : Checked Values)
        → shows (λ r. value_of (store_of engine.new) r bits) out.new.items k
        ≡ (shows (λ r. value_of (store_of engine.old) r bits) out.old.items k ||
        (value_of (store_of engine.old) left bits && arm_shows b d k))) }
    ensures rest { IfOk result (λ r. (bits : List Bool) (b : Checked Bool)
        → Reads (λ q. value_of (store_of engine.old) q bits) guard.now.items (truths b)
        → value_of (store_of engine.new) r bits
        ≡ (value_of (store_of engine.old) left bits && goes_on b)) }
    ensures call { IsWork engine.old engine.new steps.old steps.new result }
    ensures spends { Spends (2 * length guard.now.items + 2 * length right.now + 2)
        (store_of engine.old) (store_of engine.new) }
{
    spread(engine, guard, Pick::Faults, left, out, steps)?;
    let yes = meet(engine, guard.region_of(Ok(truth(true))), left, steps)?;
    spread(engine, right, Pick::All, yes, out, steps)?;
    meet(engine, guard.region_of(Ok(truth(false))), left, steps)
}

/// The same for a guard that is to be 0 or 1.
#[inline(never)]
pub(crate) fn add_arm<L: Ledger>(
    alloc: Global,
    engine: &mut Engine,
    guard: &Table,
    right: &[Cell],
    left: Ref,
    out: &mut CellList,
    steps: &mut Steps<L>,
) -> Result<Ref, StoreRefusal>
    requires guard { AreCells (store_of engine.old) guard.now.cells.items }
    requires right { AreCells (store_of engine.old) right.now }
    requires left { Has (store_of engine.old) left }
    requires out { AreCells (store_of engine.old) out.old.items }
    ensures cells { OnOk result (AreCells (store_of engine.new) out.new.items) }
    ensures has { IfOk result (Has (store_of engine.new)) }
    ensures shows { OnOk result ((bits : List Bool) (c d : Checked (List Values))
        → IsOperand (λ r. value_of (store_of engine.old) r bits) guard.now.cells.items
        guard.now.single c → Reads (λ r. value_of (store_of engine.old) r bits) right.now d
        → (k : Checked Values) → shows (λ r. value_of (store_of engine.new) r bits) out.new.items k
        ≡ (shows (λ r. value_of (store_of engine.old) r bits) out.old.items k ||
        (value_of (store_of engine.old) left bits && arm_shows (guard_of c) d k))) }
    ensures rest { IfOk result (λ r. (bits : List Bool) (c : Checked (List Values))
        → IsOperand (λ q. value_of (store_of engine.old) q bits) guard.now.cells.items
        guard.now.single c → value_of (store_of engine.new) r bits
        ≡ (value_of (store_of engine.old) left bits && goes_on (guard_of c))) }
    ensures call { IsWork engine.old engine.new steps.old steps.new result }
    ensures spends { Spends (7 * length guard.now.cells.items + 2 * length right.now + 6)
        (store_of engine.old) (store_of engine.new) }
{
    let boolean = tested(alloc, engine, guard, Test::Boolean, steps)?;
    choose(engine, &boolean, right, left, out, steps)
}
