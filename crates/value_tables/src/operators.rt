//! The operators on tables.

ghost use Rattle.std.specs.Prelude.{◌≡◌, ◌≤◌, ◌+◌, ◌*◌, ◌&&◌, ◌||◌, not, ℤ, Bool, true, false, List, Ok, IfOk, IfErr, All, length};
ghost use Rattle.bdd_nodes.specs.Store.{Has, value_of};
ghost use Rattle.bdd_nodes.specs.Refusal.{IsRefusalOf};
ghost use Rattle.bdd_ops.specs.Engine.{store_of};
ghost use Rattle.kripke_model.specs.declared.expressions.Value.{Value as Values};
ghost use Rattle.kripke_model.specs.Evaluation.{Checked, truth_value};
ghost use Rattle.value_tables.specs.declared.cells.Cell.{Cell as Cells};
ghost use Rattle.bdd_ops.specs.Kept.{IsRegion};
ghost use Rattle.value_tables.specs.Work.{IsWork, Spends};
ghost use Rattle.value_tables.specs.Cells.{same_reading, shows, Reads, AreCells};
ghost use Rattle.value_tables.specs.Tables.{alone, IsTable, judged, membership, truths, connective};
ghost use Rattle.kripke_model.specs.Operators.{logic};
ghost use Rattle.value_tables.specs.Orders.{numbers, comparison, in_order};

use crate::cell_lists::CellList;
use crate::cells::{Cell, add};
use crate::counts::matched;
use crate::operands::{Faults, Table, faults_of, tested};
use crate::orders::below;
use crate::pick::{Pick, Test, truth};
use crate::regions::{alike, join, meet, neither, only, outside};
use crate::spread::spread;
use bdd_nodes::{Ref, Steps, StoreRefusal};
use bdd_ops::Engine;
use kripke_model::expressions::{BinOp, FaultKind, Value};
use std::alloc::Global;
use std::sync::ledger::Ledger;

/// The table of one reading, everywhere.
#[inline(never)]
pub(crate) fn everywhere(
    alloc: Global,
    engine: &Engine,
    reading: Result<Value, FaultKind>,
) -> Result<Table, StoreRefusal>
    ensures table { IfOk result (λ t. IsTable (store_of engine.now) t.cells.items t.single
        (λ bits. alone reading)) }
    ensures few { IfOk result (λ t. length t.cells.items ≤ 1) }
    ensures held { IfErr result (IsRefusalOf (store_of engine.now)) }
{
    let mut cells = CellList::new(alloc);
    let region = Ref::TRUE;
    let Ok(()) = cells.push(Cell { reading, region }) else {
        return Err(StoreRefusal::Memory);
    };
    Ok(Table {
        cells,
        single: true,
    })
}

/// The regions of 0 and of 1.
#[derive(Clone, Copy)]
struct Sides {
    no: Ref,
    yes: Ref,
}

/// 1 is where the hit is, and 0 where neither it nor a fault is.
fn sides_of<L: Ledger>(
    engine: &mut Engine,
    faulty: Ref,
    hit: Ref,
    steps: &mut Steps<L>,
) -> Result<Sides, StoreRefusal>
    requires faulty { Has (store_of engine.old) faulty }
    requires hit { Has (store_of engine.old) hit }
    ensures no { IfOk result (λ p. IsRegion (store_of engine.new) p.no
        (λ bits. not (value_of (store_of engine.old) hit bits || value_of (store_of engine.old)
        faulty bits))) }
    ensures yes { IfOk result (λ p. IsRegion (store_of engine.new) p.yes
        (λ bits. value_of (store_of engine.old) hit bits && not (value_of (store_of engine.old)
        faulty bits))) }
    ensures call { IsWork engine.old engine.new steps.old steps.new result }
    ensures spends { Spends 4 (store_of engine.old) (store_of engine.new) }
{
    let no = neither(engine, hit, faulty, steps)?;
    let yes = only(engine, hit, faulty, steps)?;
    Ok(Sides { no, yes })
}

/// The table of 0 and 1: 1 where the hit is, 0 where neither it nor a fault is.
fn decided<L: Ledger>(
    engine: &mut Engine,
    faults: Faults,
    hit: Ref,
    steps: &mut Steps<L>,
) -> Result<Table, StoreRefusal>
    requires cells { AreCells (store_of engine.old) faults.cells.items }
    requires region { Has (store_of engine.old) faults.region }
    requires hit { Has (store_of engine.old) hit }
    ensures cells { IfOk result (λ t. AreCells (store_of engine.new) t.cells.items) }
    ensures single { IfOk result (λ t. t.single ≡ true) }
    ensures shows { IfOk result (λ t. (bits : List Bool) (k : Checked Values)
        → shows (λ r. value_of (store_of engine.new) r bits) t.cells.items k
        ≡ ((shows (λ r. value_of (store_of engine.old) r bits) faults.cells.items k
        || (same_reading k (Ok (truth_value false))
        && not (value_of (store_of engine.old) hit bits
        || value_of (store_of engine.old) faults.region bits)))
        || (same_reading k (Ok (truth_value true))
        && (value_of (store_of engine.old) hit bits
        && not (value_of (store_of engine.old) faults.region bits))))) }
    ensures few { IfOk result (λ t. length t.cells.items ≤ length faults.cells.items + 2) }
    ensures call { IsWork engine.old engine.new steps.old steps.new result }
    ensures spends { Spends 6 (store_of engine.old) (store_of engine.new) }
{
    let mut cells = faults.cells;
    let sides = sides_of(engine, faults.region, hit, steps)?;
    add(engine, &mut cells, Ok(truth(false)), sides.no, steps)?;
    add(engine, &mut cells, Ok(truth(true)), sides.yes, steps)?;
    Ok(Table {
        cells,
        single: true,
    })
}

/// The table of 0 and 1, 1 where the hit is, with the faults of both operands. Where one has a fault the hit says nothing.
fn settled<L: Ledger>(
    alloc: Global,
    engine: &mut Engine,
    left: &[Cell],
    right: &[Cell],
    hit: Ref,
    steps: &mut Steps<L>,
) -> Result<Table, StoreRefusal>
    requires left { AreCells (store_of engine.old) left.now }
    requires right { AreCells (store_of engine.old) right.now }
    requires hit { Has (store_of engine.old) hit }
    ensures cells { IfOk result (λ t. AreCells (store_of engine.new) t.cells.items) }
    ensures single { IfOk result (λ t. t.single ≡ true) }
    ensures reads { IfOk result (λ t. (bits : List Bool) (c d : Checked (List Values))
        → Reads (λ r. value_of (store_of engine.old) r bits) left.now c
        → Reads (λ r. value_of (store_of engine.old) r bits) right.now d
        → Reads (λ r. value_of (store_of engine.new) r bits) t.cells.items
        (judged c d (value_of (store_of engine.old) hit bits))) }
    ensures call { IsWork engine.old engine.new steps.old steps.new result }
    ensures spends { Spends (3 * length left.now + 3 * length right.now + 8) (store_of engine.old)
        (store_of engine.new) }
{
    let faults = faults_of(alloc, engine, left, right, steps)?;
    decided(engine, faults, hit, steps)
}

/// `in` on a left operand of one value; with a right operand of one value, `=`.
pub(crate) fn compared<L: Ledger>(
    alloc: Global,
    engine: &mut Engine,
    left: &[Cell],
    right: &CellList,
    steps: &mut Steps<L>,
) -> Result<Table, StoreRefusal>
    requires left { AreCells (store_of engine.old) left.now }
    requires right { AreCells (store_of engine.old) right.now.items }
    ensures cells { IfOk result (λ t. AreCells (store_of engine.new) t.cells.items) }
    ensures single { IfOk result (λ t. t.single ≡ true) }
    ensures reads { IfOk result
        (λ t. (bits : List Bool) (a : Checked Values) (d : Checked (List Values))
        → Reads (λ r. value_of (store_of engine.old) r bits) left.now (alone a)
        → Reads (λ r. value_of (store_of engine.old) r bits) right.now.items d
        → Reads (λ r. value_of (store_of engine.new) r bits) t.cells.items (membership a d)) }
    ensures call { IsWork engine.old engine.new steps.old steps.new result }
    ensures spends { Spends (5 * length left.now + 3 * length right.now.items + 8)
        (store_of engine.old) (store_of engine.new) }
{
    let hit = matched(engine, left, right, steps)?;
    settled(alloc, engine, left, right, hit, steps)
}

/// The region where the connective of two regions holds.
fn connected<L: Ledger>(
    engine: &mut Engine,
    op: BinOp,
    a: Ref,
    b: Ref,
    steps: &mut Steps<L>,
) -> Result<Ref, StoreRefusal>
    requires a { Has (store_of engine.old) a }
    requires b { Has (store_of engine.old) b }
    ensures region { IfOk result (λ r. IsRegion (store_of engine.new) r
        (λ bits. logic op (value_of (store_of engine.old) a bits) (value_of (store_of engine.old) b
        bits))) }
    ensures call { IsWork engine.old engine.new steps.old steps.new result }
    ensures spends { Spends 2 (store_of engine.old) (store_of engine.new) }
{
    match op {
        BinOp::And => meet(engine, a, b, steps),
        BinOp::Or => join(engine, a, b, steps),
        BinOp::Implies => {
            let not_a = outside(engine, a, steps)?;
            join(engine, not_a, b, steps)
        }
        _ => alike(engine, a, b, steps),
    }
}

/// `&`, `|`, `->` and `<->` on operands that are 0 or 1.
pub(crate) fn combined<L: Ledger>(
    alloc: Global,
    engine: &mut Engine,
    op: BinOp,
    left: &CellList,
    right: &CellList,
    steps: &mut Steps<L>,
) -> Result<Table, StoreRefusal>
    requires left { AreCells (store_of engine.old) left.now.items }
    requires right { AreCells (store_of engine.old) right.now.items }
    ensures cells { IfOk result (λ t. AreCells (store_of engine.new) t.cells.items) }
    ensures single { IfOk result (λ t. t.single ≡ true) }
    ensures reads { IfOk result (λ t. (bits : List Bool) (a b : Checked Bool)
        → Reads (λ r. value_of (store_of engine.old) r bits) left.now.items (truths a)
        → Reads (λ r. value_of (store_of engine.old) r bits) right.now.items (truths b)
        → Reads (λ r. value_of (store_of engine.new) r bits) t.cells.items (connective op a b)) }
    ensures call { IsWork engine.old engine.new steps.old steps.new result }
    ensures spends { Spends (3 * length left.now.items + 3 * length right.now.items + 10)
        (store_of engine.old) (store_of engine.new) }
{
    let a = left.region_of(Ok(truth(true)));
    let b = right.region_of(Ok(truth(true)));
    let hit = connected(engine, op, a, b, steps)?;
    settled(alloc, engine, left, right, hit, steps)
}

/// The region where an order comparison holds of two numbers.
fn related<L: Ledger>(
    alloc: Global,
    engine: &mut Engine,
    op: BinOp,
    left: &[Cell],
    right: &[Cell],
    steps: &mut Steps<L>,
) -> Result<Ref, StoreRefusal>
    requires left { All (λ (c : Cells). Has (store_of engine.old) c.region) left.now }
    requires right { All (λ (c : Cells). Has (store_of engine.old) c.region) right.now }
    ensures region { IfOk result (λ r. IsRegion (store_of engine.new) r
        (λ bits. in_order (λ q. value_of (store_of engine.old) q bits) op left.now right.now)) }
    ensures call { IsWork engine.old engine.new steps.old steps.new result }
    ensures spends { Spends (5 * length left.now + 5 * length right.now) (store_of engine.old)
        (store_of engine.new) }
{
    match op {
        BinOp::Lt => below(alloc, engine, true, left, right, steps),
        BinOp::Le => below(alloc, engine, false, left, right, steps),
        BinOp::Gt => below(alloc, engine, true, right, left, steps),
        _ => below(alloc, engine, false, right, left, steps),
    }
}

/// `<`, `<=`, `>` and `>=` on operands that are numbers.
pub(crate) fn ordered<L: Ledger>(
    alloc: Global,
    engine: &mut Engine,
    op: BinOp,
    left: &[Cell],
    right: &[Cell],
    steps: &mut Steps<L>,
) -> Result<Table, StoreRefusal>
    requires left { AreCells (store_of engine.old) left.now }
    requires right { AreCells (store_of engine.old) right.now }
    ensures cells { IfOk result (λ t. AreCells (store_of engine.new) t.cells.items) }
    ensures single { IfOk result (λ t. t.single ≡ true) }
    ensures reads { IfOk result (λ t. (bits : List Bool) (a b : Checked ℤ)
        → Reads (λ r. value_of (store_of engine.old) r bits) left.now (numbers a)
        → Reads (λ r. value_of (store_of engine.old) r bits) right.now (numbers b)
        → Reads (λ r. value_of (store_of engine.new) r bits) t.cells.items (comparison op a b)) }
    ensures call { IsWork engine.old engine.new steps.old steps.new result }
    ensures spends { Spends (8 * length left.now + 8 * length right.now + 8) (store_of engine.old)
        (store_of engine.new) }
{
    let hit = related(alloc, engine, op, left, right, steps)?;
    settled(alloc, engine, left, right, hit, steps)
}
