//! The operators of two operands.

ghost use Rattle.std.specs.Prelude.{◌≤◌, ◌+◌, ◌*◌, List, Bool, IfOk, length};
ghost use Rattle.bdd_nodes.specs.Store.{value_of};
ghost use Rattle.bdd_ops.specs.Engine.{store_of};
ghost use Rattle.kripke_model.specs.declared.expressions.Value.{Value as Values};
ghost use Rattle.kripke_model.specs.Evaluation.{Checked};
ghost use Rattle.value_tables.specs.Work.{IsWork, Spends};
ghost use Rattle.value_tables.specs.Weights.{AreOperands};
ghost use Rattle.value_tables.specs.Cells.{Reads, AreCells};
ghost use Rattle.value_tables.specs.Operators.{IsTableOf, SpendsFor};
ghost use Rattle.value_tables.specs.Tables.{IsOperand, one_tested, IsUnion, IsMember, IsEquality, IsConnective, IsOrder, IsArithmetic};

use crate::cell_lists::CellList;
use crate::operands::{Table, tested};
use crate::operators::{combined, compared, ordered};
use crate::pairs::calculated;
use crate::pick::Test;
use crate::sets::united;
use bdd_nodes::{Steps, StoreRefusal};
use bdd_ops::Engine;
use kripke_model::expressions::BinOp;
use std::alloc::Global;
use std::sync::ledger::Ledger;

/// Two tested operands.
#[derive(Drop)]
struct Pair {
    left: CellList,
    right: CellList,
}

/// Both operands tested, the left one first.
fn tested_pair<L: Ledger>(
    alloc: Global,
    engine: &mut Engine,
    test: Test,
    left: &Table,
    right: &Table,
    steps: &mut Steps<L>,
) -> Result<Pair, StoreRefusal>
    requires left { AreCells (store_of engine.old) left.now.cells.items }
    requires right { AreCells (store_of engine.old) right.now.cells.items }
    ensures left { IfOk result (λ p. AreCells (store_of engine.new) p.left.items) }
    ensures right { IfOk result (λ p. AreCells (store_of engine.new) p.right.items) }
    ensures reads_left { IfOk result (λ p. (bits : List Bool) (c : Checked (List Values))
        → IsOperand (λ r. value_of (store_of engine.old) r bits) left.now.cells.items
        left.now.single c → Reads (λ r. value_of (store_of engine.new) r bits) p.left.items
        (one_tested test c)) }
    ensures reads_right { IfOk result (λ p. (bits : List Bool) (d : Checked (List Values))
        → IsOperand (λ r. value_of (store_of engine.old) r bits) right.now.cells.items
        right.now.single d → Reads (λ r. value_of (store_of engine.new) r bits) p.right.items
        (one_tested test d)) }
    ensures call { IsWork engine.old engine.new steps.old steps.new result }
    ensures few_left { IfOk result (λ p. length p.left.items ≤ length left.now.cells.items + 1) }
    ensures few_right { IfOk result (λ p. length p.right.items ≤ length right.now.cells.items + 1) }
    ensures spends { Spends (5 * length left.now.cells.items + 5 * length right.now.cells.items + 4)
        (store_of engine.old) (store_of engine.new) }
{
    let left = tested(alloc, engine, left, test, steps)?;
    let right = tested(alloc, engine, right, test, steps)?;
    Ok(Pair { left, right })
}

fn union_of<L: Ledger>(
    alloc: Global,
    engine: &mut Engine,
    op: BinOp,
    left: &Table,
    right: &Table,
    steps: &mut Steps<L>,
) -> Result<Table, StoreRefusal>
    requires op { IsUnion op }
    requires left { AreCells (store_of engine.old) left.now.cells.items }
    requires right { AreCells (store_of engine.old) right.now.cells.items }
    ensures table { IfOk result (IsTableOf op left.now right.now (store_of engine.old)
        (store_of engine.new)) }
    ensures call { IsWork engine.old engine.new steps.old steps.new result }
    ensures spends { SpendsFor left.now right.now (store_of engine.old) (store_of engine.new) }
{
    let cells = united(alloc, engine, &left.cells, &right.cells, steps)?;
    Ok(Table {
        cells,
        single: false,
    })
}

fn member_of<L: Ledger>(
    alloc: Global,
    engine: &mut Engine,
    op: BinOp,
    left: &Table,
    right: &Table,
    steps: &mut Steps<L>,
) -> Result<Table, StoreRefusal>
    requires op { IsMember op }
    requires left { AreCells (store_of engine.old) left.now.cells.items }
    requires right { AreCells (store_of engine.old) right.now.cells.items }
    ensures table { IfOk result (IsTableOf op left.now right.now (store_of engine.old)
        (store_of engine.new)) }
    ensures call { IsWork engine.old engine.new steps.old steps.new result }
    ensures spends { SpendsFor left.now right.now (store_of engine.old) (store_of engine.new) }
{
    let one = tested(alloc, engine, left, Test::Any, steps)?;
    compared(alloc, engine, &one, &right.cells, steps)
}

fn equality_of<L: Ledger>(
    alloc: Global,
    engine: &mut Engine,
    op: BinOp,
    left: &Table,
    right: &Table,
    steps: &mut Steps<L>,
) -> Result<Table, StoreRefusal>
    requires op { IsEquality op }
    requires left { AreCells (store_of engine.old) left.now.cells.items }
    requires right { AreCells (store_of engine.old) right.now.cells.items }
    ensures table { IfOk result (IsTableOf op left.now right.now (store_of engine.old)
        (store_of engine.new)) }
    ensures call { IsWork engine.old engine.new steps.old steps.new result }
    ensures spends { SpendsFor left.now right.now (store_of engine.old) (store_of engine.new) }
{
    let pair = tested_pair(alloc, engine, Test::Any, left, right, steps)?;
    compared(alloc, engine, &pair.left, &pair.right, steps)
}

fn connective_of<L: Ledger>(
    alloc: Global,
    engine: &mut Engine,
    op: BinOp,
    left: &Table,
    right: &Table,
    steps: &mut Steps<L>,
) -> Result<Table, StoreRefusal>
    requires op { IsConnective op }
    requires left { AreCells (store_of engine.old) left.now.cells.items }
    requires right { AreCells (store_of engine.old) right.now.cells.items }
    ensures table { IfOk result (IsTableOf op left.now right.now (store_of engine.old)
        (store_of engine.new)) }
    ensures call { IsWork engine.old engine.new steps.old steps.new result }
    ensures spends { SpendsFor left.now right.now (store_of engine.old) (store_of engine.new) }
{
    let pair = tested_pair(alloc, engine, Test::Boolean, left, right, steps)?;
    combined(alloc, engine, op, &pair.left, &pair.right, steps)
}

fn comparison_of<L: Ledger>(
    alloc: Global,
    engine: &mut Engine,
    op: BinOp,
    left: &Table,
    right: &Table,
    steps: &mut Steps<L>,
) -> Result<Table, StoreRefusal>
    requires op { IsOrder op }
    requires left { AreCells (store_of engine.old) left.now.cells.items }
    requires right { AreCells (store_of engine.old) right.now.cells.items }
    ensures table { IfOk result (IsTableOf op left.now right.now (store_of engine.old)
        (store_of engine.new)) }
    ensures call { IsWork engine.old engine.new steps.old steps.new result }
    ensures spends { SpendsFor left.now right.now (store_of engine.old) (store_of engine.new) }
{
    let pair = tested_pair(alloc, engine, Test::Number, left, right, steps)?;
    ordered(alloc, engine, op, &pair.left, &pair.right, steps)
}

fn outcome_of<L: Ledger>(
    alloc: Global,
    engine: &mut Engine,
    op: BinOp,
    left: &Table,
    right: &Table,
    steps: &mut Steps<L>,
) -> Result<Table, StoreRefusal>
    requires op { IsArithmetic op }
    requires left { AreCells (store_of engine.old) left.now.cells.items }
    requires right { AreCells (store_of engine.old) right.now.cells.items }
    ensures table { IfOk result (IsTableOf op left.now right.now (store_of engine.old)
        (store_of engine.new)) }
    ensures call { IsWork engine.old engine.new steps.old steps.new result }
    ensures spends { AreOperands (store_of engine.old) left.now.cells.items left.now.single
        → AreOperands (store_of engine.old) right.now.cells.items right.now.single
        → SpendsFor left.now right.now (store_of engine.old) (store_of engine.new) }
{
    let pair = tested_pair(alloc, engine, Test::Number, left, right, steps)?;
    calculated(alloc, engine, op, &pair.left, &pair.right, steps)
}

/// The table of an operator on two tables.
#[inline(never)]
pub(crate) fn binary_of<L: Ledger>(
    alloc: Global,
    engine: &mut Engine,
    op: BinOp,
    left: &Table,
    right: &Table,
    steps: &mut Steps<L>,
) -> Result<Table, StoreRefusal>
    requires left { AreCells (store_of engine.old) left.now.cells.items }
    requires right { AreCells (store_of engine.old) right.now.cells.items }
    ensures table { IfOk result (IsTableOf op left.now right.now (store_of engine.old)
        (store_of engine.new)) }
    ensures call { IsWork engine.old engine.new steps.old steps.new result }
    ensures spends { AreOperands (store_of engine.old) left.now.cells.items left.now.single
        → AreOperands (store_of engine.old) right.now.cells.items right.now.single
        → SpendsFor left.now right.now (store_of engine.old) (store_of engine.new) }
{
    match op {
        BinOp::Union => union_of(alloc, engine, op, left, right, steps),
        BinOp::Member => member_of(alloc, engine, op, left, right, steps),
        BinOp::Eq => equality_of(alloc, engine, op, left, right, steps),
        BinOp::And | BinOp::Or | BinOp::Implies | BinOp::Iff => {
            connective_of(alloc, engine, op, left, right, steps)
        }
        BinOp::Lt | BinOp::Gt | BinOp::Le | BinOp::Ge => {
            comparison_of(alloc, engine, op, left, right, steps)
        }
        _ => outcome_of(alloc, engine, op, left, right, steps),
    }
}
