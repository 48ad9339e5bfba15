//! Order comparisons: the numbers of both operands in order, joined in halves.

ghost use Rattle.std.specs.Prelude.{◌≡◌, ◌+◌, ◌*◌, ◌++◌, ◌∷◌, [], ◌-◌, ◌<◌, ◌||◌, if◌then◌else◌, IfOk, OnOk, All, length};
ghost use Rattle.std.specs.List.Sorted.{IsSortedBy};
ghost use Rattle.bdd_nodes.specs.declared.store.Store.{Store as Stores};
ghost use Rattle.bdd_nodes.specs.Store.{Has, value_of};
ghost use Rattle.bdd_ops.specs.Engine.{store_of};
ghost use Rattle.value_tables.specs.declared.cells.Cell.{Cell as Cells};
ghost use Rattle.value_tables.specs.declared.orders.Mark.{Mark as Marks};
ghost use Rattle.bdd_ops.specs.Kept.{IsRegion};
ghost use Rattle.value_tables.specs.Work.{IsWork, Spends};
ghost use Rattle.value_tables.specs.Orders.{any_below, mark_of, marks_in, is_before, is_lesser, any_pair, hits, AreMarks, AreHeld, AreJoined, ArePassed};

use crate::cells::Cell;
use crate::regions::{join, join_both};
use bdd_nodes::{Ref, Steps, StoreRefusal};
use bdd_ops::Engine;
use kripke_model::expressions::Value;
use std::alloc::{AllocError, Global};
use std::sync::ledger::Ledger;

/// The cell of a number.
#[derive(Clone, Copy)]
struct Mark {
    number: i32,
    /// Marks of equal numbers stand in this order: the late ones behind the others.
    late: bool,
    region: Ref,
}

/// Adds the cell's mark, where its reading is a number.
fn add_mark(marks: &mut Vec<Mark>, late: bool, cell: Cell) -> Result<(), AllocError>
    ensures { OnOk result (marks.new.items ≡ marks.old.items ++ mark_of late cell.reading
        cell.region) }
{
    match cell.reading {
        Ok(Value::Number(number)) => marks.push(Mark {
            number,
            late,
            region: cell.region,
        })?,
        _ => (),
    }
    Ok(())
}

/// Adds the marks of cells.
fn add_marks(marks: &mut Vec<Mark>, late: bool, cells: &[Cell]) -> Result<(), AllocError>
    ensures { OnOk result (marks.new.items ≡ marks.old.items ++ marks_in late cells.now) }
{
    for cell in cells {
        add_mark(marks, late, *cell)?;
    }
    Ok(())
}

/// The marks of both sides in order. Where the comparison is strict, those of the lesser side are the late ones, and
/// otherwise those of the greater side, so that a number stands before all that count as greater and behind all others.
fn marks_of(
    alloc: Global,
    strict: bool,
    lesser: &[Cell],
    greater: &[Cell],
) -> Result<Vec<Mark>, AllocError>
    ensures { IfOk result (λ marks. AreMarks strict lesser.now greater.now marks.items) }
{
    let mut marks = Vec::new(alloc);
    add_marks(&mut marks, strict, lesser)?;
    add_marks(&mut marks, !strict, greater)?;
    marks.sort_unstable_by_key(|mark| (mark.number, mark.late));
    Ok(marks)
}

/// Where some of the marks is of the lesser side, where some is of the greater side, and where
/// one of the greater side stands behind one of the lesser side.
#[derive(Clone, Copy)]
struct Passed {
    lesser: Ref,
    greater: Ref,
    hit: Ref,
}

/// Whether the mark is of the lesser side.
fn is_of_lesser(strict: bool, mark: &Mark) -> bool
    ensures { result ≡ is_lesser strict mark.now }
{
    mark.late == strict
}

/// The region, or the empty one.
fn region_if(there: bool, region: Ref) -> Ref
    ensures { result ≡ (if there then region else 0) }
{
    if there { region } else { Ref::FALSE }
}

/// One mark.
fn one_mark(strict: bool, mark: &Mark) -> Passed
    ensures { (s : Stores) → Has s mark.now.region → ArePassed s s strict (mark.now ∷ []) result }
{
    let of_lesser = is_of_lesser(strict, mark);
    let lesser = region_if(of_lesser, mark.region);
    let greater = region_if(!of_lesser, mark.region);
    Passed {
        lesser,
        greater,
        hit: Ref::FALSE,
    }
}

/// Where a pair is among the first marks, or among those behind them, or across both.
fn join_hits<L: Ledger>(
    engine: &mut Engine,
    first: &Passed,
    behind: &Passed,
    steps: &mut Steps<L>,
) -> Result<Ref, StoreRefusal>
    requires first { AreHeld (store_of engine.old) first.now }
    requires behind { AreHeld (store_of engine.old) behind.now }
    ensures region { IfOk result (λ r. IsRegion (store_of engine.new) r
        (hits (store_of engine.old) first.now behind.now)) }
    ensures call { IsWork engine.old engine.new steps.old steps.new result }
    ensures spends { Spends 3 (store_of engine.old) (store_of engine.new) }
{
    let either = join(engine, first.hit, behind.hit, steps)?;
    join_both(engine, either, first.lesser, behind.greater, steps)
}

/// Where some of the marks of two lists is of each side.
fn join_sides<L: Ledger>(
    engine: &mut Engine,
    first: &Passed,
    behind: &Passed,
    hit: Ref,
    steps: &mut Steps<L>,
) -> Result<Passed, StoreRefusal>
    requires first { AreHeld (store_of engine.old) first.now }
    requires behind { AreHeld (store_of engine.old) behind.now }
    ensures lesser { IfOk result (λ p. IsRegion (store_of engine.new) p.lesser
        (λ bits. value_of (store_of engine.old) first.now.lesser bits
        || value_of (store_of engine.old) behind.now.lesser bits)) }
    ensures greater { IfOk result (λ p. IsRegion (store_of engine.new) p.greater
        (λ bits. value_of (store_of engine.old) first.now.greater bits
        || value_of (store_of engine.old) behind.now.greater bits)) }
    ensures hit { IfOk result (λ p. p.hit ≡ hit) }
    ensures call { IsWork engine.old engine.new steps.old steps.new result }
    ensures spends { Spends 2 (store_of engine.old) (store_of engine.new) }
{
    let lesser = join(engine, first.lesser, behind.lesser, steps)?;
    let greater = join(engine, first.greater, behind.greater, steps)?;
    Ok(Passed {
        lesser,
        greater,
        hit,
    })
}

/// What the first marks and those behind them are together.
fn join_halves<L: Ledger>(
    engine: &mut Engine,
    first: &Passed,
    behind: &Passed,
    steps: &mut Steps<L>,
) -> Result<Passed, StoreRefusal>
    requires first { AreHeld (store_of engine.old) first.now }
    requires behind { AreHeld (store_of engine.old) behind.now }
    ensures joined { IfOk result (AreJoined (store_of engine.old)
        (store_of engine.new) first.now behind.now) }
    ensures call { IsWork engine.old engine.new steps.old steps.new result }
    ensures spends { Spends 5 (store_of engine.old) (store_of engine.new) }
{
    let hit = join_hits(engine, first, behind, steps)?;
    join_sides(engine, first, behind, hit, steps)
}

// Where marks are joined one after another, each step makes much of the diagram so far anew. In
// halves a mark is joined once for each halving.
/// What marks are together.
fn pass_marks<L: Ledger>(
    engine: &mut Engine,
    strict: bool,
    marks: &[Mark],
    steps: &mut Steps<L>,
) -> Result<Passed, StoreRefusal>
    requires some { 0 < length marks.now }
    requires marks { All (λ (m : Marks). Has (store_of engine.old) m.region) marks.now }
    requires sorted { IsSortedBy is_before marks.now }
    ensures passed { IfOk result (ArePassed (store_of engine.old)
        (store_of engine.new) strict marks.now) }
    ensures call { IsWork engine.old engine.new steps.old steps.new result }
    ensures spends { Spends (5 * (length marks.now - 1)) (store_of engine.old)
        (store_of engine.new) }
{
    if marks.len() == 1 {
        return Ok(one_mark(strict, &marks[0]));
    }
    let (first, behind) = marks.split_at(marks.len() / 2);
    let before = pass_marks(engine, strict, first, steps)?;
    let after = pass_marks(engine, strict, behind, steps)?;
    join_halves(engine, &before, &after, steps)
}

/// The region where a mark of the lesser side and a later one of the greater side both are.
fn pairs_of<L: Ledger>(
    engine: &mut Engine,
    strict: bool,
    marks: &[Mark],
    steps: &mut Steps<L>,
) -> Result<Ref, StoreRefusal>
    requires marks { All (λ (m : Marks). Has (store_of engine.old) m.region) marks.now }
    requires sorted { IsSortedBy is_before marks.now }
    ensures region { IfOk result (λ r. IsRegion (store_of engine.new) r
        (λ bits. any_pair (λ q. value_of (store_of engine.old) q bits) strict marks.now)) }
    ensures call { IsWork engine.old engine.new steps.old steps.new result }
    ensures spends { Spends (5 * length marks.now) (store_of engine.old) (store_of engine.new) }
{
    if marks.is_empty() {
        return Ok(Ref::FALSE);
    }
    let passed = pass_marks(engine, strict, marks, steps)?;
    Ok(passed.hit)
}

/// The region where some number of the lesser side is less than some number of the greater side, or, where the
/// comparison isn't strict, not greater. It takes five operations on regions at most for each cell.
pub(crate) fn below<L: Ledger>(
    alloc: Global,
    engine: &mut Engine,
    strict: bool,
    lesser: &[Cell],
    greater: &[Cell],
    steps: &mut Steps<L>,
) -> Result<Ref, StoreRefusal>
    requires lesser { All (λ (c : Cells). Has (store_of engine.old) c.region) lesser.now }
    requires greater { All (λ (c : Cells). Has (store_of engine.old) c.region) greater.now }
    ensures region { IfOk result (λ r. IsRegion (store_of engine.new) r
        (λ bits. any_below (λ q. value_of (store_of engine.old) q bits) strict lesser.now
        greater.now)) }
    ensures call { IsWork engine.old engine.new steps.old steps.new result }
    ensures spends { Spends (5 * length lesser.now + 5 * length greater.now) (store_of engine.old)
        (store_of engine.new) }
{
    let Ok(marks) = marks_of(alloc, strict, lesser, greater) else {
        return Err(StoreRefusal::Memory);
    };
    pairs_of(engine, strict, &marks, steps)
}
