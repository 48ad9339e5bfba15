//! Tables with the engine of their diagrams, and what they say at given bits.

ghost use Rattle.std.specs.Prelude.{◌≡◌, ◌*◌, IfOk};
ghost use Rattle.bdd_nodes.specs.Store.{levels_of};
ghost use Rattle.bdd_ops.specs.Engine.{store_of};
ghost use Rattle.bit_encode.specs.Code.{types_of, bit_count};
ghost use Rattle.kripke_model.specs.Evaluable.{IsEvaluable};
ghost use Rattle.kripke_model.specs.Reading.{term_of};

use bdd_nodes::{Ref, Steps, Store};
use bdd_ops::Engine;
use bit_encode::layout::Layout;
use kripke_model::expressions::{Expr, FaultKind, Value};
use kripke_model::models::Ruled;
use std::alloc::{AllocError, Global};
use std::sync::ledger::Ledger;
use std::test::Fail;
use value_tables::{Regions, table};

/// An engine for pairs of states of the layout.
pub fn engine_for(alloc: Global, layout: &Layout) -> Result<Engine, AllocError>
    ensures { IfOk result (λ e. levels_of (store_of e) ≡ 2 * bit_count layout.now.types) }
{
    let store = Store::new(alloc, 2 * layout.bits(), 1_000_000)?;
    Engine::new(alloc, store, 1_000)
}

/// A table with the engine of its diagrams.
#[derive(Drop)]
pub struct Tabled {
    pub engine: Engine,
    pub regions: Regions,
}

/// The table of an expression, in an engine of its own.
pub fn build_table<L: Ledger>(
    alloc: Global,
    model: &Ruled,
    layout: &Layout,
    expr: &Expr,
    steps: &mut Steps<L>,
) -> Result<Tabled, Fail>
    requires evaluable { IsEvaluable model.now (term_of expr.now) }
    requires types { layout.now.types ≡ types_of model.now }
{
    let mut engine = engine_for(alloc, layout)?;
    let regions = table(alloc, &mut engine, layout, model, expr, steps)?;
    Ok(Tabled { engine, regions })
}

/// The value of a region at these bits; none where the store lacks it.
fn value(engine: &Engine, region: Ref, bits: &[bool]) -> Option<bool> {
    let store = engine.store();
    if store.has(region) && bits.len() == store.levels() as usize {
        Some(store.value(region, bits))
    } else {
        None
    }
}

/// The values whose rows have value 1 at these bits.
pub fn values_at(
    alloc: Global,
    engine: &Engine,
    regions: &Regions,
    bits: &[bool],
) -> Result<Vec<Value>, AllocError> {
    let mut values = Vec::new(alloc);
    for row in &regions.rows {
        if value(engine, row.region, bits) == Some(true) {
            values.push(row.value)?;
        }
    }
    Ok(values)
}

/// The faults whose rows have value 1 at these bits.
pub fn faults_at(
    alloc: Global,
    engine: &Engine,
    regions: &Regions,
    bits: &[bool],
) -> Result<Vec<FaultKind>, AllocError> {
    let mut kinds = Vec::new(alloc);
    for row in &regions.faults {
        if value(engine, row.region, bits) == Some(true) {
            kinds.push(row.kind)?;
        }
    }
    Ok(kinds)
}

pub fn same_values(a: &[Value], b: &[Value]) -> bool {
    a.len() == b.len() && a.iter().all(|v| b.contains(v))
}

/// The bits of a pair of states, and the one value that an expression has there.
#[derive(Clone, Copy)]
pub struct At {
    pub bits: [bool; 4],
    pub value: Value,
}

/// Whether a table has, at each list of bits, the one value.
pub fn has_values(
    alloc: Global,
    engine: &Engine,
    regions: &Regions,
    expected: &[At],
) -> Result<bool, AllocError> {
    for at in expected {
        let values = values_at(alloc, engine, regions, &at.bits)?;
        if !same_values(&values, &[at.value]) {
            return Ok(false);
        }
    }
    Ok(true)
}
