//! Builds the tables of `x + 1 mod N`, `x = y`, `x < y` and `x * y` over two variables of the type `0..N-1`, and says
//! how many rows they have and how many triples were made.
//!
//! Without words they are built for a small N. With a word, a number N from 1 to 1,024, it is said how much processor
//! time each took.

ghost use Rattle.std.specs.Prelude.{◌≡◌, ◌*◌, ◌<◌, ◌≤◌, [], IfOk};
ghost use Rattle.bdd_ops.specs.Engine.{store_of};
ghost use Rattle.bit_encode.specs.Code.{types_of};
ghost use Rattle.bit_encode.specs.Rows.{variable, model_with};
ghost use Rattle.variable_codes.specs.LaidOut.{LaidOut};
ghost use Rattle.kripke_model.specs.Flat.{IsFlat};
ghost use Rattle.kripke_model.specs.Evaluable.{IsEvaluable};
ghost use Rattle.kripke_model.specs.Reading.{term_of};
ghost use Rattle.work_bench.specs.Ranges.{numbers, range_model};
ghost use Rattle.bdd_nodes.specs.Steps.{IsBlankOf};

use crate::limits::{CACHE, LIMIT};
use anyhow::{Result, bail};
use bdd_nodes::{Steps, Store, StoreRefusal};
use bdd_ops::Engine;
use bit_encode::layout::Layout;
use kripke_model::Name;
use kripke_model::expressions::{BinOp, Expr, Value};
use kripke_model::models::{FlatModel, FlatVar, Ruled};
use std::alloc::{AllocError, Global};
use std::marker::Brand;
use std::sync::ledger::{Blank, Ledger};
use std::time::CpuClock;
use value_tables::{Regions, table};

/// The numbers from 0 on, `count` of them.
fn numbers(alloc: Global, count: u32) -> std::result::Result<Vec<Value>, AllocError>
    requires { count ≤ 1024 }
    ensures { IfOk result (λ v. v.items ≡ numbers count) }
{
    let mut values = Vec::new(alloc);
    for i in 0..count {
        values.push(Value::Number(i as i32))?;
    }
    Ok(values)
}

fn name(alloc: Global, text: &str) -> std::result::Result<Name, AllocError>
    ensures { IfOk result (λ n. n ≡ text.now) }
{
    Ok(Name::new(String::from_str(alloc, text)?))
}

fn variable(alloc: Global, text: &str, count: u32) -> std::result::Result<FlatVar, AllocError>
    requires { count ≤ 1024 }
    ensures { IfOk result (λ v. v ≡ variable text.now (numbers count)) }
{
    Ok(FlatVar {
        name: name(alloc, text)?,
        values: numbers(alloc, count)?,
        line: 2,
    })
}

/// The model of these variables alone.
fn model_of(alloc: Global, vars: Vec<FlatVar>) -> std::result::Result<Ruled, AllocError>
    requires { IsFlat (model_with [] vars.items) }
    ensures { IfOk result (λ m. m ≡ model_with [] vars.items) }
{
    let main = name(alloc, "main")?;
    let flat = FlatModel {
        symbols: Vec::new(alloc),
        vars,
        selector: false,
        processes: vec![in alloc; main]?,
        assigns: Vec::new(alloc),
        inits: Vec::new(alloc),
        invars: Vec::new(alloc),
        trans: Vec::new(alloc),
        constraints: Vec::new(alloc),
        specs: Vec::new(alloc),
    };
    Ok(Ruled {
        flat,
        formulas: Vec::new(alloc),
        fair: Vec::new(alloc),
    })
}

/// The model of two variables of these numbers.
fn two_ranges(alloc: Global, count: u32) -> std::result::Result<Ruled, AllocError>
    requires some { 0 < count }
    requires few { count ≤ 1024 }
    ensures { IfOk result (λ m. m ≡ range_model count) }
{
    let x = variable(alloc, "x", count)?;
    let y = variable(alloc, "y", count)?;
    model_of(alloc, vec![in alloc; x, y]?)
}

/// `(a OP b)`
fn binary(
    alloc: Global,
    op: BinOp,
    a: Expr,
    b: Expr,
    count: u32,
) -> std::result::Result<Expr, AllocError>
    requires a { IsEvaluable (range_model count) (term_of a) }
    requires b { IsEvaluable (range_model count) (term_of b) }
    ensures { IfOk result (λ e. IsEvaluable (range_model count) (term_of e)) }
{
    Ok(Expr::Binary(op, Box::new(alloc, a)?, Box::new(alloc, b)?))
}

/// What is built.
#[derive(Clone, Copy)]
enum Case {
    /// `x + 1 mod N`
    Next,
    /// `x = y`
    Same,
    /// `x < y`
    Less,
    /// `x * y`
    Product,
}

impl Case {
    fn name(self) -> &'static str {
        match self {
            Case::Next => "x + 1 mod N",
            Case::Same => "x = y",
            Case::Less => "x < y",
            Case::Product => "x * y",
        }
    }

    /// The expression of the case.
    fn expr(self, alloc: Global, count: u32) -> std::result::Result<Expr, AllocError>
        requires { count ≤ 1024 }
        ensures { IfOk result (λ e. IsEvaluable (range_model count) (term_of e)) }
    {
        match self {
            Case::Next => {
                let one = Expr::Const(Value::Number(1));
                let sum = binary(alloc, BinOp::Add, Expr::Var(0), one, count)?;
                let modulus = Expr::Const(Value::Number(count as i32));
                binary(alloc, BinOp::Mod, sum, modulus, count)
            }
            Case::Same => binary(alloc, BinOp::Eq, Expr::Var(0), Expr::Var(1), count),
            Case::Less => binary(alloc, BinOp::Lt, Expr::Var(0), Expr::Var(1), count),
            Case::Product => binary(alloc, BinOp::Mul, Expr::Var(0), Expr::Var(1), count),
        }
    }
}

/// The regions of the expression over the model.
fn built<L: Ledger>(
    alloc: Global,
    engine: &mut Engine,
    layout: &Layout,
    model: &Ruled,
    expr: &Expr,
    blank: Blank,
) -> std::result::Result<Regions, StoreRefusal>
    requires blank { IsBlankOf L.name L.parts blank }
    requires evaluable { IsEvaluable model.now (term_of expr.now) }
    requires laid { LaidOut layout.now model.now (store_of engine.old) }
{
    let mut steps = Steps::<L>::new(blank);
    table(alloc, engine, layout, model, expr, &mut steps)
}

/// What a build gave: the regions, how many triples were made, and the microseconds of the processor.
#[derive(Drop)]
struct Measured {
    regions: Regions,
    triples: u32,
    micros: u128,
}

/// Builds the regions of an expression in an engine of its own.
fn measure(rt: &HostRuntime, layout: &Layout, model: &Ruled, expr: &Expr) -> Result<Measured>
    requires evaluable { IsEvaluable model.now (term_of expr.now) }
    requires layout { layout.now.types ≡ types_of model.now }
{
    let alloc = rt.alloc();
    let mut engine = Engine::new(alloc, Store::new(alloc, 2 * layout.bits(), LIMIT)?, CACHE)?;
    let start = rt.process_cpu_time()?;
    let regions = built::<Brand>(alloc, &mut engine, layout, model, expr, Blank::new(1));
    let end = rt.process_cpu_time()?;
    match regions {
        Ok(regions) => Ok(Measured {
            regions,
            triples: engine.store().count(),
            micros: end.saturating_sub(start).as_micros(),
        }),
        Err(_) => bail!("no room for all triples"),
    }
}

/// Builds a case over two variables of so many numbers.
fn measure_case(rt: &HostRuntime, case: Case, count: u32) -> Result<Measured>
    requires some { 0 < count }
    requires few { count ≤ 1024 }
{
    let alloc = rt.alloc();
    let model = two_ranges(alloc, count)?;
    let Ok(layout) = Layout::new(alloc, &model, &[0, 1]) else {
        bail!("no layout");
    };
    let expr = case.expr(alloc, count)?;
    measure(rt, &layout, &model, &expr)
}

/// Builds a case, and says what was made.
fn run(rt: &HostRuntime, case: Case, count: u32, timed: bool) -> Result<()>
    requires some { 0 < count }
    requires few { count ≤ 1024 }
{
    let Measured {
        regions,
        triples,
        micros,
    } = measure_case(rt, case, count)?;
    let rows = regions.rows.len();
    let faults = regions.faults.len();
    let name = case.name();
    println!(rt; "{name}, N = {count}: {rows} values, {faults} faults")?;
    if timed {
        println!(rt; "{triples} triples, {micros} microseconds")?;
    }
    Ok(())
}

/// Builds each case over variables of as many numbers as the word says, or without words of a few.
pub fn measure_tables(rt: &HostRuntime, words: &[String]) -> Result<()> {
    let mut count = 12;
    let mut timed = false;
    if let Some(word) = words.first() {
        timed = true;
        count = word.as_str().parse::<u32>()?;
    }
    if count == 0 || count > 1024 {
        bail!("a number from 1 to 1024");
    }
    run(rt, Case::Next, count, timed)?;
    run(rt, Case::Same, count, timed)?;
    run(rt, Case::Less, count, timed)?;
    run(rt, Case::Product, count, timed)
}
