ghost use Rattle.std.specs.Prelude.{◌≡◌, ◌<◌};
ghost use Rattle.bdd_nodes.specs.Store.{levels_of};
ghost use Rattle.bdd_nodes.specs.Steps.{IsBlankOf};
ghost use Rattle.bdd_ops.specs.Engine.{store_of};

use crate::making::made;
use bdd_nodes::laws::{constants, expansion};
use bdd_nodes::{Ref, Steps, Store, StoreRefusal};
use bdd_ops::Engine;
use bdd_quantify::{and_exists, exists, rename};
use std::alloc::Global;
use std::marker::Brand;
use std::process::Abort;
use std::sync::ledger::{Blank, Ledger};
use std::test::Fail;

/// What `and_exists` over level 1 answers; where a condition fails, `Memory`.
fn product<L: Ledger>(
    engine: &mut Engine,
    f: Ref,
    g: Ref,
    steps: &mut Steps<L>,
) -> Result<Ref, StoreRefusal> {
    let store = engine.store();
    if store.has(f) && store.has(g) {
        and_exists(engine, f, g, &[1], steps)
    } else {
        Err(StoreRefusal::Memory)
    }
}

/// What `exists` over level 1 answers; where a condition fails, `Memory`.
fn without<L: Ledger>(
    engine: &mut Engine,
    f: Ref,
    steps: &mut Steps<L>,
) -> Result<Ref, StoreRefusal> {
    if engine.store().has(f) {
        exists(engine, f, &[1], steps)
    } else {
        Err(StoreRefusal::Memory)
    }
}

/// The literal of level 0, and its answer to `rename`: the literal of level 1.
fn renamed<L: Ledger>(engine: &mut Engine, steps: &mut Steps<L>) -> Result<(Ref, Ref), StoreRefusal>
    requires { levels_of (store_of engine.old) ≡ 2 }
{
    constants(engine.store());
    let store = engine.store();
    if store.level(Ref::FALSE) == 0 || store.level(Ref::TRUE) == 0 {
        return Err(StoreRefusal::Memory);
    }
    let a = engine.make(0, Ref::FALSE, Ref::TRUE)?;
    constants(engine.store());
    expansion(engine.store(), a);
    let b = rename(engine, a, true, steps)?;
    Ok((a, b))
}

fn renamed_literal<L: Ledger>(
    rt: &impl Abort,
    alloc: Global,
    cache: u32,
    blank: Blank,
) -> Result<(), Fail>
    requires cache { 0 < cache }
    requires blank { IsBlankOf L.name L.parts blank }
{
    let mut steps = Steps::<L>::new(blank);
    let mut engine = Engine::new(alloc, Store::new(alloc, 2, 100)?, cache)?;
    let (_, b) = renamed(&mut engine, &mut steps)?;
    assert!(rt; b == made(&mut engine, 1, Ref::FALSE, Ref::TRUE)?);
    Ok(())
}

fn check_without<L: Ledger>(
    rt: &impl Abort,
    engine: &mut Engine,
    f: Ref,
    wanted: Ref,
    steps: &mut Steps<L>,
) -> Result<(), Fail> {
    assert!(rt; without(engine, f, steps)? == wanted);
    Ok(())
}

fn check_product<L: Ledger>(
    rt: &impl Abort,
    engine: &mut Engine,
    f: Ref,
    g: Ref,
    wanted: Ref,
    steps: &mut Steps<L>,
) -> Result<(), Fail> {
    assert!(rt; product(engine, f, g, steps)? == wanted);
    Ok(())
}

/// The second literal quantified in the conjunction, by itself, and in products.
fn check_all<L: Ledger>(
    rt: &impl Abort,
    engine: &mut Engine,
    a: Ref,
    b: Ref,
    and: Ref,
    steps: &mut Steps<L>,
) -> Result<(), Fail> {
    check_without(rt, engine, and, a, steps)?;
    check_without(rt, engine, b, Ref::TRUE, steps)?;
    check_product(rt, engine, a, b, a, steps)?;
    check_product(rt, engine, b, b, Ref::TRUE, steps)?;
    check_without(rt, engine, and, a, steps)
}

/// The same of the literals of two levels.
fn check_literals<L: Ledger>(
    rt: &impl Abort,
    engine: &mut Engine,
    steps: &mut Steps<L>,
) -> Result<(), Fail> {
    let a = made(engine, 0, Ref::FALSE, Ref::TRUE)?;
    let b = made(engine, 1, Ref::FALSE, Ref::TRUE)?;
    let and = made(engine, 0, Ref::FALSE, b)?;
    check_all(rt, engine, a, b, and, steps)
}

fn literals<L: Ledger>(rt: &impl Abort, alloc: Global, cache: u32, blank: Blank) -> Result<(), Fail>
    requires cache { 0 < cache }
    requires blank { IsBlankOf L.name L.parts blank }
{
    let mut steps = Steps::<L>::new(blank);
    let mut engine = Engine::new(alloc, Store::new(alloc, 2, 100)?, cache)?;
    check_literals(rt, &mut engine, &mut steps)?;
    assert!(rt; engine.refused() == 0);
    Ok(())
}

#[test]
fn quantification_of_two_literals(rt: HostRuntime) -> Result<(), Fail> {
    renamed_literal::<Brand>(&rt, rt.alloc(), 1, Blank::new(1))?;
    renamed_literal::<Brand>(&rt, rt.alloc(), 65_536, Blank::new(1))?;
    literals::<Brand>(&rt, rt.alloc(), 1, Blank::new(1))?;
    literals::<Brand>(&rt, rt.alloc(), 65_536, Blank::new(1))
}
