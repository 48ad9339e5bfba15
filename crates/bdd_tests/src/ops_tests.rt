ghost use Rattle.std.specs.Prelude.{◌≡◌, ◌+◌, ◌*◌, ◌<◌, ◌≤◌, IsTrue, IfOk};
ghost use Rattle.bdd_nodes.specs.Store.{Has, size_of};
ghost use Rattle.bdd_nodes.specs.Steps.{IsBlankOf};
ghost use Rattle.bdd_ops.specs.Engine.{capacity_of, refused_of};

use crate::making::made;
use bdd_nodes::{Ref, Steps, Store, StoreRefusal};
use bdd_ops::{Engine, Key};
use bdd_walk::size;
use std::alloc::Global;
use std::marker::Brand;
use std::process::Abort;
use std::sync::ledger::{Blank, Ledger};
use std::test::Fail;

/// What the pointwise operation of a key answers; where a condition fails, `Memory`.
fn applied<L: Ledger>(
    engine: &mut Engine,
    key: Key,
    steps: &mut Steps<L>,
) -> Result<Ref, StoreRefusal> {
    let store = engine.store();
    match key {
        Key::Not(f) if store.has(f) => engine.not(f, steps),
        Key::And(f, g) if store.has(f) && store.has(g) => engine.and(f, g, steps),
        Key::Or(f, g) if store.has(f) && store.has(g) => engine.or(f, g, steps),
        Key::Iff(f, g) if store.has(f) && store.has(g) => engine.iff(f, g, steps),
        Key::Ite(f, g, h) if store.has(f) && store.has(g) && store.has(h) => {
            engine.ite(f, g, h, steps)
        }
        _ => Err(StoreRefusal::Memory),
    }
}

/// The value at these bits; where a condition fails, nothing.
fn value(engine: &Engine, r: Ref, bits: &[bool]) -> Option<bool> {
    let store = engine.store();
    if store.has(r) && bits.len() == store.levels() as usize {
        Some(store.value(r, bits))
    } else {
        None
    }
}

/// Whether the store has the diagram, with so many triples.
fn has_size(alloc: Global, store: &Store, f: Ref, n: u32) -> bool
    ensures has { IsTrue result → Has store.now f }
    ensures size { IsTrue result → size_of store.now f ≡ n }
{
    if !store.has(f) {
        return false;
    }
    match size(alloc, store, f) {
        Ok(triples) => triples == n,
        Err(_) => false,
    }
}

/// The conjunction of a diagram of `m` triples and one of `n`; where a condition fails, `Memory`.
fn conjunction_of<L: Ledger>(
    alloc: Global,
    engine: &mut Engine,
    f: Ref,
    m: u32,
    g: Ref,
    n: u32,
    steps: &mut Steps<L>,
) -> Result<Ref, StoreRefusal>
    requires { m * n ≤ capacity_of engine.old }
    ensures { refused_of engine.new ≡ 0 → steps.new ≤ steps.old + 2 * (m * n) + 1 }
{
    let store = engine.store();
    if has_size(alloc, store, f, m) && has_size(alloc, store, g, n) {
        engine.and(f, g, steps)
    } else {
        Err(StoreRefusal::Memory)
    }
}

/// Two diagrams of an engine, and their conjunction.
#[derive(Drop)]
struct Conjunction {
    engine: Engine,
    f: Ref,
    g: Ref,
    and: Ref,
}

/// The conjunction of the literals of two levels, of one triple each.
fn literal_conjunction<L: Ledger>(
    alloc: Global,
    cache: u32,
    steps: &mut Steps<L>,
) -> Result<Conjunction, Fail>
    requires { 0 < cache }
    ensures { IfOk result (λ c. refused_of c.engine ≡ 0 → steps.new ≤ steps.old + 3) }
{
    let mut engine = Engine::new(alloc, Store::new(alloc, 2, 100)?, cache)?;
    let f = made(&mut engine, 0, Ref::FALSE, Ref::TRUE)?;
    let g = made(&mut engine, 1, Ref::FALSE, Ref::TRUE)?;
    let and = conjunction_of(alloc, &mut engine, f, 1, g, 1, steps)?;
    Ok(Conjunction { engine, f, g, and })
}

fn check_same<L: Ledger>(
    rt: &impl Abort,
    engine: &mut Engine,
    key: Key,
    wanted: Ref,
    steps: &mut Steps<L>,
) -> Result<(), Fail> {
    assert!(rt; applied(engine, key, steps)? == wanted);
    Ok(())
}

/// The values at the bits 00, 01, 10 and 11.
fn check_values(rt: &impl Abort, engine: &Engine, f: Ref, wanted: [bool; 4]) {
    let bits = [[false, false], [false, true], [true, false], [true, true]];
    for (at, of_f) in bits.iter().zip(wanted) {
        assert!(rt; value(engine, f, at) == Some(of_f));
    }
}

/// What was used last is remembered, whatever the capacity.
fn check_memory(rt: &impl Abort, engine: &mut Engine, a: Ref, b: Ref, and: Ref) {
    assert!(rt; engine.recall(Key::And(a, b)) == Some(and));
    assert!(rt; engine.recall(Key::And(b, a)) == None);
    assert!(rt; engine.list_key(&[1]) == Some(0));
    assert!(rt; engine.list_key(&[0, 1]) == Some(1));
    assert!(rt; engine.list_key(&[1]) == Some(0));
    assert!(rt; engine.refused() == 0);
}

/// The conjunction by itself and by another operation, and a negation that is taken back.
fn check_and<L: Ledger>(
    rt: &impl Abort,
    engine: &mut Engine,
    a: Ref,
    b: Ref,
    and: Ref,
    steps: &mut Steps<L>,
) -> Result<(), Fail> {
    check_same(rt, engine, Key::And(a, b), and, steps)?;
    check_same(rt, engine, Key::Ite(a, b, Ref::FALSE), and, steps)?;
    let not = applied(engine, Key::Not(a), steps)?;
    check_same(rt, engine, Key::Not(not), a, steps)?;
    check_values(rt, engine, and, [false, false, false, true]);
    Ok(())
}

/// The disjunction and the equivalence, and the conjunction once more.
fn check_or_and_iff<L: Ledger>(
    rt: &impl Abort,
    engine: &mut Engine,
    a: Ref,
    b: Ref,
    and: Ref,
    steps: &mut Steps<L>,
) -> Result<(), Fail> {
    let or = applied(engine, Key::Or(a, b), steps)?;
    check_values(rt, engine, or, [false, true, true, true]);
    let iff = applied(engine, Key::Iff(a, b), steps)?;
    check_values(rt, engine, iff, [true, false, false, true]);
    check_same(rt, engine, Key::And(a, b), and, steps)
}

fn literals<L: Ledger>(rt: &impl Abort, alloc: Global, cache: u32, blank: Blank) -> Result<(), Fail>
    requires cache { 0 < cache }
    requires blank { IsBlankOf L.name L.parts blank }
{
    let mut steps = Steps::<L>::new(blank);
    let Conjunction {
        mut engine,
        f: a,
        g: b,
        and,
    } = literal_conjunction(alloc, cache, &mut steps)?;
    check_and(rt, &mut engine, a, b, and, &mut steps)?;
    check_or_and_iff(rt, &mut engine, a, b, and, &mut steps)?;
    check_memory(rt, &mut engine, a, b, and);
    Ok(())
}

#[test]
fn operations_on_two_literals(rt: HostRuntime) -> Result<(), Fail> {
    literals::<Brand>(&rt, rt.alloc(), 1, Blank::new(1))?;
    literals::<Brand>(&rt, rt.alloc(), 65_536, Blank::new(1))
}

/// The parity of the levels from 0 on, each `stride`th one of 12.
fn parity(engine: &mut Engine, stride: u32) -> Result<Ref, StoreRefusal>
    ensures { capacity_of engine.new ≡ capacity_of engine.old }
{
    let (mut even, mut odd) = (Ref::FALSE, Ref::TRUE);
    for level in (0..12u32).rev() {
        if level % stride.max(1) == 0 {
            let same = made(engine, level, even, odd)?;
            odd = made(engine, level, odd, even)?;
            even = same;
        }
    }
    Ok(even)
}

/// The conjunction of two parities of 12 levels: of all, where the first level has one triple and
/// each other two, and of those that are even, likewise.
fn parity_conjunction<L: Ledger>(alloc: Global, steps: &mut Steps<L>) -> Result<Conjunction, Fail>
    ensures { IfOk result (λ c. refused_of c.engine ≡ 0 → steps.new ≤ steps.old + 507) }
{
    // 253 is the product of the two sizes
    let mut engine = Engine::new(alloc, Store::new(alloc, 12, 10_000)?, 253)?;
    let f = parity(&mut engine, 1)?;
    let g = parity(&mut engine, 2)?;
    let and = conjunction_of(alloc, &mut engine, f, 23, g, 11, steps)?;
    Ok(Conjunction { engine, f, g, and })
}

fn parities<L: Ledger>(rt: &impl Abort, alloc: Global, blank: Blank) -> Result<(), Fail>
    requires blank { IsBlankOf L.name L.parts blank }
{
    let mut steps = Steps::<L>::new(blank);
    let Conjunction { engine, and, .. } = parity_conjunction(alloc, &mut steps)?;
    assert!(rt; engine.refused() == 0);
    for n in 0..4096u32 {
        let mut bits = [false; 12];
        let mut rest = n;
        for bit in &mut bits {
            *bit = rest % 2 == 1;
            rest /= 2;
        }
        let odd = n.count_ones() % 2 == 1 && (n & 0x555).count_ones() % 2 == 1;
        assert!(rt; value(&engine, and, &bits) == Some(odd), "at {n}");
    }
    Ok(())
}

#[test]
fn conjunction_of_two_parities(rt: HostRuntime) -> Result<(), Fail> {
    parities::<Brand>(&rt, rt.alloc(), Blank::new(1))
}
