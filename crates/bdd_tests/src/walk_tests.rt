use crate::making::made;
use bdd_nodes::{Ref, Store, StoreRefusal};
use bdd_ops::Engine;
use bdd_walk::{copy_live, export, import, least, size};
use std::alloc::{AllocError, Global};
use std::process::Abort;
use std::test::Fail;

/// The first list of bits with value 1; nothing where the store lacks the diagram.
fn first(alloc: Global, store: &Store, f: Ref) -> Result<Option<Vec<bool>>, AllocError> {
    if store.has(f) {
        least(alloc, store, f)
    } else {
        Ok(None)
    }
}

/// The size; where the store lacks the diagram, a number that no diagram has.
fn nodes(alloc: Global, store: &Store, f: Ref) -> Result<u32, AllocError> {
    if store.has(f) {
        size(alloc, store, f)
    } else {
        Ok(u32::MAX)
    }
}

/// The diagram after it was put into a list and taken from there.
fn again(alloc: Global, engine: &mut Engine, f: Ref) -> Result<Option<Ref>, StoreRefusal> {
    if !engine.store().has(f) {
        return Ok(None);
    }
    let Ok(list) = export(alloc, engine.store(), &[f]) else {
        return Err(StoreRefusal::Memory);
    };
    let refs = import(alloc, engine, &list)?;
    Ok(refs.first().copied())
}

/// How many triples a copy has; where the store lacks the diagram, a number that no store has.
fn copied(alloc: Global, store: &Store, f: Ref) -> Result<u32, AllocError> {
    if store.has(f) {
        let copied = copy_live(alloc, store, &[f])?;
        Ok(copied.store.count())
    } else {
        Ok(u32::MAX)
    }
}

/// How many triples the diagram has, by itself and in a copy; it comes back as it was from a list.
fn check_size(
    rt: &impl Abort,
    alloc: Global,
    engine: &mut Engine,
    f: Ref,
    size_of_f: u32,
) -> Result<(), Fail> {
    assert!(rt; nodes(alloc, engine.store(), f)? == size_of_f);
    assert!(rt; copied(alloc, engine.store(), f)? == size_of_f);
    assert!(rt; again(alloc, engine, f)? == Some(f));
    Ok(())
}

/// The first lists of 0, of the second literal and of the conjunction.
fn check_first(
    rt: &impl Abort,
    alloc: Global,
    store: &Store,
    b: Ref,
    both: Ref,
) -> Result<(), Fail> {
    assert!(rt; first(alloc, store, Ref::FALSE)?.is_none());
    let bits = first(alloc, store, both)?.ok_or("the conjunction")?;
    assert!(rt; bits.len() == 2 && bits.iter().all(|bit| *bit));
    let bits = first(alloc, store, b)?.ok_or("the second literal")?;
    assert!(rt; (bits.first().copied(), bits.last().copied()) == (Some(false), Some(true)));
    Ok(())
}

/// The constants, the literals of two levels and their conjunction, in an empty store.
fn check_literals(rt: &impl Abort, alloc: Global, engine: &mut Engine) -> Result<(), Fail> {
    let (zero, one) = (Ref::FALSE, Ref::TRUE);
    let a = made(engine, 0, zero, one)?;
    let b = made(engine, 1, zero, one)?;
    let both = made(engine, 0, zero, b)?;
    assert!(rt; engine.store().count() == 3);
    for (f, size_of_f) in [(zero, 0), (one, 0), (a, 1), (b, 1), (both, 2)] {
        check_size(rt, alloc, engine, f, size_of_f)?;
    }
    assert!(rt; engine.store().count() == 3);
    check_first(rt, alloc, engine.store(), b, both)
}

#[test]
fn conjunction_of_two_literals(rt: HostRuntime) -> Result<(), Fail> {
    let alloc = rt.alloc();
    let mut engine = Engine::new(alloc, Store::new(alloc, 2, 100)?, 16)?;
    check_literals(&rt, alloc, &mut engine)
}
