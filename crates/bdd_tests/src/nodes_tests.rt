use bdd_nodes::{Ref, Store, StoreRefusal, Triple};
use std::process::Abort;
use std::test::Fail;

/// What `make` answers, or nothing where a condition of it fails.
fn made(store: &mut Store, level: u32, low: Ref, high: Ref) -> Option<Result<Ref, StoreRefusal>> {
    let there = store.has(low) && store.has(high) && level < store.levels();
    if there && level < store.level(low) && level < store.level(high) {
        Some(store.make(level, low, high))
    } else {
        None
    }
}

/// The value at the bits of two levels, or nothing where a condition fails.
fn value(store: &Store, r: Ref, bits: [bool; 2]) -> Option<bool> {
    if store.has(r) && store.levels() == 2 {
        Some(store.value(r, &bits))
    } else {
        None
    }
}

/// The triple, or nothing where the store lacks the diagram.
fn triple(store: &Store, r: Ref) -> Option<Triple> {
    if store.has(r) { store.node(r) } else { None }
}

/// What was made is made again as it is, and equal children make no triple.
fn check_made_again(rt: &impl Abort, store: &mut Store, a: Ref) -> Result<(), Fail> {
    assert!(rt; made(store, 1, Ref::FALSE, Ref::TRUE).ok_or("again")?? == a);
    assert!(rt; made(store, 0, a, a).ok_or("equal")?? == a);
    Ok(())
}

/// There is no room for a third triple.
fn check_full(rt: &impl Abort, store: &mut Store, a: Ref) -> Result<(), Fail> {
    match made(store, 0, a, Ref::FALSE).ok_or("full")? {
        Err(StoreRefusal::Full { held }) => {
            assert!(rt; (held.levels(), held.number()) == (2, 2));
        }
        _ => assert!(rt; false, "a third triple"),
    }
    assert!(rt; store.count() == 2);
    Ok(())
}

fn check_triples(rt: &impl Abort, store: &Store, a: Ref, b: Ref) {
    let first = Triple {
        level: 1,
        low: 0,
        high: 1,
    };
    let second = Triple {
        level: 0,
        low: 0,
        high: 2,
    };
    assert!(rt; triple(store, Ref::FALSE) == None);
    assert!(rt; triple(store, Ref::TRUE) == None);
    assert!(rt; triple(store, a) == Some(first));
    assert!(rt; triple(store, b) == Some(second));
}

/// a is the second bit, b the conjunction of both.
fn check_values(rt: &impl Abort, store: &Store, a: Ref, b: Ref) {
    for (bits, of_a, of_b) in [
        ([false, false], false, false),
        ([false, true], true, false),
        ([true, false], false, false),
        ([true, true], true, true),
    ] {
        assert!(rt; value(store, a, bits) == Some(of_a));
        assert!(rt; value(store, b, bits) == Some(of_b));
    }
}

/// Two triples, one on the other, in an empty store that has no more room.
fn check_two(rt: &impl Abort, store: &mut Store) -> Result<(), Fail> {
    let a = made(store, 1, Ref::FALSE, Ref::TRUE).ok_or("level 1")??;
    check_made_again(rt, store, a)?;
    let b = made(store, 0, Ref::FALSE, a).ok_or("level 0")??;
    assert!(rt; a.number() == 2 && b.number() == 3 && store.count() == 2);
    check_full(rt, store, a)?;
    check_triples(rt, store, a, b);
    check_values(rt, store, a, b);
    Ok(())
}

#[test]
fn two_levels_and_room_for_two_triples(rt: HostRuntime) -> Result<(), Fail> {
    let mut store = Store::new(rt.alloc(), 2, 2)?;
    assert!(rt; store.levels() == 2 && store.limit() == 2 && store.count() == 0);
    check_two(&rt, &mut store)
}
