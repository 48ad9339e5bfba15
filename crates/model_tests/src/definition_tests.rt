//! Names, states, walks and formulas, each made and copied once.

use kripke_model::Name;
use kripke_model::expressions::{Expr, Formula, PathOp, Value};
use kripke_model::states::{Lasso, State};
use kripke_model::walks::{LassoWalk, Walk};
use std::alloc::{AllocError, Global};
use std::test::Fail;

/// Whether the copy of a name has its letters.
fn is_name_copied(alloc: Global) -> Result<bool, AllocError> {
    let copy = Name::from_bytes(alloc, b"go")?.copy(alloc)?;
    Ok(copy.as_str() == "go" && copy.as_bytes() == b"go".as_slice())
}

/// The state of one variable with this value.
fn state(alloc: Global, x: i32) -> Result<State, AllocError> {
    let mut s = State::new(alloc);
    s.push(Value::Number(x))?;
    Ok(s)
}

/// Whether the copy of a state has its value, and 0 behind it, and can lose it.
fn is_state_copied(alloc: Global) -> Result<bool, AllocError> {
    let mut copy = state(alloc, 3)?.copy(alloc)?;
    let same = copy.value(0) == Value::Number(3) && copy.value(1) == Value::Number(0);
    copy.pop();
    Ok(same && copy.values().len() == 0)
}

#[test]
fn names_and_states(rt: HostRuntime) -> Result<(), Fail> {
    assert!(rt; is_name_copied(rt.alloc())?);
    assert!(rt; is_state_copied(rt.alloc())?);
    Ok(())
}

/// 4, and then 5 and 6 for ever.
fn lasso(alloc: Global) -> Result<Lasso, AllocError> {
    let stem = vec![in alloc; state(alloc, 4)?]?;
    let mut cycle = Vec::new(alloc);
    for x in [5, 6] {
        cycle.push(state(alloc, x)?)?;
    }
    Ok(Lasso { stem, cycle })
}

/// The value of state 10 of the path's walk.
fn walked(alloc: Global, lasso: Lasso) -> Result<Option<Value>, AllocError> {
    match LassoWalk::new(alloc, lasso) {
        Some(walk) => Ok(Some(walk.state_at(10)?.value(0))),
        None => Ok(None),
    }
}

/// 4, and nothing behind it.
fn ended(alloc: Global) -> Result<Lasso, AllocError> {
    Ok(Lasso {
        stem: vec![in alloc; state(alloc, 4)?]?,
        cycle: Vec::new(alloc),
    })
}

#[test]
fn walks_of_looping_paths(rt: HostRuntime) -> Result<(), Fail> {
    let alloc = rt.alloc();
    assert!(rt; walked(alloc, lasso(alloc)?)? == Some(Value::Number(6)));
    assert!(rt; walked(alloc, ended(alloc)?)? == None);
    Ok(())
}

/// Whether the copy of a formula is one of the same operator.
fn is_formula_copied(alloc: Global) -> Result<bool, AllocError> {
    let leaf = Box::new(alloc, Formula::Leaf(Expr::Var(0)))?;
    let copy = Formula::Quant(PathOp::AF, leaf).copy(alloc)?;
    Ok(matches!(copy, Formula::Quant(PathOp::AF, _)))
}

#[test]
fn formulas(rt: HostRuntime) -> Result<(), Fail> {
    assert!(rt; is_formula_copied(rt.alloc())?);
    Ok(())
}
