//! Tests of the search for strong paths in small models: for the pair of their first two
//! specifications, and that of the next two, if there are any.

ghost use Rattle.std.specs.Prelude.{◌≤◌, All, IfOk, IfSome, length};
ghost use Rattle.kripke_model.specs.Leaves.{IsModelLeaf, HasModelLeaves};
ghost use Rattle.kripke_model.specs.WellFormed.{ctl_of};

use crate::found_strong::{Found, found_for};
use crate::leaves::{leaf_in, pair_of};
use case_models::formulas::spec_formulas;
use case_models::kinds::trees;
use case_models::reading::model_of;
use kripke_model::expressions::Formula;
use kripke_model::models::Ruled;
use region_sets::SetRefusal;
use std::alloc::Global;
use std::slice::from_ref;
use std::test::Fail;
use strong_fair::certificate::Pair;

/// x may be set wherever y was.
const Y_THEN_X: &[u8] = b"MODULE main
VAR x : boolean; y : boolean;
ASSIGN
  init(x) := 0;
  next(x) := case y : {0, 1}; 1 : 0; esac;
FAIRNESS y
SPEC y
SPEC x
";

/// x may stay 0.
const X_THEN_NEVER: &[u8] = b"MODULE main
VAR x : boolean; y : boolean;
ASSIGN
  init(x) := 0;
  next(x) := case y : {0, 1}; 1 : 0; esac;
FAIRNESS y
SPEC x
SPEC 0
";

/// y comes again and again. The pair takes its states away, and the others avoid it.
const Y_THEN_NEVER: &[u8] = b"MODULE main
VAR x : boolean; y : boolean;
ASSIGN
  init(x) := 0;
  next(x) := case y : {0, 1}; 1 : 0; esac;
FAIRNESS y
SPEC y
SPEC 0
";

/// No path goes on.
const NO_STEP: &[u8] = b"MODULE main
VAR x : boolean;
TRANS 0
SPEC x
";

/// Without a pair a fair path is enough.
const ALONE: &[u8] = b"MODULE main
VAR x : boolean;
FAIRNESS x
SPEC x
";

/// What never holds asks for nothing.
const NEVER_THEN_NEVER: &[u8] = b"MODULE main
VAR x : boolean;
ASSIGN next(x) := !x;
SPEC 0
SPEC 0
";

/// x is 0 at every second place. Without these states the others have no next one.
const GOES_ROUND: &[u8] = b"MODULE main
VAR x : boolean;
ASSIGN next(x) := !x;
SPEC !x
SPEC 0
";

/// Each of two pairs asks for what the other one has.
const BOTH_WAYS: &[u8] = b"MODULE main
VAR x : boolean;
SPEC x
SPEC !x
SPEC !x
SPEC x
";

/// Where x stays as it is only one of them is met.
const STAYS: &[u8] = b"MODULE main
VAR x : boolean;
ASSIGN next(x) := x;
SPEC x
SPEC !x
SPEC !x
SPEC x
";

/// A path may stay at x = 1, where the pair asks for nothing.
const STAYS_ON_ONE_SIDE: &[u8] = b"MODULE main
VAR x : boolean;
ASSIGN next(x) := x;
SPEC !x
SPEC x
";

/// The constraint is met where x can stay 0, so x does, and the pair asks for more.
const FORMULA: &[u8] = b"MODULE main
VAR x : boolean;
ASSIGN next(x) := case x : 1; 1 : {0, 1}; esac;
FAIRNESS EG !x
SPEC !x
SPEC x
";

/// 3 has no next state, and is what the pair asks for; from 2 on there is no way back.
const DEAD_END: &[u8] = b"MODULE main
VAR n : 0..3;
INIT n = 0
TRANS n < 2 & next(n) < 3 | n = 2 & (next(n) = 2 | next(n) = 3)
SPEC n = 2
SPEC n = 3
";

/// The only strong path is one that no initial state leads to.
const OUT_OF_REACH: &[u8] = b"MODULE main
VAR n : 0..2;
ASSIGN
  init(n) := 0;
  next(n) := case n = 2 : 2; 1 : 1 - n; esac;
SPEC n = 0
SPEC n = 2
";

/// Without an initial state there is no path.
const NO_INITIAL: &[u8] = b"MODULE main
VAR x : boolean;
INIT 0
SPEC x
SPEC x
";

/// What is found in a model.
#[derive(Drop)]
struct Row<'a> {
    text: &'a [u8],
    found: Found,
}

/// The pair of two formulas, if they have no path operators.
fn pair_in(
    alloc: Global,
    model: &Ruled,
    p: &Formula,
    q: &Formula,
) -> Result<Option<Pair>, SetRefusal>
    requires p { HasModelLeaves model.now (ctl_of p.now) }
    requires q { HasModelLeaves model.now (ctl_of q.now) }
    ensures { IfOk result (λ pair. IfSome pair (λ pair. IsModelLeaf model.now pair.p
        × IsModelLeaf model.now pair.q)) }
{
    match (leaf_in(model, p), leaf_in(model, q)) {
        (Some(p), Some(q)) => Ok(Some(pair_of(alloc, model, p, q)?)),
        _ => Ok(None),
    }
}

/// What is found for these pairs, over trees.
fn found_over(alloc: Global, model: &Ruled, pairs: &[Pair]) -> Result<Found, SetRefusal>
    requires few { length pairs.now ≤ 16 }
    requires leaves { All (λ pair. IsModelLeaf model.now pair.p
        × IsModelLeaf model.now pair.q) pairs.now }
{
    let mut sets = trees(alloc, model)?;
    found_for(alloc, &mut sets, model, pairs)
}

/// What is found for two pairs, where both are there.
fn found_of_two(
    alloc: Global,
    model: &Ruled,
    first: Option<Pair>,
    second: Option<Pair>,
) -> Result<Option<Found>, SetRefusal>
    requires first { IfSome first (λ pair. IsModelLeaf model.now pair.p
        × IsModelLeaf model.now pair.q) }
    requires second { IfSome second (λ pair. IsModelLeaf model.now pair.p
        × IsModelLeaf model.now pair.q) }
{
    let Some(first) = first else {
        return Ok(None);
    };
    let Some(second) = second else {
        return Ok(None);
    };
    Ok(Some(found_over(alloc, model, &[first, second])?))
}

/// What is found for the pairs of a model. `None` where one of its specifications has path operators.
fn found_in(alloc: Global, model: &Ruled) -> Result<Option<Found>, SetRefusal> {
    match spec_formulas(model) {
        [_] => Ok(Some(found_over(alloc, model, &[])?)),
        [p, q] => match pair_in(alloc, model, p, q)? {
            Some(pair) => Ok(Some(found_over(alloc, model, from_ref(&pair))?)),
            None => Ok(None),
        },
        [p, q, r, s] => {
            let first = pair_in(alloc, model, p, q)?;
            let second = pair_in(alloc, model, r, s)?;
            found_of_two(alloc, model, first, second)
        },
        _ => Ok(None),
    }
}

/// The same, in the model of a text.
fn found(alloc: Global, text: &[u8]) -> Result<Found, Fail> {
    let Ok(model) = model_of(alloc, text) else {
        return Err(Fail::new("a text has no model"));
    };
    match found_in(alloc, &model)? {
        Some(found) => Ok(found),
        None => Err(Fail::new("a model has other specifications")),
    }
}

fn path(text: &'static [u8]) -> Row<'static> {
    Row {
        text,
        found: Found::Path,
    }
}

/// The certificate holds, and has so many rows.
fn no_path(text: &'static [u8], rows: usize) -> Row<'static> {
    Row {
        text,
        found: Found::NoPath { rows, holds: true },
    }
}

/// The rows of the table, which were found by hand.
fn rows() -> [Row<'static>; 14] {
    [
        path(Y_THEN_X),
        path(X_THEN_NEVER),
        no_path(Y_THEN_NEVER, 2),
        no_path(NO_STEP, 1),
        path(ALONE),
        path(NEVER_THEN_NEVER),
        no_path(GOES_ROUND, 2),
        path(BOTH_WAYS),
        no_path(STAYS, 2),
        path(STAYS_ON_ONE_SIDE),
        no_path(FORMULA, 2),
        path(DEAD_END),
        no_path(OUT_OF_REACH, 2),
        no_path(NO_INITIAL, 0),
    ]
}

#[test]
fn strong_paths_of_small_models(rt: HostRuntime) -> Result<(), Fail> {
    let rows = rows();
    for row in &rows {
        assert!(rt; found(rt.alloc(), row.text)? == row.found);
    }
    Ok(())
}
