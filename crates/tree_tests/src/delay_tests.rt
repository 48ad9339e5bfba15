//! Tests of the search for delays in small models, from their first specification to their second.

ghost use Rattle.kripke_model.specs.WellFormed.{ctl_of};
ghost use Rattle.kripke_model.specs.Leaves.{HasModelLeaves};

use crate::found_delays::{Delay, Found, found_between};
use crate::leaves::leaf_in;
use case_models::formulas::spec_formulas;
use case_models::kinds::trees;
use case_models::reading::model_of;
use kripke_model::expressions::Formula;
use kripke_model::models::Ruled;
use region_sets::SetRefusal;
use std::alloc::Global;
use std::test::Fail;

/// From 2 on n rises to 5 in three steps, and may wait for ever.
const RISES_WHEN_GO: &[u8] = b"MODULE main
VAR n : 0..7; go : boolean;
ASSIGN
  init(n) := 0;
  next(n) := case go & n < 7 : n + 1; 1 : n; esac;
SPEC n = 2
SPEC n = 5
";

/// n is never 9.
const NO_GOAL: &[u8] = b"MODULE main
VAR n : 0..7; go : boolean;
ASSIGN
  init(n) := 0;
  next(n) := case go & n < 7 : n + 1; 1 : n; esac;
SPEC n = 2
SPEC n = 9
";

/// The same, the other way round: nothing starts.
const NO_START: &[u8] = b"MODULE main
VAR n : 0..7; go : boolean;
ASSIGN
  init(n) := 0;
  next(n) := case go & n < 7 : n + 1; 1 : n; esac;
SPEC n = 9
SPEC n = 2
";

/// Each start is a goal.
const SAME: &[u8] = b"MODULE main
VAR n : 0..7; go : boolean;
ASSIGN
  init(n) := 0;
  next(n) := case go & n < 7 : n + 1; 1 : n; esac;
SPEC n = 2
SPEC n = 2
";

/// n rises with each step, so both delays are three steps.
const RISES: &[u8] = b"MODULE main
VAR n : 0..7;
ASSIGN
  init(n) := 0;
  next(n) := case n < 7 : n + 1; 1 : n; esac;
SPEC n = 2
SPEC n = 5
";

/// The same from several starts: 2 is one step before 3, and 0 three.
const SEVERAL_STARTS: &[u8] = b"MODULE main
VAR n : 0..7;
ASSIGN
  init(n) := 0;
  next(n) := case n < 7 : n + 1; 1 : n; esac;
SPEC n < 3
SPEC n = 3
";

/// 3 comes before 0, and 0 before 1.
const GOES_ROUND: &[u8] = b"MODULE main
VAR n : 0..3;
ASSIGN
  init(n) := 0;
  next(n) := case n = 3 : 0; 1 : n + 1; esac;
SPEC n = 3
SPEC n = 1
";

/// From 0 to 3 at once, or by 1 and 2.
const TWO_WAYS: &[u8] = b"MODULE main
VAR n : 0..3;
ASSIGN
  init(n) := 0;
  next(n) := case n = 0 : {1, 3}; n = 1 : 2; 1 : 3; esac;
SPEC n = 0
SPEC n = 3
";

/// No path leads to 3, so that its state is no start.
const UNREACHED: &[u8] = b"MODULE main
VAR n : 0..3;
ASSIGN
  init(n) := 0;
  next(n) := case n < 2 : n + 1; 1 : n; esac;
SPEC n = 3
SPEC n = 3
";

/// 3 is not left, and 1 is behind.
const NOT_LEFT: &[u8] = b"MODULE main
VAR n : 0..3;
ASSIGN
  init(n) := 0;
  next(n) := case n < 3 : n + 1; 1 : n; esac;
SPEC n = 3
SPEC n = 1
";

/// 2 has no next state: there is no path of one step from it, so each comes by a goal.
const NO_NEXT: &[u8] = b"MODULE main
VAR n : 0..2;
INIT n = 0
TRANS next(n) = n + 1
SPEC n = 2
SPEC n = 0
";

/// Without an initial state nothing starts.
const NO_INITIAL: &[u8] = b"MODULE main
VAR x : boolean;
INIT 0
SPEC x
SPEC x
";

/// A model, and its two delays.
#[derive(Drop)]
struct Row<'a> {
    text: &'a [u8],
    shortest: Delay,
    longest: Delay,
}

/// What is found between two formulas, over trees. `None` where a formula is no leaf.
fn found_of(
    alloc: Global,
    model: &Ruled,
    from: &Formula,
    to: &Formula,
) -> Result<Option<Found>, SetRefusal>
    requires from { HasModelLeaves model.now (ctl_of from.now) }
    requires to { HasModelLeaves model.now (ctl_of to.now) }
{
    let mut sets = trees(alloc, model)?;
    match (leaf_in(model, from), leaf_in(model, to)) {
        (Some(from), Some(to)) => Ok(Some(found_between(alloc, &mut sets, model, from, to)?)),
        _ => Ok(None),
    }
}

/// The same, from the first specification of the model to the second.
fn found_in(alloc: Global, model: &Ruled) -> Result<Option<Found>, SetRefusal> {
    match spec_formulas(model) {
        [from, to] => found_of(alloc, model, from, to),
        _ => Ok(None),
    }
}

/// The same, in the model of a text.
fn found(alloc: Global, text: &[u8]) -> Result<Found, Fail> {
    let Ok(model) = model_of(alloc, text) else {
        return Err(Fail::new("a text has no model"));
    };
    match found_in(alloc, &model)? {
        Some(found) => Ok(found),
        None => Err(Fail::new("a model has other specifications")),
    }
}

/// The rows of the table. The numbers were found by hand.
fn rows() -> [Row<'static>; 12] {
    [
        row_of(RISES_WHEN_GO, Delay::Steps(3), Delay::Never),
        row_of(NO_GOAL, Delay::Never, Delay::Never),
        row_of(NO_START, Delay::NoStart, Delay::NoStart),
        row_of(SAME, Delay::Steps(0), Delay::Steps(0)),
        row_of(RISES, Delay::Steps(3), Delay::Steps(3)),
        row_of(SEVERAL_STARTS, Delay::Steps(1), Delay::Steps(3)),
        row_of(GOES_ROUND, Delay::Steps(2), Delay::Steps(2)),
        row_of(TWO_WAYS, Delay::Steps(1), Delay::Steps(3)),
        row_of(UNREACHED, Delay::NoStart, Delay::NoStart),
        row_of(NOT_LEFT, Delay::Never, Delay::Never),
        row_of(NO_NEXT, Delay::Never, Delay::Steps(1)),
        row_of(NO_INITIAL, Delay::NoStart, Delay::NoStart),
    ]
}

fn row_of(text: &'static [u8], shortest: Delay, longest: Delay) -> Row<'static> {
    Row {
        text,
        shortest,
        longest,
    }
}

#[test]
fn delays_of_small_models(rt: HostRuntime) -> Result<(), Fail> {
    let rows = rows();
    for row in &rows {
        let found = found(rt.alloc(), row.text)?;
        assert!(rt; found.shortest == row.shortest);
        assert!(rt; found.longest == row.longest);
    }
    Ok(())
}

#[test]
fn proofs_of_small_models_hold(rt: HostRuntime) -> Result<(), Fail> {
    let rows = rows();
    for row in &rows {
        assert!(rt; found(rt.alloc(), row.text)?.holds);
    }
    Ok(())
}
