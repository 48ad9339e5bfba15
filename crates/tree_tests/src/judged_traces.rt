//! What is found of traces.

use crate::replay::Replay::{Found, Refused};
use crate::replay::{Row, first_wrong};
use std::test::Fail;
use trace_check::judged::Judged;
use trace_files::refusals::TraceRefusal;

/// Two values that change places in each step: (0, 1), (1, 0) and so on.
const SWAP: &[u8] = b"MODULE main
VAR
  a : boolean;
  b : boolean;
ASSIGN
  init(a) := 0;
  init(b) := 1;
  next(a) := b;
  next(b) := a;
SPEC AG !a
SPEC EF a
SPEC AG (a | b)
";

/// x is set once go was 1. A fair path has go again and again.
const RISES: &[u8] = b"MODULE main
VAR x : boolean; go : boolean;
ASSIGN
  init(x) := 0;
  next(x) := case go : 1; 1 : x; esac;
FAIRNESS go
FAIRNESS 1
SPEC AF x
";

/// All is free. A fair path has each of three values again and again.
const FREE: &[u8] = b"MODULE main
VAR x : 0..3;
FAIRNESS x < 2
FAIRNESS x = 1
FAIRNESS x = 2
SPEC AG x < 3
";

/// Two values that change places: the path falsifies, with another last line it doesn't step, and
/// texts that aren't traces of it.
#[test]
fn values_that_change_places(rt: HostRuntime) -> Result<(), Fail> {
    let rows = [
        Row {
            trace: b"trace 1\nstate 0\n  a = 0\n  b = 1\nstate 1\n  a = 1\n  b = 0\nloop 0\n",
            says: Found(Judged::Accepted),
        },
        Row {
            trace: b"trace 1\nstate 0\n  a = 0\n  b = 1\nstate 1\n  a = 1\n  b = 0\nloop 1\n",
            says: Found(Judged::Step { at: 1 }),
        },
        Row {
            trace: b"trace 1\nstate 0\n  a = 0\n  b = 1\nstate 1\n  a = 1\n  b = 0\n",
            says: Refused(TraceRefusal::Truncated { line: 8 }),
        },
        Row {
            trace: b"trace 1\nstate 0\n  a = 2\n  b = 1\nstate 1\n  a = 1\n  b = 0\nloop 0\n",
            says: Refused(TraceRefusal::BadLine { line: 3 }),
        },
    ];
    assert!(rt; first_wrong(rt.alloc(), SWAP, &rows)? == None);
    Ok(())
}

/// The first thing that is wrong is found: the shape before the first state, that before a step,
/// the first step before others, and the property last.
#[test]
fn the_first_thing_that_is_wrong(rt: HostRuntime) -> Result<(), Fail> {
    let rows = [
        Row {
            trace: b"trace 2\nstate 0\n  a = 1\n  b = 1\nloop 0\n",
            says: Found(Judged::Shape),
        },
        Row {
            trace: b"trace 1\nstate 0\n  a = 1\n  b = 0\nloop 0\n",
            says: Found(Judged::Initial),
        },
        Row {
            trace: b"trace 1\nstate 0\n  a = 0\n  b = 1\nstate 1\n  a = 0\n  b = 1\nloop 0\n",
            says: Found(Judged::Step { at: 0 }),
        },
        Row {
            trace: b"trace 3\nstate 0\n  a = 0\n  b = 1\nstate 1\n  a = 1\n  b = 0\nloop 0\n",
            says: Found(Judged::Property),
        },
        Row {
            trace: b"trace 1\nstate 0\n  a = 0\n  b = 1\nstate 1\n  a = 1\n  b = 0\nstate 2\n  a = 0\n  b = 1\nloop 1\n",
            says: Found(Judged::Accepted),
        },
    ];
    assert!(rt; first_wrong(rt.alloc(), SWAP, &rows)? == None);
    Ok(())
}

/// x never rises where go doesn't, but that path isn't fair.
#[test]
fn a_path_that_is_not_fair(rt: HostRuntime) -> Result<(), Fail> {
    let rows = [
        Row {
            trace: b"trace 1\nstate 0\n  x = 0\n  go = 0\nloop 0\n",
            says: Found(Judged::Unfair { constraint: 1 }),
        },
        Row {
            trace: b"trace 1\nstate 0\n  x = 0\n  go = 1\nstate 1\n  x = 1\n  go = 1\nloop 1\n",
            says: Found(Judged::Property),
        },
    ];
    assert!(rt; first_wrong(rt.alloc(), RISES, &rows)? == None);
    Ok(())
}

/// The first constraint that isn't met on the cycle; a state of the stem doesn't count.
#[test]
fn the_first_constraint_that_is_not_met(rt: HostRuntime) -> Result<(), Fail> {
    let rows = [
        Row {
            trace: b"trace 1\nstate 0\n  x = 1\nstate 1\n  x = 3\nstate 2\n  x = 0\nloop 1\n",
            says: Found(Judged::Unfair { constraint: 2 }),
        },
        Row {
            trace: b"trace 1\nstate 0\n  x = 1\nstate 1\n  x = 3\nloop 0\n",
            says: Found(Judged::Unfair { constraint: 3 }),
        },
        Row {
            trace: b"trace 1\nstate 0\n  x = 3\nstate 1\n  x = 1\nstate 2\n  x = 2\nloop 1\n",
            says: Found(Judged::Accepted),
        },
    ];
    assert!(rt; first_wrong(rt.alloc(), FREE, &rows)? == None);
    Ok(())
}
