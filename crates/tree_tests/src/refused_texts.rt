//! Texts that are no traces, each with the line at which it ceases to be the beginning of one.

use crate::replay::Replay::Refused;
use crate::replay::{Row, first_wrong};
use std::test::Fail;
use trace_files::refusals::TraceRefusal::{self, BadLine, Truncated};

/// A process, a symbol and a number that may be negative. The first specification is false at once.
const MIXED: &[u8] = b"MODULE main
VAR p : process user; s : {idle, busy}; n : -2..3;
SPEC 0
MODULE user
VAR q : boolean;
";

/// No specification.
const NONE: &[u8] = b"MODULE main VAR x : boolean;
";

/// The row of a text that is refused.
fn row(trace: &[u8], refusal: TraceRefusal) -> Row<'_> {
    Row {
        trace,
        says: Refused(refusal),
    }
}

/// Each line fails in its place.
#[test]
fn lines_that_fail(rt: HostRuntime) -> Result<(), Fail> {
    let rows = [
        row(b"", Truncated { line: 1 }),
        row(b"trace 1", Truncated { line: 1 }),
        row(b"trace 1\n", Truncated { line: 2 }),
        row(b"trace 0\n", BadLine { line: 1 }),
        row(b"trace 2\n", BadLine { line: 1 }),
        row(b"trace 01\n", BadLine { line: 1 }),
        row(b"trace 1 \n", BadLine { line: 1 }),
        row(b"trace 1\r\n", BadLine { line: 1 }),
        row(b"spec 1\n", BadLine { line: 1 }),
        row(b"trace 4294967297\n", BadLine { line: 1 }),
        row(b"trace 1\nloop 0\n", BadLine { line: 2 }),
        row(b"trace 1\nstate 1\n", BadLine { line: 2 }),
        row(b"trace 1\nstate 0\n  p.q = 1\n", BadLine { line: 3 }),
        row(b"trace 1\nstate 0\n running = p\n", BadLine { line: 3 }),
        row(b"trace 1\nstate 0\n  running = 1\n", BadLine { line: 3 }),
        row(
            b"trace 1\nstate 0\n  running = p\nstate 1\n",
            BadLine { line: 4 },
        ),
        row(
            b"trace 1\nstate 0\n  running = p\n  p.q = 1\n  s = 0\n",
            BadLine { line: 5 },
        ),
        row(
            b"trace 1\nstate 0\n  running = p\n  p.q = 1\n  s = main\n",
            BadLine { line: 5 },
        ),
        row(
            b"trace 1\nstate 0\n  running = p\n  p.q = 1\n  s = busy\n  n = 4\n",
            BadLine { line: 6 },
        ),
        row(
            b"trace 1\nstate 0\n  running = p\n  p.q = 1\n  s = busy\n  n = -0\n",
            BadLine { line: 6 },
        ),
        row(
            b"trace 1\nstate 0\n  running = p\n  p.q = 1\n  s = busy\n  n = -2\n",
            Truncated { line: 7 },
        ),
        row(
            b"trace 1\nstate 0\n  running = p\n  p.q = 1\n  s = busy\n  n = -2\nloop 1\n",
            BadLine { line: 7 },
        ),
        row(
            b"trace 1\nstate 0\n  running = p\n  p.q = 1\n  s = busy\n  n = -2\nloop 00\n",
            BadLine { line: 7 },
        ),
        row(
            b"trace 1\nstate 0\n  running = p\n  p.q = 1\n  s = busy\n  n = -2\nstate 0\n",
            BadLine { line: 7 },
        ),
        row(
            b"trace 1\nstate 0\n  running = p\n  p.q = 1\n  s = busy\n  n = -2\nstate 1\nloop 0\n",
            BadLine { line: 8 },
        ),
        row(
            b"trace 1\nstate 0\n  running = p\n  p.q = 1\n  s = busy\n  n = -2\nloop 0\n\n",
            BadLine { line: 8 },
        ),
        row(
            b"trace 1\nstate 0\n  running = p\n  p.q = 1\n  s = busy\n  n = -2\nloop 0\nloop",
            Truncated { line: 8 },
        ),
    ];
    assert!(rt; first_wrong(rt.alloc(), MIXED, &rows)? == None);
    Ok(())
}

/// A model without specifications has no trace, and yet its first line is asked for.
#[test]
fn no_specification(rt: HostRuntime) -> Result<(), Fail> {
    let rows = [
        row(b"", Truncated { line: 1 }),
        row(b"trace 1", Truncated { line: 1 }),
        row(b"trace 1\nstate 0\n", BadLine { line: 1 }),
    ];
    assert!(rt; first_wrong(rt.alloc(), NONE, &rows)? == None);
    Ok(())
}
