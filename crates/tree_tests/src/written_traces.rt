//! Traces that are read and written again.

use case_models::reading::model_of;
use kripke_model::models::Ruled;
use std::alloc::{AllocError, Global};
use std::test::Fail;
use trace_files::reading::read_trace;
use trace_files::writing::write_trace;

/// A process, a symbol and a number that may be negative.
const MIXED: &[u8] = b"MODULE main
VAR p : process user; s : {idle, busy}; n : -2..3;
SPEC 1
SPEC 0
MODULE user
VAR q : boolean;
";

/// Whether the text is a trace, and is what is written of it.
fn is_written_again(alloc: Global, model: &Ruled, text: &[u8]) -> Result<bool, AllocError> {
    match read_trace(alloc, model, text) {
        Ok(file) => {
            let written = write_trace(alloc, model, &file)?;
            Ok(written.as_slice() == text)
        }
        Err(_) => Ok(false),
    }
}

/// A process is written by its name, a symbol by its own, a number in decimal.
#[test]
fn what_is_read_is_written_again(rt: HostRuntime) -> Result<(), Fail> {
    let Ok(model) = model_of(rt.alloc(), MIXED) else {
        return Err(Fail::new("a text has no model"));
    };
    let one = b"trace 2\nstate 0\n  running = p\n  p.q = 1\n  s = busy\n  n = -2\nloop 0\n";
    let two =
        b"trace 1\nstate 0\n  running = main\n  p.q = 0\n  s = idle\n  n = 3\nstate 1\n  running = p\n  p.q = 1\n  s = busy\n  n = 0\nloop 1\n";
    assert!(rt; is_written_again(rt.alloc(), &model, one)?);
    assert!(rt; is_written_again(rt.alloc(), &model, two)?);
    Ok(())
}
