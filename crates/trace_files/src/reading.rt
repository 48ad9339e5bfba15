//! From texts to trace files.

ghost use Rattle.std.specs.Prelude.{◌≡◌, ◌⊎◌, ◌+◌, ◌≤◌, ◌<◌, IfErr, IfOk, length};
ghost use Rattle.trace_files.specs.Parts.{Finds};
ghost use Rattle.trace_files.specs.Refuses.{Refuses};
ghost use Rattle.trace_files.specs.Small.{HasSmallValues};
ghost use Rattle.trace_files.specs.Spells.{IsTrace, Spells};
ghost use Rattle.trace_files.specs.Trace.{trace_lines};
ghost use Rattle.trace_files.specs.Told.{IsNextRefused, TellsFault};
ghost use Rattle.trace_files.specs.declared.refusals.TraceRefusal.TheVariants.{Memory as out_of_memory};

use crate::heads::read_spec;
use crate::path_reading::read_lasso;
use crate::refusals::TraceRefusal;
use crate::small::look_at_types;
use crate::trace::TraceFile;
use kripke_model::models::Ruled;
use std::alloc::Global;
use text_lines::cursor::Cursor;
use text_lines::faults::Fault;

/// The most bytes that a trace file has.
pub const MAX_BYTES: usize = 67_108_864;

/// Reads a trace. The model has a specification.
fn read_lines(alloc: Global, cursor: &mut Cursor<'_>, model: &Ruled) -> Result<TraceFile, Fault>
    requires room { cursor.old.line + length cursor.old.left ≤ 4294967295 }
    requires some { 0 < length model.now.specs }
    requires small { HasSmallValues model.now }
    ensures { Finds (IsTrace model.now) (trace_lines model.now) cursor.old result cursor.new }
{
    model.rules_law();
    let spec = read_spec(cursor, model)?;
    let lasso = read_lasso(alloc, cursor, model)?;
    Ok(TraceFile { spec, lasso })
}

/// The refusal of a text that has no next line here, or one that isn't allowed.
fn refuse_next(cursor: &Cursor<'_>) -> TraceRefusal
    ensures { IsNextRefused cursor.now result }
{
    let line = cursor.line();
    match cursor.peek() {
        Some(_) => TraceRefusal::BadLine { line },
        None => TraceRefusal::Truncated { line },
    }
}

/// The refusal of a text in which a reader stopped, at line n.
fn refuse_fault(fault: Fault, n: u32) -> TraceRefusal
    ensures { TellsFault fault n result }
{
    match fault {
        Fault::Stops { line } => TraceRefusal::BadLine { line },
        Fault::Breaks { line } => TraceRefusal::BadLine { line },
        Fault::End => TraceRefusal::Truncated { line: n },
        Fault::Memory => TraceRefusal::Memory,
    }
}

/// Reads the trace that the whole text is.
fn read_text(alloc: Global, model: &Ruled, bytes: &[u8]) -> Result<TraceFile, TraceRefusal>
    requires short { length bytes.now ≤ 67108864 }
    requires some { 0 < length model.now.specs }
    ensures file { IfOk result (λ t. Spells model.now t bytes.now) }
    ensures refused { IfErr result
        (λ refusal. (refusal ≡ out_of_memory) ⊎ Refuses model.now bytes.now refusal) }
{
    model.rules_law();
    look_at_types(model);
    let mut cursor = Cursor::new(bytes);
    match read_lines(alloc, &mut cursor, model) {
        Ok(file) => {
            if cursor.is_done() {
                Ok(file)
            } else {
                Err(refuse_next(&cursor))
            }
        }
        Err(fault) => Err(refuse_fault(fault, cursor.line())),
    }
}

/// Reads the text of a trace file of the model, of at most 67,108,864 bytes. A text is one trace at
/// most, or it is refused for one reason (`laws::reading_law`, `laws::refusal_law`); beside that
/// memory may run out. That the states step to one another isn't asked here. The numbers in the
/// text reserve no memory. A value is looked for among those of its variable's type.
pub fn read_trace(alloc: Global, model: &Ruled, bytes: &[u8]) -> Result<TraceFile, TraceRefusal>
    ensures file { IfOk result (λ t. Spells model.now t bytes.now) }
    ensures refused { IfErr result
        (λ refusal. (refusal ≡ out_of_memory) ⊎ Refuses model.now bytes.now refusal) }
{
    if bytes.len() > MAX_BYTES {
        return Err(TraceRefusal::TooLong);
    }
    if model.specs().is_empty() {
        return Err(refuse_next(&Cursor::new(bytes)));
    }
    read_text(alloc, model, bytes)
}
