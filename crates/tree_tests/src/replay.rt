//! Traces that are read and judged over trees.

ghost use Rattle.std.specs.Prelude.{◌≡◌};
ghost use Rattle.trace_files.specs.Spells.{IsTrace};

use case_models::kinds::trees;
use case_models::reading::model_of;
use fair_fixpoint::constraints::constraint_sets;
use kripke_model::models::Ruled;
use region_sets::{SetRefusal, StateSets};
use std::alloc::Global;
use std::test::Fail;
use trace_check::judged::Judged;
use trace_check::judging::judge;
use trace_files::reading::read_trace;
use trace_files::refusals::TraceRefusal;
use trace_files::trace::TraceFile;

/// What is said of a text.
#[derive(Clone, Copy, PartialEq, Eq, Debug)]
pub enum Replay {
    /// It is no trace of the model.
    Refused(TraceRefusal),
    /// It is one, and this is found of it.
    Found(Judged),
}

/// A text, and what is to be said of it.
#[derive(Drop)]
pub struct Row<'a> {
    pub trace: &'a [u8],
    pub says: Replay,
}

/// What is found of the trace, by the sets of the model's constraints, which are released.
fn judged_over<S: StateSets>(
    alloc: Global,
    sets: &mut S,
    model: &Ruled,
    file: &TraceFile,
) -> Result<Judged, SetRefusal>
    requires over { model.now ≡ (S.seen sets.old).over }
    requires trace { IsTrace model.now file.now }
{
    let constraints = constraint_sets(alloc, sets, model)?;
    let found = judge(sets, model, &constraints, file);
    constraints.release(sets);
    Ok(found)
}

/// What is found of the trace, over trees.
fn judged(alloc: Global, model: &Ruled, file: &TraceFile) -> Result<Judged, SetRefusal>
    requires { IsTrace model.now file.now }
{
    let mut sets = trees(alloc, model)?;
    judged_over(alloc, &mut sets, model, file)
}

/// What is said of the text.
pub fn replayed(alloc: Global, model: &Ruled, trace: &[u8]) -> Result<Replay, SetRefusal> {
    match read_trace(alloc, model, trace) {
        Ok(file) => Ok(Replay::Found(judged(alloc, model, &file)?)),
        Err(refusal) => Ok(Replay::Refused(refusal)),
    }
}

/// The number of the first row of which something else is said, from 0.
fn first_other(
    alloc: Global,
    model: &Ruled,
    rows: &[Row<'_>],
) -> Result<Option<usize>, SetRefusal> {
    for (number, row) in rows.iter().enumerate() {
        if replayed(alloc, model, row.trace)? != row.says {
            return Ok(Some(number));
        }
    }
    Ok(None)
}

/// The same, over the model of a text.
pub fn first_wrong(alloc: Global, text: &[u8], rows: &[Row<'_>]) -> Result<Option<usize>, Fail> {
    let Ok(model) = model_of(alloc, text) else {
        return Err(Fail::new("a text has no model"));
    };
    Ok(first_other(alloc, &model, rows)?)
}
