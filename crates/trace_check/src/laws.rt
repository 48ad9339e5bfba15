//! The law of what is found of traces. The function computes nothing.

ghost use Rattle.trace_check.specs.Laws.{AreJudged};

use kripke_model::models::Ruled;

/// A trace is accepted exactly where its path falsifies the specification, which then is false. One
/// thing is found of each trace.
pub fn judged_law(model: &Ruled)
    ensures { AreJudged model.now }
{}
