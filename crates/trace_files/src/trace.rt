//! Trace files in memory.

use kripke_model::states::Lasso;
use std::marker::Model;

/// A path that is to falsify a specification.
#[derive(Drop)]
pub struct TraceFile {
    /// The specification, counted from 1.
    pub spec: u32,
    pub lasso: Lasso,
}

impl Model for TraceFile {
    ghost use Rattle.trace_files.specs.Trace as plain;

    ghost Value = { plain.Trace };

    ghost view = { λ t. record { spec = t.spec; lasso = t.lasso } };
}
