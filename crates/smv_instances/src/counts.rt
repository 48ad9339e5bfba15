//! What the declarations so far come to.

ghost use Rattle.std.specs.Prelude.{◌≡◌, List};
ghost use Rattle.smv_instances.specs.Program.{Program};
ghost use Rattle.smv_instances.specs.Plain.{plain_type};
ghost use Rattle.smv_instances.specs.Entries.{Entity, Entry as Stands};
ghost use Rattle.smv_instances.specs.Instances.{Scope, depth};
ghost use Rattle.smv_instances.specs.Declarations as declared;
ghost use Rattle.smv_instances.specs.Counting.{Counted, IsCounts, IsNamed};

use crate::types::{is_reversed, value_count, variable_count};
use kripke_model::refusals::{FlatRefusal, Which};
use smv_parser::Plain;
use std::alloc::Global;

/// The most flat variables of a model, its selector among them.
pub const MOST_VARIABLES: u64 = 256;
/// The most values of a variable.
pub const MOST_VALUES: u64 = 1024;
/// The most instances beside `main`.
pub const MOST_INSTANCES: u64 = 1023;
/// The greatest depth of an instance, where `main` has 0.
pub const MOST_DEPTH: usize = 32;

/// How much the declarations so far have declared, within the limits.
#[derive(Clone, Copy)]
pub struct Counts {
    /// Variables and elements of arrays, without the selector.
    pub variables: u64,
    /// Whether a process instance is among them, so that there is a selector.
    pub process: bool,
    pub instances: u64,
}

fn one_if(test: bool) -> u64
    ensures { result ≡ declared.one_if test }
{
    if test { 1 } else { 0 }
}

/// Counts a variable or an array, or refuses it.
pub fn count_stored(
    alloc: Global,
    line: u32,
    plain: &Plain,
    counts: &Counts,
) -> Result<Counts, FlatRefusal>
    ensures { (p : Program) (s : Scope) (es : List Stands) (e : Stands) → IsCounts counts.now es
        → e.entity ≡ Entity.Stored (plain_type plain.now) → Counted p s es e line result }
{
    if is_reversed(plain) {
        return Err(FlatRefusal::BadType { line });
    }
    let values = value_count(alloc, plain)?;
    if values > MOST_VALUES {
        return Err(FlatRefusal::Limit {
            line,
            which: Which::Values,
            counted: values,
        });
    }
    let variables = variable_count(plain).saturating_add(counts.variables);
    if variables.saturating_add(one_if(counts.process)) > MOST_VARIABLES {
        return Err(FlatRefusal::Limit {
            line,
            which: Which::Variables,
            counted: MOST_VARIABLES + 1,
        });
    }
    Ok(Counts {
        variables,
        process: counts.process,
        instances: counts.instances,
    })
}

/// Counts an instance, or refuses it for a limit.
pub fn count_instance(
    line: u32,
    process: bool,
    around: usize,
    counts: &Counts,
) -> Result<Counts, FlatRefusal>
    ensures { (p : Program) (s : Scope) (es : List Stands) (e : Stands) → IsCounts counts.now es
        → IsNamed p s e process → around ≡ depth s → Counted p s es e line result }
{
    let process = counts.process || process;
    if counts.variables.saturating_add(one_if(process)) > MOST_VARIABLES {
        return Err(FlatRefusal::Limit {
            line,
            which: Which::Variables,
            counted: MOST_VARIABLES + 1,
        });
    }
    if counts.instances >= MOST_INSTANCES {
        return Err(FlatRefusal::Limit {
            line,
            which: Which::Instances,
            counted: MOST_INSTANCES + 1,
        });
    }
    if around >= MOST_DEPTH {
        return Err(FlatRefusal::Limit {
            line,
            which: Which::Depth,
            counted: MOST_DEPTH as u64 + 1,
        });
    }
    Ok(Counts {
        variables: counts.variables,
        process,
        instances: counts.instances + 1,
    })
}
