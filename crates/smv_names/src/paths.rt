//! What the paths and definitions of a program stand for.

ghost use Rattle.std.specs.Prelude.{◌≡◌, ◌⊎◌, IfErr, IfOk, OnOk};
ghost use Rattle.kripke_model.specs.Refusing.{Silent, first_of};
ghost use Rattle.smv_instances.specs.Program.{Program as Plain};
ghost use Rattle.smv_instances.specs.Instances.{all_entries};
ghost use Rattle.smv_instances.specs.Built.{AreInstances};
ghost use Rattle.smv_names.specs.Abbreviations.{definition};
ghost use Rattle.smv_names.specs.Paths.{ArePaths};

use crate::definitions::check_definitions;
use crate::resolving::Targets;
use crate::sizes::Size;
use crate::tables::{Tables, tables_of};
use crate::uses::order_of_uses;
use kripke_model::refusals::FlatRefusal;
use smv_instances::Instances;
use std::alloc::Global;

/// What the paths and definitions of a program stand for, where none is refused. The tables have an
/// entry for each abbreviation, by its number.
#[derive(Drop)]
pub struct Paths<'p> {
    pub targets: Targets<'p>,
    /// The numbers that abbreviations stand for, where they are arithmetic on numbers alone.
    pub numbers: Vec<Option<i64>>,
    pub sizes: Vec<Size>,
    /// The ends of chains of definitions that are a path alone, by their numbers.
    pub ends: Vec<usize>,
}

impl<'p> Paths<'p> {
    /// The tables, or why a definition or an actual parameter is refused.
    pub fn build(alloc: Global, instances: &Instances<'p>) -> Result<Paths<'p>, FlatRefusal>
        requires { (p : Plain) × AreInstances p instances.now }
        ensures silent { (p : Plain) → AreInstances p instances.now
            → OnOk result (Silent (first_of (all_entries p) (definition p))) }
        ensures paths { (p : Plain) → AreInstances p instances.now
            → IfOk result (λ x. ArePaths p instances.now x) }
        ensures refused { (p : Plain) → AreInstances p instances.now
            → IfErr result (λ r. (r ≡ FlatRefusal.Memory)
            ⊎ first_of (all_entries p) (definition p) r) }
    {
        let targets = Targets::build(alloc, instances)?;
        let order = order_of_uses(alloc, instances, &targets)?;
        let tables = tables_of(alloc, instances, &targets, &order)?;
        check_definitions(alloc, instances, &targets, &order, &tables.numbers)?;
        let Tables {
            numbers,
            sizes,
            ends,
        } = tables;
        Ok(Paths {
            targets,
            numbers,
            sizes,
            ends,
        })
    }
}
