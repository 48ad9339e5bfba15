//! The flat model of a program.

ghost use Rattle.std.specs.Prelude.{◌≡◌, ◌⊎◌, [], IfErr, IfOk, MatchResult, OnOk};
ghost use Rattle.kripke_model.specs.Flat.{IsFlat};
ghost use Rattle.kripke_model.specs.Refusing.{First, Silent};
ghost use Rattle.smv_parser.specs.ProgramView as programs;
ghost use Rattle.smv_instances.specs.Answers.{Refused};
ghost use Rattle.smv_instances.specs.Built.{AreInstances};
ghost use Rattle.smv_instances.specs.Instances.{variables as variables_in};
ghost use Rattle.smv_instances.specs.Plain.{plain_program};
ghost use Rattle.smv_instances.specs.Program.{Program as Plain};
ghost use Rattle.smv_names.specs.Paths.{ArePaths};
ghost use Rattle.smv_instantiate.specs.Flattens.{Flattens, all_items};
ghost use Rattle.smv_instantiate.specs.Parsed.{IsParsed};
ghost use Rattle.smv_instantiate.specs.Parts.{AreParts};
ghost use Rattle.smv_instantiate.specs.Refuses.{Refuses, item};
ghost use Rattle.smv_instantiate.specs.Written.{IsWritten};

use crate::bodies::variables_of;
use crate::firsts::firsts_of;
use crate::names::VariableNames;
use crate::parts::{FlatParts, parts_of};
use crate::passes::check_items;
use crate::processes::processes_of;
use kripke_model::Name;
use kripke_model::models::{FlatModel, FlatVar};
use kripke_model::refusals::FlatRefusal;
use smv_instances::Instances;
use smv_instances::names::Names;
use smv_names::Paths;
use smv_parser::Program;
use std::alloc::{AllocError, Global};

/// The symbolic constants once more.
fn copied_symbols(alloc: Global, symbols: &Names<'_>) -> Result<Vec<Name>, AllocError>
    ensures { IfOk result (λ names. names.items ≡ symbols.now) }
{
    let mut names = Vec::new(alloc);
    for place in 0..symbols.len() {
        names.push(Name::new(String::from_str(alloc, symbols.name_at(place))?))?;
    }
    Ok(names)
}

/// The flat variables of all instances.
fn flat_variables(alloc: Global, instances: &Instances<'_>) -> Result<Vec<FlatVar>, AllocError>
    requires { (p : Plain) × AreInstances p instances.now × IsWritten p }
    ensures { (p : Plain) → AreInstances p instances.now → IsWritten p
        → IfOk result (λ variables. variables.items ≡ variables_in p) }
{
    variables_of(
        alloc,
        &instances.modules,
        &instances.rows,
        &instances.symbols,
        instances.processes.len(),
    )
}

/// Goes over the items of all instances, and gives the flat ones.
fn checked_parts<'p>(
    alloc: Global,
    instances: &Instances<'p>,
    paths: &Paths<'p>,
    variables: &[FlatVar],
) -> Result<FlatParts, FlatRefusal>
    requires { (p : Plain) × AreInstances p instances.now × ArePaths p instances.now paths.now
        × IsWritten p × (variables.now ≡ variables_in p) }
    ensures { (p : Plain) → AreInstances p instances.now → ArePaths p instances.now paths.now
        → IsWritten p → variables.now ≡ variables_in p
        → MatchResult result (λ parts. AreParts p (all_items p) parts
        × Silent (First (item p) [] (all_items p))) (Refused (First (item p) [] (all_items p))) }
{
    let names = VariableNames::of(alloc, variables)?;
    let firsts = firsts_of(alloc, instances, &paths.targets, &names)?;
    check_items(alloc, instances, paths, &firsts)?;
    let parts = parts_of(alloc, instances, paths, &firsts)?;
    Ok(parts)
}

/// The flat model of these variables and items.
fn model_of<'p>(
    alloc: Global,
    instances: &Instances<'p>,
    variables: Vec<FlatVar>,
    parts: FlatParts,
) -> Result<FlatModel, AllocError>
    requires { (p : Plain) × AreInstances p instances.now }
    ensures { (p : Plain) → AreInstances p instances.now → variables.items ≡ variables_in p
        → AreParts p (all_items p) parts → IfOk result (Flattens p) }
{
    let symbols = copied_symbols(alloc, &instances.symbols)?;
    let processes = processes_of(alloc, &instances.rows, &instances.processes)?;
    let FlatParts {
        assigns,
        inits,
        invars,
        trans,
        constraints,
        specs,
    } = parts;
    Ok(FlatModel {
        symbols,
        vars: variables,
        selector: instances.selector,
        processes,
        assigns,
        inits,
        invars,
        trans,
        constraints,
        specs,
    })
}

/// The flat model of a program, or the first reason why it has none (McMillan, "The SMV System": modules, parameters,
/// definitions, arrays and processes are expanded).
pub fn flatten(alloc: Global, program: &Program) -> Result<FlatModel, FlatRefusal>
    requires { IsParsed (programs.program program.now) }
    ensures ok { OnOk result (Silent (Refuses (plain_program program.now))) }
    ensures flat { IfOk result (λ m. Flattens (plain_program program.now) m × IsFlat m) }
    ensures refused { IfErr result (λ r. (r ≡ FlatRefusal.Memory)
        ⊎ Refuses (plain_program program.now) r) }
{
    let instances = Instances::build(alloc, program)?;
    let paths = Paths::build(alloc, &instances)?;
    let variables = flat_variables(alloc, &instances)?;
    let parts = checked_parts(alloc, &instances, &paths, &variables)?;
    let model = model_of(alloc, &instances, variables, parts)?;
    Ok(model)
}
