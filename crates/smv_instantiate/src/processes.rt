//! The processes, and the variable that names the one that makes the step.

ghost use Rattle.std.specs.Prelude.{◌≡◌, ◌≤◌, ◌^◌, [], pos, IfOk, IsTrue, List, Some, filter, length, map, slice_get, take};
ghost use Rattle.std.specs.List.{cons_option, AllZip};
ghost use Rattle.kripke_model.specs.declared.expressions.Value.TheVariants.{Number};
ghost use Rattle.smv_instances.specs.declared.modules.Modules.{Modules as Tables};
ghost use Rattle.smv_instances.specs.Program.{Program as Plain};
ghost use Rattle.smv_instances.specs.Instances.{Scope, declares_process, instances, is_process, process_entries, process_name as name_of, processes as processes_in, rising, selector_name, selector_variables};
ghost use Rattle.smv_instances.specs.Numbered.{plain_entity, plain_entry};
ghost use Rattle.smv_instances.specs.Walk.{AreRows, IsInside};

use crate::fronts::spelled_name;
use crate::types::number_value;
use kripke_model::Name;
use kripke_model::models::FlatVar;
use smv_instances::modules::Modules;
use smv_instances::rows::Row;
use smv_instances::{Entity, Entry};
use std::alloc::{AllocError, Global};

/// The name of a process.
fn process_name(alloc: Global, rows: &[Row<'_>], number: usize) -> Result<Name, AllocError>
    requires { (ms : Tables) × IsInside ms rows.now number }
    ensures { (ms : Tables) (done : List Scope) (s : Scope) → AreRows ms rows.now done
        → slice_get done number ≡ Some s → IsTrue (is_process s)
        → IfOk result (λ name. name ≡ name_of s) }
{
    let row = &rows[number];
    match &row.step {
        None => Ok(Name::new(String::from_str(alloc, "main")?)),
        Some(step) => spelled_name(alloc, rows, step.around, step.name),
    }
}

/// The names of the processes, which are the instances of these numbers.
pub fn processes_of(
    alloc: Global,
    rows: &[Row<'_>],
    numbers: &[usize],
) -> Result<Vec<Name>, AllocError>
    requires { (ms : Tables) × (done : List Scope) × AreRows ms rows.now done
        × AllZip (λ n c. slice_get done n ≡ Some c) numbers.now (filter is_process done) }
    ensures { (ms : Tables) (done : List Scope) → AreRows ms rows.now done
        → AllZip (λ n c. slice_get done n ≡ Some c) numbers.now (filter is_process done)
        → IfOk result (λ names. names.items ≡ map name_of (filter is_process done)) }
{
    let mut names = Vec::new(alloc);
    for number in numbers {
        names.push(process_name(alloc, rows, *number)?)?;
    }
    Ok(names)
}

/// Whether it is a process instance.
fn is_process_instance(entity: &Entity<'_>) -> bool
    ensures { result ≡ declares_process (plain_entity entity.now) }
{
    match entity {
        Entity::Instance { process, .. } => *process,
        Entity::Parameter | Entity::Stored(_) | Entity::Defined(_) => false,
    }
}

/// The line of the first process instance among the entries of a body.
fn body_line(entries: &[Entry<'_>]) -> Option<u32>
    ensures { cons_option result [] ≡ map
        (λ e. e.line)
        (take 1 (filter (λ e. declares_process e.entity) (map plain_entry entries.now))) }
{
    for entry in entries {
        if is_process_instance(&entry.entity) {
            return Some(entry.line);
        }
    }
    None
}

/// The line of the first process instance's declaration.
pub fn process_line(modules: &Modules<'_>, rows: &[Row<'_>]) -> Option<u32>
    requires { (p : Plain) × AreRows modules.now rows.now (instances p) }
    ensures { (p : Plain) → AreRows modules.now rows.now (instances p) → cons_option result [] ≡ map
        (λ e. e.1.line) (take 1 (process_entries p)) }
{
    for row in rows {
        let table = &modules.tables[row.table];
        if let Some(line) = body_line(&table.entries) {
            return Some(line);
        }
    }
    None
}

/// The variable that names one of so many processes, declared at this line.
pub fn selector(alloc: Global, processes: usize, line: u32) -> Result<FlatVar, AllocError>
    requires { processes ≤ 2 ^ 31 }
    ensures { IfOk result
        (λ v. v ≡ record {
          name = selector_name;
          values = map (λ k. Number (pos k))
              (rising 0 processes);
          line = line;
        }) }
{
    let mut values = Vec::new(alloc);
    for process in 0..processes {
        values.push(number_value(process as u32))?;
    }
    let name = Name::new(String::from_str(alloc, "running")?);
    Ok(FlatVar { name, values, line })
}

/// The variable that names the process, if there is a process instance, where there are so many processes.
pub fn selectors(
    alloc: Global,
    modules: &Modules<'_>,
    rows: &[Row<'_>],
    processes: usize,
) -> Result<Vec<FlatVar>, AllocError>
    requires few { processes ≤ 2 ^ 31 }
    requires rows { (p : Plain) × AreRows modules.now rows.now (instances p) }
    ensures { (p : Plain) → AreRows modules.now rows.now (instances p)
        → processes ≡ length (processes_in p)
        → IfOk result (λ vs. vs.items ≡ selector_variables p) }
{
    let mut variables = Vec::new(alloc);
    match process_line(modules, rows) {
        None => Ok(variables),
        Some(line) => {
            variables.push(selector(alloc, processes, line)?)?;
            Ok(variables)
        }
    }
}
