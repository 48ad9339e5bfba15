//! The modules of a program, by their names.

ghost use Rattle.std.specs.Prelude.{◌≡◌, ◌≤◌, map, IfOk, IfErr, OnOk};
ghost use Rattle.kripke_model.specs.Refusing.{Silent};
ghost use Rattle.smv_instances.specs.Program.{Program as Plain};
ghost use Rattle.smv_instances.specs.Plain.{plain_module, plain_program};
ghost use Rattle.smv_instances.specs.Declarations.{is_instance, no_main, one_if, second_module};
ghost use Rattle.smv_instances.specs.Numbered.{plain_entity, plain_entry};
ghost use Rattle.smv_instances.specs.Answers.{Refused};
ghost use Rattle.smv_instances.specs.Tables.{AreModules, IsFront, IsKnown, IsTable, counts_from};
ghost use Rattle.smv_instances.specs.Walk.{Starts};

use crate::entries::{Entity, Entry, entries_of};
use crate::names::Names;
use kripke_model::refusals::FlatRefusal;
use smv_parser::{Module, Program};
use std::alloc::{AllocError, Global};

/// What a module declares.
#[derive(Drop)]
pub struct Table<'p> {
    pub source: &'p Module,
    /// In text order.
    pub entries: Vec<Entry<'p>>,
    /// The names of the entries, up to the first that stood before.
    pub names: Names<'p>,
    /// How many instances stand before each entry.
    pub ordinals: Vec<usize>,
}

/// The modules of a program, and what they declare.
#[derive(Drop)]
pub struct Modules<'p> {
    pub tables: Vec<Table<'p>>,
    pub names: Names<'p>,
}

/// The names up to the first that stood before.
fn distinct_names<'p>(alloc: Global, entries: &[Entry<'p>]) -> Result<Names<'p>, AllocError>
    ensures { IfOk result (IsFront (map (λ e. e.name.now) entries.now)) }
{
    let mut names = Names::new(alloc);
    for entry in entries {
        if !names.insert(entry.name.as_str())? {
            return Ok(names);
        }
    }
    Ok(names)
}

// How many instances an entry declares.
fn instance_count(entry: &Entry<'_>) -> usize
    ensures count { result ≡ one_if (is_instance (plain_entity entry.now.entity)) }
    ensures bound { result ≤ 1 }
{
    match &entry.entity {
        Entity::Instance { .. } => 1,
        Entity::Parameter | Entity::Stored(_) | Entity::Defined(_) => 0,
    }
}

/// How many instances stand before each entry.
fn ordinals_of(alloc: Global, entries: &[Entry<'_>]) -> Result<Vec<usize>, AllocError>
    ensures { IfOk result (λ v. v.items ≡ counts_from 0 (map plain_entry entries.now)) }
{
    let mut ordinals = Vec::new(alloc);
    let mut count = 0;
    for entry in entries {
        ordinals.push(count)?;
        count += instance_count(entry);
    }
    Ok(ordinals)
}

fn table_of<'p>(alloc: Global, source: &'p Module) -> Result<Table<'p>, AllocError>
    ensures { IfOk result (λ t. IsTable t (plain_module source.now)) }
{
    let entries = entries_of(alloc, source)?;
    let names = distinct_names(alloc, &entries)?;
    let ordinals = ordinals_of(alloc, &entries)?;
    Ok(Table {
        source,
        entries,
        names,
        ordinals,
    })
}

/// The modules of a program, each name once.
pub fn modules_of<'p>(alloc: Global, program: &'p Program) -> Result<Modules<'p>, FlatRefusal>
    ensures modules { IfOk result (λ m. AreModules m (plain_program program.now)) }
    ensures ok { OnOk result (Silent (second_module (plain_program program.now))) }
    ensures refused { IfErr result (Refused (second_module (plain_program program.now))) }
{
    let mut tables = Vec::new(alloc);
    let mut names = Names::new(alloc);
    for source in &program.modules {
        if !names.insert(source.name.as_str())? {
            return Err(FlatRefusal::DuplicateName { line: source.line });
        }
        tables.push(table_of(alloc, source)?)?;
    }
    Ok(Modules { tables, names })
}

/// The place of `main`, which has no formal parameters.
pub fn find_main(modules: &Modules<'_>) -> Result<usize, FlatRefusal>
    requires { IsKnown modules.now }
    ensures main { (p : Plain) → AreModules modules.now p → IfOk result (Starts modules.now p) }
    ensures ok { (p : Plain) → AreModules modules.now p → OnOk result (Silent (no_main p)) }
    ensures refused { (p : Plain) → AreModules modules.now p → IfErr result (no_main p) }
{
    let Some(place) = modules.names.place("main") else {
        return Err(FlatRefusal::NoMain);
    };
    let table = &modules.tables[place];
    if !table.source.formals.is_empty() {
        return Err(FlatRefusal::NoMain);
    }
    Ok(place)
}
