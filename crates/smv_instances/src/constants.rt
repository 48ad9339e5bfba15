//! The symbolic constants of a program.

ghost use Rattle.std.specs.Prelude.{◌≡◌, ◌&&◌, ◌++◌, [], List, IsTrue, IfErr, IfOk, OnOk, filter_map, flat_map, map, not};
ghost use Rattle.std.specs.List.{cons_option, list_any};
ghost use Rattle.std.specs.Str.{bytes_eq};
ghost use Rattle.kripke_model.specs.Refusing.{Silent, first_of, refuse};
ghost use Rattle.smv_instances.specs.Program.{Name as Text};
ghost use Rattle.smv_instances.specs.Plain.{plain_constant, plain_type};
ghost use Rattle.smv_instances.specs.Instances.{Scope, atom, atoms_in, atoms_of, distinct_names};
ghost use Rattle.smv_instances.specs.Declarations.{is_parameter};
ghost use Rattle.smv_instances.specs.Numbered.{plain_entity, plain_entry};
ghost use Rattle.smv_instances.specs.Symbols.{body_atoms, entry_atoms};
ghost use Rattle.smv_instances.specs.Walk.{AreRows};

use crate::entries::{Entity, Entry};
use crate::modules::Modules;
use crate::names::Names;
use crate::rows::Row;
use kripke_model::refusals::FlatRefusal;
use smv_parser::{Constant, ConstantKind, Plain, PlainKind};
use std::alloc::{AllocError, Global};

// Adds a constant that is a name.
fn add_constant<'p>(symbols: &mut Names<'p>, constant: &'p Constant) -> Result<(), AllocError>
    ensures { (seen : List Text) → symbols.old ≡ distinct_names seen
        → IfOk result
        (λ _. symbols.new ≡ distinct_names (seen ++ cons_option (atom (plain_constant constant.now))
        [])) }
{
    match &constant.kind {
        ConstantKind::Name(name) => {
            symbols.insert(name.as_str())?;
            Ok(())
        }
        ConstantKind::Number(_) | ConstantKind::Truth(_) => Ok(()),
    }
}

// Adds those of the constants that are names.
fn add_constants<'p>(symbols: &mut Names<'p>, constants: &'p [Constant]) -> Result<(), AllocError>
    ensures { (seen : List Text) → symbols.old ≡ distinct_names seen
        → IfOk result
        (λ _. symbols.new
        ≡ distinct_names (seen ++ filter_map atom (map plain_constant constants.now))) }
{
    for constant in constants {
        add_constant(symbols, constant)?;
    }
    Ok(())
}

// Adds the names in a type.
fn add_atoms<'p>(symbols: &mut Names<'p>, plain: &'p Plain) -> Result<(), AllocError>
    ensures { (seen : List Text) → symbols.old ≡ distinct_names seen
        → IfOk result
        (λ _. symbols.new ≡ distinct_names (seen ++ atoms_in (plain_type plain.now))) }
{
    match &plain.kind {
        PlainKind::Boolean | PlainKind::Range(_, _) => Ok(()),
        PlainKind::Enumeration(constants) => add_constants(symbols, constants),
        PlainKind::Array(_, _, element) => add_atoms(symbols, element),
    }
}

// Adds the names in the type of an entry.
fn add_entry<'p>(symbols: &mut Names<'p>, entry: &Entry<'p>) -> Result<(), AllocError>
    ensures { (seen : List Text) → symbols.old ≡ distinct_names seen
        → IfOk result
        (λ _. symbols.new ≡ distinct_names (seen ++ atoms_of (plain_entity entry.now.entity))) }
{
    match &entry.entity {
        Entity::Stored(plain) => add_atoms(symbols, *plain),
        Entity::Parameter | Entity::Defined(_) | Entity::Instance { .. } => Ok(()),
    }
}

// Adds the names in the types of a body.
fn add_body<'p>(symbols: &mut Names<'p>, entries: &[Entry<'p>]) -> Result<(), AllocError>
    ensures { (seen : List Text) → symbols.old ≡ distinct_names seen
        → IfOk result
        (λ _. symbols.new ≡ distinct_names (seen ++ entry_atoms (map plain_entry entries.now))) }
{
    for entry in entries {
        add_entry(symbols, entry)?;
    }
    Ok(())
}

/// The names in the types of all bodies, each once, in the order of their first places.
pub fn symbols_of<'p>(
    alloc: Global,
    modules: &Modules<'p>,
    rows: &[Row<'p>],
) -> Result<Names<'p>, AllocError>
    requires { (done : List Scope) × AreRows modules.now rows.now done }
    ensures { (done : List Scope) → AreRows modules.now rows.now done
        → IfOk result (λ names. names ≡ distinct_names (flat_map body_atoms done)) }
{
    let mut symbols = Names::new(alloc);
    for row in rows {
        let table = &modules.tables[row.table];
        add_body(&mut symbols, &table.entries)?;
    }
    Ok(symbols)
}

/// Refuses the first variable, instance or defined symbol that has the name of a symbolic constant.
pub fn check_constants(entries: &[Entry<'_>], symbols: &Names<'_>) -> Result<(), FlatRefusal>
    ensures ok { OnOk result (Silent (first_of (map plain_entry entries.now)
        (λ e. refuse (FlatRefusal.NameIsConstant e.line)
        (IsTrue (not (is_parameter e.entity) && list_any (bytes_eq e.name) symbols.now))))) }
    ensures refused { IfErr result (first_of (map plain_entry entries.now)
        (λ e. refuse (FlatRefusal.NameIsConstant e.line)
        (IsTrue (not (is_parameter e.entity) && list_any (bytes_eq e.name) symbols.now)))) }
{
    for entry in entries {
        if is_named_constant(entry, symbols) {
            return Err(FlatRefusal::NameIsConstant { line: entry.line });
        }
    }
    Ok(())
}

fn is_named_constant(entry: &Entry<'_>, symbols: &Names<'_>) -> bool
    ensures { result ≡ (not (is_parameter (plain_entity entry.now.entity)) && list_any
        (bytes_eq entry.now.name.now) symbols.now) }
{
    match &entry.entity {
        Entity::Parameter => false,
        Entity::Stored(_) | Entity::Instance { .. } | Entity::Defined(_) => {
            symbols.contains(entry.name.as_str())
        }
    }
}
