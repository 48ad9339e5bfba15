//! The first flat variables of what is declared, and the places of elements behind them.

ghost use Rattle.std.specs.Prelude.{◌≡◌, ◌+◌, ◌-◌, ◌*◌, ◌≤◌, ℕ, IfOk, Some, reverse, slice_get};
ghost use Rattle.std.specs.List.{AllZip};
ghost use Rattle.smv_instances.specs.Program.{Plain as Stored, Program as Plain};
ghost use Rattle.smv_instances.specs.Plain.{plain_type};
ghost use Rattle.smv_instances.specs.Entries.{Entity as Declared, entity_in, entries};
ghost use Rattle.smv_instances.specs.Instances.{Scope, module_of, place_of, spelled, variable_names};
ghost use Rattle.smv_instances.specs.Numbered.{plain_entry, scope_at};
ghost use Rattle.smv_instances.specs.Built.{AreInstances};
ghost use Rattle.smv_names.specs.Ready.{AreTargets};
ghost use Rattle.smv_instantiate.specs.Firsts.{AreFirsts, IsFirst, IsWithin, first_element, offset as offset_of};
ghost use Rattle.smv_instantiate.specs.Names.{AreVariableNames};
ghost use Rattle.smv_instantiate.specs.Written.{IsWritten};

use crate::fronts::spelled_name;
use crate::names::VariableNames;
use crate::types::indexed_name;
use kripke_model::Name;
use smv_instances::{Entity, Entry, Instances};
use smv_names::{Bracket, Targets};
use smv_parser::{Plain as Type, PlainKind};
use std::alloc::{AllocError, Global};

// ---- first flat variables

/// The name of the first element of a variable or an array.
fn first_name(alloc: Global, plain: &Type, name: Name) -> Result<Name, AllocError>
    ensures { IfOk result (λ first. first ≡ first_element (plain_type plain.now) name) }
{
    match &plain.kind {
        PlainKind::Array(low, _, element) => {
            first_name(alloc, element, indexed_name(alloc, &name, *low)?)
        }
        PlainKind::Boolean | PlainKind::Enumeration(_) | PlainKind::Range(_, _) => Ok(name),
    }
}

/// The number of the first flat variable of an entry of an instance, if it declares a variable or an array.
fn first_of(
    alloc: Global,
    instances: &Instances<'_>,
    names: &VariableNames<'_>,
    i: usize,
    entry: &Entry<'_>,
) -> Result<Option<u32>, AllocError>
    requires { (p : Plain) × (s : Scope) × AreInstances p instances.now × (scope_at p i ≡ Some s) }
    ensures { (p : Plain) (s : Scope) (k : ℕ) → AreInstances p instances.now → IsWritten p
        → AreVariableNames p names.now → scope_at p i ≡ Some s
        → slice_get (entries (module_of s)) k ≡ Some (plain_entry entry.now)
        → IfOk result (λ first. IsFirst p first (s, plain_entry entry.now)) }
{
    match &entry.entity {
        Entity::Stored(plain) => {
            let flat = spelled_name(alloc, &instances.rows, i, entry.name)?;
            let first = first_name(alloc, *plain, flat)?;
            Ok(names.number(&first))
        }
        Entity::Parameter | Entity::Defined(_) | Entity::Instance { .. } => Ok(None),
    }
}

/// The numbers of the first flat variables of all entries, by the numbers of the entries.
pub fn firsts_of(
    alloc: Global,
    instances: &Instances<'_>,
    targets: &Targets<'_>,
    names: &VariableNames<'_>,
) -> Result<Vec<Option<u32>>, AllocError>
    requires { (p : Plain) × AreTargets p instances.now targets.now }
    ensures { (p : Plain) → AreTargets p instances.now targets.now → IsWritten p
        → AreVariableNames p names.now → IfOk result (λ firsts. AreFirsts p firsts.items) }
{
    let mut firsts = Vec::new(alloc);
    for node in 0..targets.nodes.count {
        let (i, place) = targets.nodes.entry(node);
        let entry = &instances.entries(i)[place];
        firsts.push(first_of(alloc, instances, names, i, entry)?)?;
    }
    Ok(firsts)
}

/// The number of the first flat variable of the variable or array that an instance declares under a name.
pub fn first_at(
    instances: &Instances<'_>,
    targets: &Targets<'_>,
    firsts: &[Option<u32>],
    i: usize,
    name: &Name,
) -> u32
    requires { (p : Plain) × (s : Scope) × (type : Stored) × AreTargets p instances.now targets.now
        × AreFirsts p firsts.now × (scope_at p i ≡ Some s)
        × (entity_in (module_of s) name.now ≡ Some (Declared.Stored type)) }
    ensures { (p : Plain) (s : Scope) (type : Stored) → AreTargets p instances.now targets.now
        → AreFirsts p firsts.now → scope_at p i ≡ Some s
        → entity_in (module_of s) name.now ≡ Some (Declared.Stored type)
        → result ≡ place_of (variable_names p) (first_element type (spelled s name.now)) }
{
    let Some(place) = instances.entry_at(i, name) else {
        unreachable!()
    };
    let Some(first) = firsts[targets.nodes.node(i, place)] else {
        unreachable!()
    };
    first
}

// ---- elements

/// How many elements stand before one of a row, where so many rows stand before that row.
fn next_offset(rows: u32, bracket: &Bracket<'_>, value: u32) -> u32
    requires within { IsWithin bracket.now value }
    requires few { rows * (bracket.now.high + 1 - bracket.now.low)
        + (value - bracket.now.low) ≤ 255 }
    ensures { result ≡ rows * (bracket.now.high + 1 - bracket.now.low)
        + (value - bracket.now.low) }
{
    rows * (bracket.high - bracket.low + 1) + (value - bracket.low)
}

/// How many elements of an array stand before the one that the values of the indexes select, the first one first.
pub fn offset(brackets: &[Bracket<'_>], values: &[u32]) -> u32
    requires within { AllZip IsWithin brackets.now values.now }
    requires few { offset_of (reverse brackets.now) (reverse values.now) ≤ 255 }
    ensures { result ≡ offset_of (reverse brackets.now) (reverse values.now) }
{
    let mut before = 0;
    for (bracket, value) in brackets.iter().zip(values) {
        before = next_offset(before, bracket, *value);
    }
    before
}
