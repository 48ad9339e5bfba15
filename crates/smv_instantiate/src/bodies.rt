//! The flat variables of all instances.

ghost use Rattle.std.specs.Prelude.{◌≡◌, ◌+◌, ◌<◌, ◌++◌, ◌∷◌, [], IfOk, Some, length};
ghost use Rattle.std.specs.List.{cons_option};
ghost use Rattle.smv_instances.specs.Program.{Program as Plain};
ghost use Rattle.smv_instances.specs.Instances.{Scope, child, entry_variables, processes as processes_in, variables as variables_in, variables_from};
ghost use Rattle.smv_instances.specs.Numbered.{plain_entry, scope_at};
ghost use Rattle.smv_instantiate.specs.Bodies.{AreBodies, IsEntry, front as front_of, inner_variables};

use crate::fronts::{flat_name, inner_front};
use crate::processes::selectors;
use crate::variables::push_variables;
use kripke_model::Name;
use kripke_model::models::FlatVar;
use smv_instances::counts::MOST_DEPTH;
use smv_instances::modules::Modules;
use smv_instances::names::Names;
use smv_instances::rows::Row;
use smv_instances::{Entity, Entry};
use std::alloc::{AllocError, Global};

/// Adds the flat variables of an instance that another declares under this name, and of those inside it, where it may
/// have so many levels.
#[cycle(bodies)]
fn push_inside(
    alloc: Global,
    modules: &Modules<'_>,
    rows: &[Row<'_>],
    symbols: &Names<'_>,
    number: usize,
    front: &Name,
    name: &Name,
    left: usize,
    variables: &mut Vec<FlatVar>,
) -> Result<(), AllocError>
    requires { (p : Plain) × (c : Scope) × AreBodies p modules.now rows.now symbols.now
        × (scope_at p number ≡ Some c) }
    ensures { (p : Plain) (c : Scope) → AreBodies p modules.now rows.now symbols.now
        → scope_at p number ≡ Some c → front_of c ≡ front.now ++ name.now ++ 46 ∷ []
        → IfOk result (λ _. variables.new.items ≡ variables.old.items ++ inner_variables p left c) }
{
    if left == 0 {
        return Ok(());
    }
    let inner = Name::new(inner_front(alloc, front.as_str(), name)?);
    push_body(
        alloc,
        modules,
        rows,
        symbols,
        number,
        &inner,
        left - 1,
        variables,
    )
}

/// Adds the flat variables of an entry of an instance with these children, after so many of them, and gives how many
/// stand before the next entry.
#[cycle(bodies)]
fn push_entry(
    alloc: Global,
    modules: &Modules<'_>,
    rows: &[Row<'_>],
    symbols: &Names<'_>,
    number: usize,
    entry: &Entry<'_>,
    before: usize,
    front: &Name,
    left: usize,
    variables: &mut Vec<FlatVar>,
) -> Result<usize, AllocError>
    requires within { number < length rows.now }
    requires entry { (p : Plain) × (s : Scope) × AreBodies p modules.now rows.now symbols.now
        × (scope_at p number ≡ Some s) × IsEntry p s (plain_entry entry.now) before }
    ensures count { (p : Plain) (s : Scope) → AreBodies p modules.now rows.now symbols.now
        → scope_at p number ≡ Some s → IsEntry p s (plain_entry entry.now) before
        → IfOk result
        (λ n. n ≡ before + length (cons_option (child p s (plain_entry entry.now)) [])) }
    ensures added { (p : Plain) (s : Scope) → AreBodies p modules.now rows.now symbols.now
        → scope_at p number ≡ Some s → IsEntry p s (plain_entry entry.now) before
        → front.now ≡ front_of s
        → IfOk result (λ _. variables.new.items ≡ variables.old.items ++ entry_variables p
        (inner_variables p left) s (plain_entry entry.now)) }
{
    match &entry.entity {
        Entity::Parameter | Entity::Defined(_) => Ok(before),
        Entity::Stored(plain) => {
            let name = flat_name(alloc, front.as_str(), entry.name)?;
            push_variables(alloc, variables, *plain, name, entry.line, symbols)?;
            Ok(before)
        }
        Entity::Instance { .. } => {
            let row = &rows[number];
            let inside = row.children[before];
            push_inside(
                alloc, modules, rows, symbols, inside, front, entry.name, left, variables,
            )?;
            Ok(before + 1)
        }
    }
}

/// Adds the flat variables of an instance and of those inside it, at most so many levels deeper.
#[cycle(bodies)]
pub fn push_body(
    alloc: Global,
    modules: &Modules<'_>,
    rows: &[Row<'_>],
    symbols: &Names<'_>,
    number: usize,
    front: &Name,
    left: usize,
    variables: &mut Vec<FlatVar>,
) -> Result<(), AllocError>
    requires { (p : Plain) × (s : Scope) × AreBodies p modules.now rows.now symbols.now
        × (scope_at p number ≡ Some s) }
    ensures { (p : Plain) (s : Scope) → AreBodies p modules.now rows.now symbols.now
        → scope_at p number ≡ Some s → front.now ≡ front_of s
        → IfOk result (λ _. variables.new.items ≡ variables.old.items ++ variables_from p left s) }
{
    let row = &rows[number];
    let table = &modules.tables[row.table];
    let mut before = 0;
    for entry in &table.entries {
        before = push_entry(
            alloc, modules, rows, symbols, number, entry, before, front, left, variables,
        )?;
    }
    Ok(())
}

/// The flat variables: the one that names the process, where there is one, then those of the declarations, depth first.
pub fn variables_of(
    alloc: Global,
    modules: &Modules<'_>,
    rows: &[Row<'_>],
    symbols: &Names<'_>,
    processes: usize,
) -> Result<Vec<FlatVar>, AllocError>
    requires { (p : Plain) × AreBodies p modules.now rows.now symbols.now
        × (processes ≡ length (processes_in p)) }
    ensures { (p : Plain) → AreBodies p modules.now rows.now symbols.now
        → processes ≡ length (processes_in p) → IfOk result (λ vs. vs.items ≡ variables_in p) }
{
    let mut variables = selectors(alloc, modules, rows, processes)?;
    let front = Name::new(String::new(alloc));
    push_body(
        alloc,
        modules,
        rows,
        symbols,
        0,
        &front,
        MOST_DEPTH,
        &mut variables,
    )?;
    Ok(variables)
}
