//! What the entries of a body are refused for.

ghost use Rattle.std.specs.Prelude.{◌≡◌, ◌↔◌, ℕ, List, Some, IsTrue, map, slice_get};
ghost use Rattle.std.specs.List.{list_any};
ghost use Rattle.std.specs.Str.{bytes_eq};
ghost use Rattle.smv_instances.specs.Program.{Program as Plain};
ghost use Rattle.smv_instances.specs.Plain.{plain_expr};
ghost use Rattle.smv_instances.specs.Entries.{Entity as Kind, Entry as Stood};
ghost use Rattle.smv_instances.specs.Instances.{Scope, modules_to};
ghost use Rattle.smv_instances.specs.Declarations.{IsSecondMain, entries_of};
ghost use Rattle.smv_instances.specs.Counting.{Counted, IsCounts};
ghost use Rattle.smv_instances.specs.Numbered.{plain_entry};
ghost use Rattle.smv_instances.specs.Tables.{AreModules, IsFresh, IsKnown};
ghost use Rattle.smv_instances.specs.Walk.{AreRows, ChecksBody, CountsBody, IsInside, IsStep};

use crate::counts::{Counts, count_instance, count_stored};
use crate::entries::{Entity, Entry};
use crate::modules::Modules;
use crate::rows::Row;
use kripke_model::Name;
use kripke_model::refusals::FlatRefusal;
use smv_parser::Expr;
use std::alloc::Global;

/// Whether a module of this name is on the way from `main` to the instance.
fn is_on_way(modules: &Modules<'_>, rows: &[Row<'_>], number: usize, name: &Name) -> bool
    requires { IsInside modules.now rows.now number }
    ensures { (done : List Scope) (s : Scope) → AreRows modules.now rows.now done
        → slice_get done number ≡ Some s → result ≡ list_any (bytes_eq name.now) (modules_to s) }
{
    let row = &rows[number];
    let table = &modules.tables[row.table];
    if name.as_bytes() == table.source.name.as_bytes() {
        return true;
    }
    match &row.step {
        Some(step) => is_on_way(modules, rows, step.around, name),
        None => false,
    }
}

/// Counts an instance of a module, or refuses it.
fn check_instance(
    modules: &Modules<'_>,
    rows: &[Row<'_>],
    number: usize,
    line: u32,
    process: bool,
    name: &Name,
    actuals: &[Expr],
    counts: &Counts,
) -> Result<Counts, FlatRefusal>
    requires known { IsKnown modules.now }
    requires inside { IsInside modules.now rows.now number }
    ensures { (p : Plain) (done : List Scope) (s : Scope) (es : List Stood) (e : Stood)
        → AreModules modules.now p → AreRows modules.now rows.now done
        → slice_get done number ≡ Some s → IsCounts counts.now es
        → e.entity ≡ Kind.Instance process name.now (map plain_expr actuals.now)
        → Counted p s es e line result }
{
    let Some(place) = modules.names.place(name.as_str()) else {
        return Err(FlatRefusal::UnknownName { line });
    };
    if is_on_way(modules, rows, number, name) {
        return Err(FlatRefusal::RecursiveModule { line });
    }
    let table = &modules.tables[place];
    if table.source.formals.len() != actuals.len() {
        return Err(FlatRefusal::ArgumentCount { line });
    }
    let row = &rows[number];
    count_instance(line, process, row.depth, counts)
}

/// Counts an entry, or refuses it.
fn count_entry(
    alloc: Global,
    modules: &Modules<'_>,
    rows: &[Row<'_>],
    number: usize,
    entry: &Entry<'_>,
    counts: &Counts,
) -> Result<Counts, FlatRefusal>
    requires known { IsKnown modules.now }
    requires inside { IsInside modules.now rows.now number }
    ensures { (p : Plain) (done : List Scope) (s : Scope) (es : List Stood)
        → AreModules modules.now p → AreRows modules.now rows.now done
        → slice_get done number ≡ Some s → IsCounts counts.now es
        → Counted p s es (plain_entry entry.now) entry.now.line result }
{
    match &entry.entity {
        Entity::Parameter | Entity::Defined(_) => Ok(*counts),
        Entity::Stored(plain) => count_stored(alloc, entry.line, plain, counts),
        Entity::Instance {
            process,
            module: name,
            actuals,
        } => check_instance(
            modules, rows, number, entry.line, *process, name, actuals, counts,
        ),
    }
}

/// Whether a process instance of `main` has the name of process 0.
fn is_second_main(row: &Row<'_>, entry: &Entry<'_>) -> bool
    ensures { (done : List Scope) (number : ℕ) (s : Scope) → IsStep done number row.now.step s
        → IsTrue result ↔ IsSecondMain s (plain_entry entry.now) }
{
    row.step.is_none()
        && matches!(&entry.entity, Entity::Instance { process: true, .. })
        && entry.name.as_bytes() == b"main".as_slice()
}

/// Counts the entries of a body up to the first whose name stood before, or refuses one of them.
fn count_entries(
    alloc: Global,
    modules: &Modules<'_>,
    rows: &[Row<'_>],
    number: usize,
    entries: &[Entry<'_>],
    counts: &Counts,
) -> Result<Counts, FlatRefusal>
    requires known { IsKnown modules.now }
    requires inside { IsInside modules.now rows.now number }
    ensures { (p : Plain) (done before : List Scope) (s : Scope) → AreModules modules.now p
        → AreRows modules.now rows.now done → slice_get done number ≡ Some s
        → IsCounts counts.now (entries_of before)
        → IsFresh (map (λ e. e.name) (map plain_entry entries.now))
        → CountsBody p before s (map plain_entry entries.now) result }
{
    let row = &rows[number];
    let mut so_far = *counts;
    for entry in entries {
        if is_second_main(row, entry) {
            return Err(FlatRefusal::DuplicateName { line: entry.line });
        }
        so_far = count_entry(alloc, modules, rows, number, entry, &so_far)?;
    }
    Ok(so_far)
}

/// Counts the entries of a body, or refuses one of them.
pub fn check_body(
    alloc: Global,
    modules: &Modules<'_>,
    rows: &[Row<'_>],
    number: usize,
    counts: &Counts,
) -> Result<Counts, FlatRefusal>
    requires known { IsKnown modules.now }
    requires inside { IsInside modules.now rows.now number }
    ensures { (p : Plain) (done before : List Scope) (s : Scope) → AreModules modules.now p
        → AreRows modules.now rows.now done → slice_get done number ≡ Some s
        → IsCounts counts.now (entries_of before) → ChecksBody p before s result }
{
    let row = &rows[number];
    let table = &modules.tables[row.table];
    let fresh = table.names.len();
    let counts = count_entries(
        alloc,
        modules,
        rows,
        number,
        &table.entries[..fresh],
        counts,
    )?;
    match table.entries.get(fresh) {
        Some(entry) => Err(FlatRefusal::DuplicateName { line: entry.line }),
        None => Ok(counts),
    }
}
