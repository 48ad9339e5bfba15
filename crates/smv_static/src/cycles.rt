//! Circular assignments.
//!
//! The edges of the initial graph are those of the initial and of the current values, and the edges of a process's
//! graph are those of its next values and of the current values. So the edges of the current values are kept in one
//! table for all graphs. In one graph a variable has one assignment only, since a second one was refused before: an
//! assignment lies on a cycle where its variable does. A process whose next values depend on no next value has no graph
//! of its own to search. Of any other process the next values are tried first: while nothing was found and none of them
//! lies on a cycle, no current value does, since a cycle of current values alone is one of the initial graph.

ghost use Rattle.std.specs.Prelude.{◌≡◌, ◌⊎◌, ◌<◌, ◌≤◌, ℕ, length, true, All, Contains, IfOk, IfErr, OnOk};
ghost use Rattle.kripke_model.specs.Flat.{IsFlat};
ghost use Rattle.kripke_model.specs.Refusing.{Silent};
ghost use Rattle.kripke_model.specs.Static.{Graph, assigned_twice, current_beside_other, circular_assignment};
ghost use Rattle.smv_static.specs.Circles.{IsLeastAmong, IsFirstCircular, IsFound, IsClear, HasTables};
ghost use Rattle.smv_static.specs.Groups.{IsTable};
ghost use Rattle.smv_static.specs.Numbers.{IsBelow, row};
ghost use Rattle.smv_static.specs.Sides.{IsFlagged};

use crate::assignments::is_flagged;
use crate::groups::{grouped, table};
use crate::numbers::{Row, row_at};
use crate::parts::{assigns_of, line_of_assign, process_count, variable_count};
use crate::ways::on_cycles;
use kripke_model::models::{Assign, FlatModel};
use kripke_model::refusals::StaticRefusal;
use std::alloc::{AllocError, Global};

/// The lesser of `least` and the place k of the assignment, if its variable is flagged.
fn lesser(assign: &Assign, k: usize, flags: &[bool], least: usize) -> usize
    ensures { (result ≡ least) × (k < least → IsFlagged flags.now assign.now → ⊥) ⊎ (result ≡ k)
        × (k < least) × IsFlagged flags.now assign.now }
{
    if k >= least {
        return least;
    }
    if is_flagged(flags, assign) { k } else { least }
}

/// The least of the bound and of those places whose assignment's variable is flagged.
fn least_flagged(assigns: &[Assign], places: &[u32], flags: &[bool], bound: usize) -> usize
    requires { All (λ k. k < length assigns.now) places.now }
    ensures { IsLeastAmong (IsFlagged flags.now) assigns.now places.now bound result }
{
    let mut least = bound;
    for place in places {
        let k = *place as usize;
        least = lesser(&assigns[k], k, flags, least);
    }
    least
}

/// What the graphs of a model are read from: its assignments in groups, and the edges of the current values.
#[derive(Drop)]
struct Tables {
    groups: Vec<Row>,
    base: Vec<Row>,
    processes: usize,
    variables: usize,
}

fn make_tables(alloc: Global, flat: &FlatModel) -> Result<Tables, AllocError>
    requires { IsFlat flat.now }
    ensures { IfOk result
        (λ t. HasTables flat.now t.groups.items t.base.items t.processes t.variables) }
{
    let processes = process_count(flat);
    let variables = variable_count(flat);
    let assigns = assigns_of(flat);
    let groups = grouped(alloc, assigns, processes)?;
    let base = table(alloc, assigns, row_at(&groups, processes), variables)?;
    Ok(Tables {
        groups,
        base,
        processes,
        variables,
    })
}

/// The least of the bound and of the places of one group whose assignment's variable is flagged.
fn least_of_group(
    flat: &FlatModel,
    tables: &Tables,
    group: usize,
    flags: &[bool],
    bound: usize,
) -> usize
    requires flat { IsFlat flat.now }
    requires tables { HasTables flat.now tables.now.groups.items tables.now.base.items
        tables.now.processes tables.now.variables }
    ensures { IsLeastAmong (IsFlagged flags.now) flat.now.assigns
        (row tables.now.groups.items group) bound result }
{
    let places = row_at(&tables.groups, group);
    least_flagged(assigns_of(flat), places, flags, bound)
}

/// The edges of one group.
fn edges_of(
    alloc: Global,
    flat: &FlatModel,
    tables: &Tables,
    group: usize,
) -> Result<Vec<Row>, AllocError>
    requires flat { IsFlat flat.now }
    requires tables { HasTables flat.now tables.now.groups.items tables.now.base.items
        tables.now.processes tables.now.variables }
    ensures table { IfOk result
        (λ rows. IsTable flat.now.assigns (row tables.now.groups.items group) rows.items) }
    ensures below { IfOk result (λ rows. IsBelow tables.now.variables rows.items) }
{
    let places = row_at(&tables.groups, group);
    table(alloc, assigns_of(flat), places, tables.variables)
}

/// The place of the first assignment on a cycle of the initial graph, or how many assignments there are.
fn least_at_start(alloc: Global, flat: &FlatModel, tables: &Tables) -> Result<usize, AllocError>
    requires flat { IsFlat flat.now }
    requires twice { Silent (assigned_twice flat.now) }
    requires beside { Silent (current_beside_other flat.now) }
    requires tables { HasTables flat.now tables.now.groups.items tables.now.base.items
        tables.now.processes tables.now.variables }
    ensures at_most { IfOk result (λ least. least ≤ length flat.now.assigns) }
    ensures found { IfOk result (λ least. IsFound flat.now (length flat.now.assigns) least) }
    ensures clear { IfOk result (λ least. IsClear flat.now Graph.AtStart least) }
{
    let count = assigns_of(flat).len();
    let group = tables.processes + 1;
    let extra = edges_of(alloc, flat, tables, group)?;
    let flags = on_cycles(alloc, &tables.base, &extra, tables.variables)?;
    let least = least_of_group(flat, tables, group, &flags, count);
    Ok(least_of_group(flat, tables, tables.processes, &flags, least))
}

/// Whether nothing is in the table.
fn is_empty(rows: &[Row]) -> bool
    ensures { result ≡ true → (x y : ℕ) → Contains (row rows.now x) y → ⊥ }
{
    for row in rows {
        if !row.items().is_empty() {
            return false;
        }
    }
    true
}

/// The least of the bound and of the places of the assignments on a cycle of the process's graph.
fn least_in_process(
    alloc: Global,
    flat: &FlatModel,
    tables: &Tables,
    p: usize,
    bound: usize,
) -> Result<usize, AllocError>
    requires flat { IsFlat flat.now }
    requires twice { Silent (assigned_twice flat.now) }
    requires beside { Silent (current_beside_other flat.now) }
    requires tables { HasTables flat.now tables.now.groups.items tables.now.base.items
        tables.now.processes tables.now.variables }
    requires process { p < tables.now.processes }
    requires bound { bound ≤ length flat.now.assigns }
    requires clear { IsClear flat.now Graph.AtStart bound }
    ensures at_most { IfOk result (λ least. least ≤ bound) }
    ensures found { IfOk result (λ least. IsFound flat.now bound least) }
    ensures clear { IfOk result (λ least. IsClear flat.now (Graph.InProcess p) least) }
{
    let extra = edges_of(alloc, flat, tables, p)?;
    if is_empty(&extra) {
        return Ok(bound);
    }
    let flags = on_cycles(alloc, &tables.base, &extra, tables.variables)?;
    let least = least_of_group(flat, tables, p, &flags, bound);
    if least == assigns_of(flat).len() {
        return Ok(least);
    }
    Ok(least_of_group(flat, tables, tables.processes, &flags, least))
}

/// The place of the first assignment on a cycle, or how many assignments there are.
fn first_circular(alloc: Global, flat: &FlatModel) -> Result<usize, AllocError>
    requires flat { IsFlat flat.now }
    requires twice { Silent (assigned_twice flat.now) }
    requires beside { Silent (current_beside_other flat.now) }
    ensures { IfOk result (λ least. IsFirstCircular flat.now least) }
{
    let tables = make_tables(alloc, flat)?;
    let mut least = least_at_start(alloc, flat, &tables)?;
    for p in 0..tables.processes {
        least = least_in_process(alloc, flat, &tables, p, least)?;
    }
    Ok(least)
}

/// Refuses the first assignment that lies on a cycle of one of the graphs.
pub fn check_cycles(alloc: Global, flat: &FlatModel) -> Result<(), StaticRefusal>
    requires flat { IsFlat flat.now }
    requires twice { Silent (assigned_twice flat.now) }
    requires beside { Silent (current_beside_other flat.now) }
    ensures ok { OnOk result (Silent (circular_assignment flat.now)) }
    ensures err { IfErr result (λ r. (r ≡ StaticRefusal.Memory) ⊎ circular_assignment flat.now r) }
{
    let assigns = assigns_of(flat);
    let least = first_circular(alloc, flat)?;
    if least < assigns.len() {
        return Err(StaticRefusal::CircularAssignment {
            line: line_of_assign(&assigns[least]),
        });
    }
    Ok(())
}
