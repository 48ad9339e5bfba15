//! Assignments in groups, and tables of what they depend on.

ghost use Rattle.std.specs.Prelude.{◌≡◌, ◌+◌, ◌<◌, ◌≤◌, ◌++◌, ◌^◌, length, All, IfOk, OnOk, slice_set};
ghost use Rattle.smv_static.specs.Groups.{IsGrouped, IsTable, group_of};
ghost use Rattle.smv_static.specs.Numbers.{row};
ghost use Rattle.smv_static.specs.Targets.{targets_of};

use crate::numbers::{Row, empty_rows, push_at};
use crate::targets::push_targets;
use kripke_model::models::{Assign, Part};
use std::alloc::{AllocError, Global};

/// The group of an assignment: its process for a next value, then one for all current values, and one for all initial
/// values.
pub fn group_of(assign: &Assign, processes: usize) -> usize
    requires { processes ≤ 1024 }
    ensures { result ≡ group_of processes assign.now }
{
    match assign.part {
        Part::Init => processes + 1,
        Part::Now => processes,
        Part::Next => assign.process as usize,
    }
}

/// The places of the assignments of each group.
pub fn grouped(alloc: Global, assigns: &[Assign], processes: usize) -> Result<Vec<Row>, AllocError>
    requires count { processes ≤ 1024 }
    requires known { All (λ a. a.process < processes) assigns.now }
    requires few { length assigns.now < 2 ^ 32 }
    ensures grouped { IfOk result (λ rows. IsGrouped processes assigns.now rows.items) }
    ensures count { IfOk result (λ rows. length rows.items ≡ processes + 2) }
{
    let mut rows = empty_rows(alloc, processes + 2)?;
    for (k, assign) in assigns.iter().enumerate() {
        push_at(&mut rows, group_of(assign, processes), k as u32)?;
    }
    Ok(rows)
}

/// Appends what the assignment's variable depends on to that variable's row.
fn add_targets(rows: &mut Vec<Row>, assign: &Assign) -> Result<(), AllocError>
    requires { assign.now.var < length rows.old.items }
    ensures added { OnOk result
        (rows.new.items
        ≡ slice_set rows.old.items assign.now.var
        (row rows.old.items assign.now.var ++ targets_of assign.now)) }
    ensures count { length rows.new.items ≡ length rows.old.items }
{
    push_targets(assign, &mut rows[assign.var as usize])
}

/// For each variable what the assignments of it at these places depend on.
pub fn table(
    alloc: Global,
    assigns: &[Assign],
    places: &[u32],
    variables: usize,
) -> Result<Vec<Row>, AllocError>
    requires places { All (λ k. k < length assigns.now) places.now }
    requires known { All (λ a. a.var < variables) assigns.now }
    ensures { IfOk result (λ rows. IsTable assigns.now places.now rows.items) }
{
    let mut rows = empty_rows(alloc, variables)?;
    for k in places {
        add_targets(&mut rows, &assigns[*k as usize])?;
    }
    Ok(rows)
}
