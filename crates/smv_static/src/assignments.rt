//! Which assignments may stand side by side.

ghost use Rattle.std.specs.Prelude.{◌≡◌, ◌≢◌, ◌⊎◌, ◌↔◌, ◌+◌, ◌*◌, ◌<◌, ◌≤◌, ℕ, OnOk, IfOk, IfErr, IsTrue, All, length, false, slice_index_or};
ghost use Rattle.kripke_model.specs.Flat.{IsFlat};
ghost use Rattle.kripke_model.specs.Refusing.{Silent};
ghost use Rattle.kripke_model.specs.Static.{assigned_twice, current_beside_other};
ghost use Rattle.kripke_model.specs.declared.models.Part.{Part as Parts};
ghost use Rattle.smv_static.specs.Sides.{IsFlagged, AreOtherFlags, cell_of};

use crate::groups::group_of;
use crate::parts::{assigns_of, line_of_assign, process_count, var_of, variable_count};
use kripke_model::models::{Assign, FlatModel, Part};
use kripke_model::refusals::StaticRefusal;
use std::alloc::{AllocError, Global};

/// The assignment's cell in a table with a row for each group and a column for each variable.
fn cell_of(assign: &Assign, processes: usize, variables: usize) -> usize
    requires processes { processes ≤ 1024 }
    requires variables { variables ≤ 256 }
    requires process { assign.now.process < processes }
    requires var { assign.now.var < variables }
    ensures cell { result ≡ cell_of processes variables assign.now }
    ensures bound { result < (processes + 2) * variables }
{
    group_of(assign, processes) * variables + var_of(assign) as usize
}

/// Refuses the first assignment that gives again what an earlier one gives.
pub fn check_twice(alloc: Global, flat: &FlatModel) -> Result<(), StaticRefusal>
    requires { IsFlat flat.now }
    ensures ok { OnOk result (Silent (assigned_twice flat.now)) }
    ensures err { IfErr result (λ r. (r ≡ StaticRefusal.Memory) ⊎ assigned_twice flat.now r) }
{
    let assigns = assigns_of(flat);
    let processes = process_count(flat);
    let variables = variable_count(flat);
    let mut given = vec![in alloc; false; (processes + 2) * variables]?;
    for assign in assigns {
        let cell = cell_of(assign, processes, variables);
        if given[cell] {
            return Err(StaticRefusal::AssignedTwice {
                line: line_of_assign(assign),
            });
        }
        given[cell] = true;
    }
    Ok(())
}

/// Whether the assignment's variable is flagged.
pub fn is_flagged(flags: &[bool], assign: &Assign) -> bool
    ensures { IsTrue result ↔ IsFlagged flags.now assign.now }
{
    match flags.get(assign.var as usize) {
        Some(flag) => *flag,
        None => false,
    }
}

/// Flags the assignment's variable where it is its initial or next value.
fn flag_other(flags: &mut Vec<bool>, assign: &Assign)
    requires { assign.now.var < length flags.old.items }
    ensures count { length flags.new.items ≡ length flags.old.items }
    ensures flags { (x : ℕ)
        → IsTrue (slice_index_or flags.new.items x false)
        ↔ IsTrue (slice_index_or flags.old.items x false) ⊎ (x ≡ assign.now.var)
        × (assign.now.part ≢ Parts.Now) }
{
    if assign.part == Part::Now {
        return;
    }
    flags[assign.var as usize] = true;
}

/// For each variable whether it has an initial or a next value.
fn with_other(alloc: Global, assigns: &[Assign], variables: usize) -> Result<Vec<bool>, AllocError>
    requires { All (λ a. a.var < variables) assigns.now }
    ensures { IfOk result (λ flags. AreOtherFlags assigns.now flags.items) }
{
    let mut flags = vec![in alloc; false; variables]?;
    for assign in assigns {
        flag_other(&mut flags, assign);
    }
    Ok(flags)
}

/// Whether the assignment is a current value of a flagged variable.
fn is_beside(others: &[bool], assign: &Assign) -> bool
    ensures { IsTrue result ↔ (assign.now.part ≡ Parts.Now) × IsFlagged others.now assign.now }
{
    assign.part == Part::Now && is_flagged(others, assign)
}

/// Refuses the first current value of a flagged variable, which is one that has an initial or a next value.
fn refuse_beside(flat: &FlatModel, others: &[bool]) -> Result<(), StaticRefusal>
    requires { AreOtherFlags flat.now.assigns others.now }
    ensures ok { OnOk result (Silent (current_beside_other flat.now)) }
    ensures err { IfErr result (current_beside_other flat.now) }
{
    let assigns = assigns_of(flat);
    for assign in assigns {
        if is_beside(others, assign) {
            return Err(StaticRefusal::CurrentBesideOther {
                line: line_of_assign(assign),
            });
        }
    }
    Ok(())
}

/// Refuses the first current value of a variable that also has an initial or a next one.
pub fn check_beside(alloc: Global, flat: &FlatModel) -> Result<(), StaticRefusal>
    requires { IsFlat flat.now }
    ensures ok { OnOk result (Silent (current_beside_other flat.now)) }
    ensures err { IfErr result (λ r. (r ≡ StaticRefusal.Memory) ⊎ current_beside_other flat.now r) }
{
    let others = with_other(alloc, assigns_of(flat), variable_count(flat))?;
    refuse_beside(flat, &others)
}
