//! Instances as the code keeps them.

ghost use Rattle.std.specs.Prelude.{◌≡◌, ◌∷◌, ◌++◌, ◌+◌, ◌<◌, [], List, length, map, slice_get, Some, IfOk, true, false};
ghost use Rattle.smv_instances.specs.Program.{Module as Source};
ghost use Rattle.smv_instances.specs.Plain.{plain_expr};
ghost use Rattle.smv_instances.specs.Instances.{Scope, depth as depth_of};
ghost use Rattle.smv_instances.specs.declared.modules.Modules.{Modules as Tables};
ghost use Rattle.smv_instances.specs.declared.rows.Row.{Row as Rows};
ghost use Rattle.smv_instances.specs.Walk.{Adds, HasWalked, Stands, updated};

use crate::counts::Counts;
use kripke_model::Name;
use smv_parser::Expr;
use std::alloc::{AllocError, Global};

/// The declaration of an instance in the body of another.
#[derive(Clone, Copy)]
pub struct Step<'p> {
    /// The number of the instance around it.
    pub around: usize,
    pub name: &'p Name,
    pub process: bool,
    pub actuals: &'p [Expr],
}

/// An instance.
#[derive(Drop)]
pub struct Row<'p> {
    /// Where it is declared; `main` is nowhere.
    pub step: Option<Step<'p>>,
    /// The place of its module.
    pub table: usize,
    pub depth: usize,
    /// The place of its process among the processes.
    pub process: usize,
    /// The numbers of the instances that it declares, in order.
    pub children: Vec<usize>,
}

/// The instances so far.
#[derive(Drop)]
pub struct Walk<'p> {
    pub rows: Vec<Row<'p>>,
    /// The numbers of those that are processes.
    pub processes: Vec<usize>,
    pub counts: Counts,
}

/// The instance `main` alone, of the module at this place.
pub fn main_alone<'p>(alloc: Global, table: usize) -> Result<Walk<'p>, AllocError>
    ensures { (ms : Tables) (m : Source) → Stands ms table m
        → IfOk result (λ w. HasWalked ms w (Scope.Main m ∷ []) []) }
{
    let mut rows = Vec::new(alloc);
    rows.push(Row {
        step: None,
        table,
        depth: 0,
        process: 0,
        children: Vec::new(alloc),
    })?;
    let mut processes = Vec::new(alloc);
    processes.push(0)?;
    Ok(Walk {
        rows,
        processes,
        counts: Counts {
            variables: 0,
            process: false,
            instances: 0,
        },
    })
}

/// The process of the instance that comes next, by its place.
fn enter_process(walk: &mut Walk<'_>, step: &Step<'_>) -> Result<usize, AllocError>
    requires { step.now.around < length walk.old.rows.items }
    ensures rows { walk.new.rows ≡ walk.old.rows }
    ensures counts { walk.new.counts ≡ walk.old.counts }
    ensures around { step.now.process ≡ false
        → IfOk result (λ k. (walk.new.processes ≡ walk.old.processes)
        × ((row : Rows) → slice_get walk.old.rows.items step.now.around ≡ Some row
        → k ≡ row.process)) }
    ensures itself { step.now.process ≡ true
        → IfOk result
        (λ k. (walk.new.processes.items ≡ walk.old.processes.items ++ (length walk.old.rows.items
        ∷ [])) × (k ≡ length walk.old.processes.items)) }
{
    if !step.process {
        let around = &walk.rows[step.around];
        return Ok(around.process);
    }
    let place = walk.processes.len();
    walk.processes.push(walk.rows.len())?;
    Ok(place)
}

/// Adds an instance of this depth, and gives its number.
pub fn push_child<'p>(
    alloc: Global,
    walk: &mut Walk<'p>,
    step: Step<'p>,
    table: usize,
    depth: usize,
) -> Result<usize, AllocError>
    requires { step.around < length walk.old.rows.items }
    ensures { (ms : Tables) (done counted : List Scope) (s : Scope) (m : Source)
        → HasWalked ms walk.old done counted → slice_get done step.entry.around ≡ Some s
        → Stands ms table m → depth ≡ depth_of s + 1
        → IfOk result
        (λ n. Adds ms walk.old walk.new done counted (Scope.Inside s step.entry.name.now
        step.entry.process (map plain_expr step.entry.actuals.now) m) n) }
{
    let number = walk.rows.len();
    let process = enter_process(walk, &step)?;
    walk.rows.push(Row {
        step: Some(step),
        table,
        depth,
        process,
        children: Vec::new(alloc),
    })?;
    Ok(number)
}

/// Notes the instances that an instance declares.
pub fn set_children(rows: &mut Vec<Row<'_>>, number: usize, children: Vec<usize>)
    requires { number < length rows.old.items }
    ensures { rows.new.items ≡ updated rows.old.items number
        (λ row. record row { children = children }) }
{
    let row = &mut rows[number];
    row.children = children;
}
