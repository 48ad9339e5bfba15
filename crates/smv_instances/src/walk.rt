//! The walk over the bodies of all instances, in instantiation order.

ghost use Rattle.std.specs.Prelude.{◌≡◌, ◌++◌, List, Some, length, map, IfSome, IfNone, MatchResult, slice_get, None};
ghost use Rattle.kripke_model.specs.Refusing.{First};
ghost use Rattle.smv_instances.specs.Program.{Module as Source, Program as Plain};
ghost use Rattle.smv_instances.specs.Plain.{plain_expr};
ghost use Rattle.smv_instances.specs.Instances.{Scope, child, children, instances_from};
ghost use Rattle.smv_instances.specs.Declarations.{body};
ghost use Rattle.smv_instances.specs.Answers.{Refused};
ghost use Rattle.smv_instances.specs.Numbered.{plain_entry};
ghost use Rattle.smv_instances.specs.Tables.{AreModules};
ghost use Rattle.std.specs.List.{AllZip};
ghost use Rattle.smv_instances.specs.Walk.{Begins, Enters, Goes, Leads, Visited, inside};

use crate::body::check_body;
use crate::counts::MOST_DEPTH;
use crate::entries::{Entity, Entry};
use crate::modules::Modules;
use crate::rows::{Step, Walk, push_child, set_children};
use kripke_model::refusals::FlatRefusal;
use std::alloc::Global;

/// Where an entry of the instance leads to, with the place of the module, if it is an instance of one.
fn child_step<'p>(
    modules: &Modules<'_>,
    number: usize,
    entry: &Entry<'p>,
) -> Option<(Step<'p>, usize)>
    ensures some { IfSome result (λ x. (p : Plain) (s : Scope) → AreModules modules.now p
        → Leads modules.now p s (plain_entry entry.now) number x.0 x.1) }
    ensures none { IfNone result ((p : Plain) (s : Scope) → AreModules modules.now p
        → child p s (plain_entry entry.now) ≡ None) }
{
    let Entity::Instance {
        process,
        module: source,
        actuals,
    } = &entry.entity
    else {
        return None;
    };
    let table = modules.names.place(source.as_str())?;
    let step = Step {
        around: number,
        name: entry.name,
        process: *process,
        actuals: *actuals,
    };
    Some((step, table))
}

/// Walks over an instance that the body of another declares and those inside it, and gives its number.
#[cycle(walk)]
fn visit_child<'p>(
    alloc: Global,
    modules: &Modules<'p>,
    walk: &mut Walk<'p>,
    step: Step<'p>,
    table: usize,
    left: usize,
) -> Result<usize, FlatRefusal>
    requires { (p : Plain) × (done : List Scope) × (s : Scope) × (m : Source)
        × Enters modules.now p walk.old done s m step.around table left }
    ensures { (p : Plain) (done : List Scope) (s : Scope) (m : Source)
        → Enters modules.now p walk.old done s m step.entry.around table left
        → MatchResult result
        (λ n. (n ≡ length done)
        × Visited modules.now p walk.old walk.new done
        (instances_from p left
        (Scope.Inside s step.entry.name.now step.entry.process
        (map plain_expr step.entry.actuals.now) m)) (length done))
        (Refused (First (body p) done
        (instances_from p left
        (Scope.Inside s step.entry.name.now step.entry.process
        (map plain_expr step.entry.actuals.now) m)))) }
{
    let number = push_child(alloc, walk, step, table, MOST_DEPTH - left)?;
    visit_body(alloc, modules, walk, number, left)?;
    Ok(number)
}

/// Walks over the instances that the body of one declares and those inside them, and gives their numbers.
#[cycle(walk)]
fn visit_inside<'p>(
    alloc: Global,
    modules: &Modules<'p>,
    walk: &mut Walk<'p>,
    number: usize,
    left: usize,
) -> Result<Vec<usize>, FlatRefusal>
    requires { (p : Plain) × (done : List Scope) × (s : Scope)
        × Goes modules.now p walk.old done s number left }
    ensures { (p : Plain) (done : List Scope) (s : Scope)
        → Goes modules.now p walk.old done s number left
        → MatchResult result
        (λ cs. Visited modules.now p walk.old walk.new done (inside p left s) (length done)
        × AllZip (λ n c. slice_get (done ++ inside p left s) n ≡ Some c) cs.items (children p s))
        (Refused (First (body p) done (inside p left s))) }
{
    let mut children = Vec::new(alloc);
    if left == 0 {
        return Ok(children);
    }
    let table = walk.rows[number].table;
    let entries = &modules.tables[table].entries;
    for entry in entries {
        if let Some((step, table)) = child_step(modules, number, entry) {
            let child = visit_child(alloc, modules, walk, step, table, left - 1)?;
            children.push(child)?;
        }
    }
    Ok(children)
}

/// Walks over the body of an instance and those of the instances inside it, at most so many levels deeper.
#[cycle(walk)]
pub fn visit_body<'p>(
    alloc: Global,
    modules: &Modules<'p>,
    walk: &mut Walk<'p>,
    number: usize,
    left: usize,
) -> Result<(), FlatRefusal>
    requires { (p : Plain) × (before : List Scope) × (s : Scope)
        × Begins modules.now p walk.old before s number left }
    ensures { (p : Plain) (before : List Scope) (s : Scope)
        → Begins modules.now p walk.old before s number left
        → MatchResult result
        (λ _. Visited modules.now p walk.old walk.new before (instances_from p left s)
        (length before))
        (Refused (First (body p) before (instances_from p left s))) }
{
    walk.counts = check_body(alloc, modules, &walk.rows, number, &walk.counts)?;
    let children = visit_inside(alloc, modules, walk, number, left)?;
    set_children(&mut walk.rows, number, children);
    Ok(())
}
