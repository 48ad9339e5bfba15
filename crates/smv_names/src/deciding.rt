//! The table of what the formal parameters lead to.
//!
//! Formal parameters lead to others as far as the program's text likes, and in circles, so those
//! that wait for others stand on a stack in memory.

ghost use Rattle.std.specs.Prelude.{◌≡◌, ◌++◌, ◌∷◌, ◌+◌, ◌<◌, ◌≤◌, [], length, Some, OnOk, IfOk, None};
ghost use Rattle.smv_instances.specs.Program.{Program as Plain};
ghost use Rattle.smv_names.specs.Passed.{AreIdle, AreLost, Deciding, IsOpen, KeepsStack, Sets, Settles, Steps, WaitsFor, state_at, unseen_count};
ghost use Rattle.smv_names.specs.Ready.{AreStarted, AreTargets};

use crate::nodes::Nodes;
use crate::resolving::Targets;
use crate::states::{Parameter, State, States};
use crate::walk::{Outcome, actual_outcome};
use smv_instances::Instances;
use std::alloc::{AllocError, Global};

/// Puts a formal parameter on the stack.
fn enter(
    states: &mut States<'_>,
    stack: &mut Vec<Parameter>,
    at: Parameter,
) -> Result<(), AllocError>
    requires { state_at states.old at ≡ Some State.Unseen }
    ensures states { OnOk result (Sets states.old states.new at State.Waiting) }
    ensures stack { OnOk result (stack.new.items ≡ stack.old.items ++ at ∷ []) }
{
    stack.push(at)?;
    states.set(at, State::Waiting);
    Ok(())
}

/// Notes that the formal parameters on the stack lead nowhere.
fn give_up(states: &mut States<'_>, stack: &mut Vec<Parameter>)
    requires { (p : Plain) × AreLost p states.old stack.old.items }
    ensures settles { (p : Plain) → AreLost p states.old stack.old.items
        → Settles p states.old states.new }
    ensures count { unseen_count states.new ≤ unseen_count states.old }
    ensures empty { stack.new.items ≡ [] }
{
    while let Some(at) = stack.pop() {
        states.set(at, State::Decided(None));
    }
}

/// Lets a formal parameter wait for another one, on top of the stack. Where that one waits itself,
/// all on the stack wait in a circle, so they lead nowhere.
fn wait_for(
    states: &mut States<'_>,
    stack: &mut Vec<Parameter>,
    top: Parameter,
    next: Parameter,
) -> Result<(), AllocError>
    requires { (p : Plain) × KeepsStack p states.old (stack.old.items ++ top ∷ [])
        × IsOpen states.old next × WaitsFor p top next }
    ensures { (p : Plain) → KeepsStack p states.old (stack.old.items ++ top ∷ [])
        → WaitsFor p top next
        → OnOk result (Steps p states.old states.new (length stack.old.items + 1) stack.new.items) }
{
    stack.push(top)?;
    if states.is_unseen(next) {
        return enter(states, stack, next);
    }
    give_up(states, stack);
    Ok(())
}

/// Looks where the formal parameter on top of the stack leads, which was taken off.
fn step<'p>(
    alloc: Global,
    instances: &Instances<'p>,
    targets: &mut Targets<'p>,
    stack: &mut Vec<Parameter>,
    top: Parameter,
) -> Result<(), AllocError>
    requires { (p : Plain) × AreStarted p instances.now targets.old
        × KeepsStack p targets.old.states (stack.old.items ++ top ∷ []) }
    ensures steps { (p : Plain) → AreStarted p instances.now targets.old
        → KeepsStack p targets.old.states (stack.old.items ++ top ∷ [])
        → OnOk result (Steps p targets.old.states targets.new.states (length stack.old.items + 1)
        stack.new.items) }
    ensures nodes { targets.new.nodes ≡ targets.old.nodes }
{
    match actual_outcome(alloc, instances, targets, top)? {
        Outcome::Found(target) => {
            targets.states.set(top, State::Decided(Some(target)));
            Ok(())
        }
        Outcome::Nothing => {
            targets.states.set(top, State::Decided(None));
            Ok(())
        }
        Outcome::Needs(next) => wait_for(&mut targets.states, stack, top, next),
    }
}

/// Finds out what a formal parameter leads to, with all that it leads through.
fn decide<'p>(
    alloc: Global,
    instances: &Instances<'p>,
    targets: &mut Targets<'p>,
    at: Parameter,
) -> Result<(), AllocError>
    requires started { (p : Plain) × AreStarted p instances.now targets.old }
    requires idle { AreIdle targets.old.states }
    requires unseen { state_at targets.old.states at ≡ Some State.Unseen }
    ensures settles { (p : Plain) → AreStarted p instances.now targets.old
        → OnOk result (Settles p targets.old.states targets.new.states) }
    ensures seen { OnOk result (state_at targets.new.states at ≡ Some State.Unseen → ⊥) }
    ensures nodes { targets.new.nodes ≡ targets.old.nodes }
{
    let mut stack = Vec::new(alloc);
    enter(&mut targets.states, &mut stack, at)?;
    while let Some(top) = stack.pop() {
        step(alloc, instances, targets, &mut stack, top)?;
    }
    Ok(())
}

/// Finds out what the formal parameters of an instance lead to.
fn decide_row<'p>(
    alloc: Global,
    instances: &Instances<'p>,
    targets: &mut Targets<'p>,
    i: usize,
) -> Result<(), AllocError>
    requires started { (p : Plain) × AreStarted p instances.now targets.old }
    requires idle { AreIdle targets.old.states }
    requires row { i < length targets.old.states.rows.items }
    ensures settles { (p : Plain) → AreStarted p instances.now targets.old
        → OnOk result (Settles p targets.old.states targets.new.states) }
    ensures seen { OnOk result ((at : Parameter) → at.instance ≡ i → state_at targets.new.states at
        ≡ Some State.Unseen → ⊥) }
    ensures nodes { targets.new.nodes ≡ targets.old.nodes }
{
    for place in 0..targets.states.count(i) {
        let at = Parameter { instance: i, place };
        if targets.states.is_unseen(at) {
            decide(alloc, instances, targets, at)?;
        }
    }
    Ok(())
}

/// Finds out what the formal parameters of all instances lead to.
pub fn decide_all<'p>(
    alloc: Global,
    instances: &Instances<'p>,
    targets: &mut Targets<'p>,
) -> Result<(), AllocError>
    requires started { (p : Plain) × AreStarted p instances.now targets.old }
    requires idle { AreIdle targets.old.states }
    ensures { (p : Plain) → AreStarted p instances.now targets.old
        → OnOk result (AreTargets p instances.now targets.new) }
{
    for i in 0..targets.states.rows.len() {
        decide_row(alloc, instances, targets, i)?;
    }
    Ok(())
}
