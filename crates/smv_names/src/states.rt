//! What is known of the formal parameters of all instances, while it is found out.

ghost use Rattle.std.specs.Prelude.{◌≡◌, ◌<◌, ◌↔◌, ℕ, length, replicate, Some, IfOk, IsTrue};
ghost use Rattle.smv_instances.specs.Program.{Program as Plain};
ghost use Rattle.smv_instances.specs.Built.{AreInstances};
ghost use Rattle.smv_names.specs.Passed.{AreIdle, AreStates, Sets, state_at};

use crate::targets::Target;
use smv_instances::Instances;
use std::alloc::{AllocError, Global};

/// A formal parameter of an instance, by its place among those of the module.
#[derive(Clone, Copy)]
pub struct Parameter {
    /// The instance's number.
    pub instance: usize,
    pub place: usize,
}

/// What is known of a formal parameter.
#[derive(Drop)]
pub enum State<'p> {
    Unseen,
    /// It waits for another one, or is worked on.
    Waiting,
    /// What it leads to, if it leads anywhere.
    Decided(Option<Target<'p>>),
}

/// The states of all formal parameters: a row for each instance.
#[derive(Drop)]
pub struct States<'p> {
    pub rows: Vec<Vec<State<'p>>>,
}

/// A row of so many formal parameters of which nothing is known.
fn unseen_row<'p>(alloc: Global, count: usize) -> Result<Vec<State<'p>>, AllocError>
    ensures { IfOk result (λ row. row.items ≡ replicate count State.Unseen) }
{
    let mut row = Vec::new(alloc);
    while row.len() < count {
        row.push(State::Unseen)?;
    }
    Ok(row)
}

impl<'p> States<'p> {
    /// Nothing is known of the formal parameters of the instances.
    pub fn unseen(alloc: Global, instances: &Instances<'p>) -> Result<States<'p>, AllocError>
        requires { (p : Plain) × AreInstances p instances.now }
        ensures states { (p : Plain) → AreInstances p instances.now → IfOk result (AreStates p) }
        ensures idle { IfOk result AreIdle }
    {
        let mut rows = Vec::new(alloc);
        for i in 0..instances.len() {
            let source = instances.module(i);
            let row = unseen_row(alloc, source.formals.len())?;
            rows.push(row)?;
        }
        Ok(States { rows })
    }

    pub fn get(&self, at: Parameter) -> &State<'p>
        requires { (known : State) × (state_at self.now at ≡ Some known) }
        ensures { state_at self.now at ≡ Some result.now }
    {
        let row = &self.rows[at.instance];
        &row[at.place]
    }

    /// Whether nothing is known of it, and it doesn't wait.
    pub fn is_unseen(&self, at: Parameter) -> bool
        requires { (known : State) × (state_at self.now at ≡ Some known) }
        ensures { IsTrue result ↔ (state_at self.now at ≡ Some State.Unseen) }
    {
        match self.get(at) {
            State::Unseen => true,
            State::Waiting | State::Decided(_) => false,
        }
    }

    /// How many formal parameters the instance has.
    pub fn count(&self, i: usize) -> usize
        requires { i < length self.now.rows.items }
        ensures inside { (place : ℕ) → place < result → (known : State)
            × (state_at self.now (record { instance = i; place = place }) ≡ Some known) }
        ensures outside { (place : ℕ) (known : State)
            → state_at self.now (record { instance = i; place = place }) ≡ Some known
            → place < result }
    {
        self.rows[i].len()
    }

    pub fn set(&mut self, at: Parameter, state: State<'p>)
        requires { (known : State) × (state_at self.old at ≡ Some known) }
        ensures { Sets self.old self.new at state.entry }
    {
        let row = &mut self.rows[at.instance];
        row[at.place] = state;
    }
}
