//! What paths denote.

ghost use Rattle.std.specs.Prelude.{◌≡◌, Some, IfOk};
ghost use Rattle.smv_instances.specs.Program.{Program as Plain};
ghost use Rattle.smv_instances.specs.Instances.{Scope};
ghost use Rattle.smv_instances.specs.Numbered.{scope_at};
ghost use Rattle.smv_instances.specs.Built.{AreInstances};
ghost use Rattle.smv_names.specs.Written.{plain_path};
ghost use Rattle.smv_names.specs.Targets.{Resolves};
ghost use Rattle.smv_names.specs.Ready.{AreTargets, HasTargets, NamesNode};

use crate::deciding::decide_all;
use crate::nodes::Nodes;
use crate::states::States;
use crate::targets::Target;
use crate::walk::{Outcome, named_by, walk};
use smv_instances::Instances;
use smv_parser::Path;
use std::alloc::{AllocError, Global};

/// What the formal parameters of all instances lead to, and the numbers of abbreviations.
#[derive(Drop)]
pub struct Targets<'p> {
    pub states: States<'p>,
    pub nodes: Nodes,
}

impl<'p> Targets<'p> {
    /// What the formal parameters of the instances lead to.
    pub fn build(alloc: Global, instances: &Instances<'p>) -> Result<Targets<'p>, AllocError>
        requires { (p : Plain) × AreInstances p instances.now }
        ensures { (p : Plain) → AreInstances p instances.now
            → IfOk result (AreTargets p instances.now) }
    {
        let mut targets = Targets {
            states: States::unseen(alloc, instances)?,
            nodes: Nodes::build(alloc, instances)?,
        };
        decide_all(alloc, instances, &mut targets)?;
        Ok(targets)
    }

    /// What a path, read in the instance i, denotes, if it denotes something.
    pub fn resolve(
        &self,
        alloc: Global,
        instances: &Instances<'p>,
        i: usize,
        path: &'p Path,
    ) -> Result<Option<Target<'p>>, AllocError>
        requires { HasTargets instances.now self.now i }
        ensures { (p : Plain) (s : Scope) → AreTargets p instances.now self.now
            → scope_at p i ≡ Some s → IfOk result (Resolves p s (plain_path path.now)) }
    {
        match walk(alloc, instances, self, i, path)? {
            Outcome::Found(target) => Ok(Some(target)),
            Outcome::Nothing => Ok(None),
            Outcome::Needs(_) => Ok(None),
        }
    }

    /// The number of the abbreviation that a path, read in the instance i, names.
    pub fn named(
        &self,
        alloc: Global,
        instances: &Instances<'p>,
        i: usize,
        path: &'p Path,
    ) -> Result<Option<usize>, AllocError>
        requires { HasTargets instances.now self.now i }
        ensures { (p : Plain) (s : Scope) → AreTargets p instances.now self.now
            → scope_at p i ≡ Some s → IfOk result (NamesNode p s (plain_path path.now)) }
    {
        named_by(alloc, instances, self, i, &path.first, &path.parts)
    }
}
