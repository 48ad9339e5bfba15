//! What a path denotes.

ghost use Rattle.std.specs.Prelude.{◌≡◌, IfOk};
ghost use Rattle.smv_instances.specs.Program.{Program as Plain};
ghost use Rattle.smv_names.specs.Denotes as denotes;
ghost use Rattle.smv_names.specs.Targets.{IsTarget};

use kripke_model::Name;
use smv_parser::{Expr, Plain as Type};
use std::alloc::{AllocError, Global};

/// An index that is written in an instance, and the bounds of what it selects from.
#[derive(Clone, Copy)]
pub struct Bracket<'p> {
    pub low: u32,
    pub high: u32,
    /// The number of the instance in which the index is read.
    pub scope: usize,
    pub index: &'p Expr,
}

/// What a path denotes. Instances are given by their numbers.
#[derive(Drop)]
pub enum Target<'p> {
    /// What the indexes, the first one first, leave of a variable or array of the instance `home`.
    Stored {
        home: usize,
        name: &'p Name,
        plain: &'p Type,
        indexes: Vec<Bracket<'p>>,
    },
    /// A defined expression, or an actual parameter without parentheses around it, that is read in
    /// the instance `home`. The node is that of the defined symbol or formal parameter.
    Reading {
        home: usize,
        right: &'p Expr,
        node: usize,
    },
    Instance(usize),
    /// A symbolic constant, by its place.
    Constant(usize),
}

impl<'p> Target<'p> {
    /// The same target once more.
    pub fn copy(&self) -> Result<Target<'p>, AllocError>
        ensures { (p : Plain) (t : denotes.Target) → IsTarget p self.now t
            → IfOk result (λ c. IsTarget p c t) }
    {
        match self {
            Target::Stored {
                home,
                name,
                plain,
                indexes,
            } => Ok(Target::Stored {
                home: *home,
                name: *name,
                plain: *plain,
                indexes: indexes.clone()?,
            }),
            Target::Reading { home, right, node } => Ok(Target::Reading {
                home: *home,
                right: *right,
                node: *node,
            }),
            Target::Instance(number) => Ok(Target::Instance(*number)),
            Target::Constant(place) => Ok(Target::Constant(*place)),
        }
    }
}
