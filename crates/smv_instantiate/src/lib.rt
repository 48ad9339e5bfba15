//! From a parsed program to its flat model.
#![tactic(auto)]

mod bodies;
mod checks;
mod expansion;
mod firsts;
mod fronts;
mod items;
mod models;
pub mod names;
mod operators;
mod parts;
mod passes;
mod processes;
mod totals;
mod types;
mod variables;

ghost use Rattle.std.specs.Prelude.{◌≡◌, ◌≤◌, length};
ghost use Rattle.kripke_model.specs.Flat.{IsFlat};
ghost use Rattle.kripke_model.specs.Refusing.{Silent};
ghost use Rattle.kripke_model.specs.System.{System};
ghost use Rattle.smv_parser.specs.Program as parsed;
ghost use Rattle.smv_instances.specs.Abstract.{program};
ghost use Rattle.smv_instances.specs.Instances.{symbols};
ghost use Rattle.smv_instances.specs.Program.{Program};
ghost use Rattle.kripke_model.specs.declared.refusals.FlatRefusal.{FlatRefusal};
ghost use Rattle.smv_instantiate.specs.Flattens.{Flattens};
ghost use Rattle.smv_instantiate.specs.Parsed.{IsParsed};
ghost use Rattle.smv_instantiate.specs.Refuses.{Refuses};
ghost use Rattle.smv_instantiate.specs.Written.{IsWritten};

pub use kripke_model::refusals::{FlatRefusal, Which};
pub use models::flatten;

/// A program has one flat model at most, and is refused for one reason at most.
pub fn one_answer()
    ensures flat { (p : Program) (m n : System) → Flattens p m → Flattens p n → m ≡ n }
    ensures refused { (p : Program) (r q : FlatRefusal) → Refuses p r → Refuses p q → r ≡ q }
{}

/// A program that the parser gives for what the lexer gave has atoms as its names, numbers up to 2,147,483,647, ends
/// of ranges from -2,147,483,647, and no empty braces, types or `case`.
pub fn written()
    ensures { (p : parsed.Program) → IsParsed p → IsWritten (program p) }
{}

/// A flat model of a written program that is not refused is of the form that the static rules ask for: within the
/// limits, with distinct names of the right form, and with numbers that name something of it. It has no more symbols
/// than 256 variables have values.
pub fn well_formed()
    ensures flat { (p : Program) (m : System) → IsWritten p → Silent (Refuses p) → Flattens p m
        → IsFlat m }
    ensures symbols { (p : Program) → IsWritten p → Silent (Refuses p)
        → length (symbols p) ≤ 262144 }
{}
