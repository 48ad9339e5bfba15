//! Programs as they are written, each part with the line of its first token.

use crate::expressions::{Expr, Path};
use kripke_model::Name;

/// A program: its modules in the order of the text.
#[derive(Drop)]
pub struct Program {
    pub modules: Vec<Module>,
}

/// `MODULE name ( formals )` and its sections, in the order of the text.
#[derive(Drop)]
pub struct Module {
    pub name: Name,
    pub formals: Vec<Formal>,
    pub sections: Vec<Section>,
    pub line: u32,
}

/// A formal parameter of a module.
#[derive(Drop)]
pub struct Formal {
    pub name: Name,
    pub line: u32,
}

/// A section of a module. Its line is that of its word, as `VAR`.
#[derive(Drop)]
pub struct Section {
    pub kind: SectionKind,
    pub line: u32,
}

/// What a section holds.
#[derive(Drop)]
pub enum SectionKind {
    Variables(Vec<Declaration>),
    Assignments(Vec<Assignment>),
    Definitions(Vec<Definition>),
    Condition(Condition, Expr),
}

/// The word of a section that is one expression.
#[derive(Clone, Copy)]
pub enum Condition {
    Init,
    Invar,
    Trans,
    Spec,
    Fairness,
}

/// `name : form ;`
#[derive(Drop)]
pub struct Declaration {
    pub name: Name,
    pub form: TypeForm,
    pub line: u32,
}

/// `left := right ;`
#[derive(Drop)]
pub struct Assignment {
    pub left: Left,
    pub right: Expr,
    pub line: u32,
}

/// `name := right ;`
#[derive(Drop)]
pub struct Definition {
    pub name: Name,
    pub right: Expr,
    pub line: u32,
}

/// The left side of an assignment.
#[derive(Drop)]
pub struct Left {
    pub kind: LeftKind,
    pub path: Path,
    pub line: u32,
}

/// Which value an assignment gives: the current one, `init ( .. )` or `next ( .. )`.
#[derive(Clone, Copy)]
pub enum LeftKind {
    Current,
    Init,
    Next,
}

/// The type of a declaration.
#[derive(Drop)]
pub struct TypeForm {
    pub kind: TypeKind,
    pub line: u32,
}

/// A plain type, or an instance of a module.
#[derive(Drop)]
pub enum TypeKind {
    Plain(Plain),
    Instance {
        process: bool,
        module: Name,
        actuals: Vec<Expr>,
    },
}

/// A type of values, or an array.
#[derive(Drop)]
#[cycle(plain)]
pub struct Plain {
    pub kind: PlainKind,
    pub line: u32,
}

/// What a plain type is. A range and an array have their low end first; no order is asked here. The ends of a range may
/// be negative.
#[derive(Drop)]
#[cycle(plain)]
pub enum PlainKind {
    Boolean,
    Enumeration(Vec<Constant>),
    Range(i32, i32),
    Array(u32, u32, Box<Plain>),
}

/// A member of an enumeration.
#[derive(Drop)]
pub struct Constant {
    pub kind: ConstantKind,
    pub line: u32,
}

/// What a member of an enumeration is.
#[derive(Drop)]
pub enum ConstantKind {
    Name(Name),
    Number(u32),
    Truth(bool),
}
