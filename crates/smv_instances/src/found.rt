//! What a name leads to in an instance.

use smv_parser::{Expr, Plain};

/// What the module of an instance declares under a name.
#[derive(Clone, Copy)]
pub enum Found<'p> {
    /// A formal parameter, by its place from 0.
    Parameter(usize),
    /// A variable or an array.
    Stored(&'p Plain),
    /// An instance, by its number.
    Instance(usize),
    /// A defined symbol.
    Defined(&'p Expr),
}
