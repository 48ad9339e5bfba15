//! The first line of a block.

/// What the first line of a block says.
#[derive(Clone, Copy)]
pub struct Head {
    /// The specification, counted from 1.
    pub spec: u32,
    /// Whether it is claimed true.
    pub claim: bool,
}
