//! Why tokens are refused.

/// Why tokens are no program. A place is the number of tokens before it; the place after the last one is the end.
#[derive(Debug, Drop)]
pub enum ParseRefusal {
    /// The first token with which no program begins, or the end of tokens that are only the front of programs.
    Syntax { at: usize },
    /// The first token with which no program within the depth begins, although a deeper one does.
    TooDeep { at: usize },
    /// Memory ran out.
    Memory,
}
