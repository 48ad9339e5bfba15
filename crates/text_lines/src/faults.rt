//! Why no part of a text is read at a place.

/// Why no part is read. Lines are counted from 1.
#[derive(Clone, Copy, PartialEq, Eq, Debug)]
pub enum Fault {
    /// No part goes on at the line.
    Stops { line: u32 },
    /// Some part goes on at the line, but the line breaks the rules of its kind.
    Breaks { line: u32 },
    /// The lines end within the part.
    End,
    /// Memory ran out.
    Memory,
}
