//! How large expressions are.

ghost use Rattle.std.specs.Prelude.{◌≡◌, ℕ, ◌+◌, max};
ghost use Rattle.smv_names.specs.Values.{IsSize};

/// The most nodes that are counted.
pub const MOST_NODES: u32 = 200_001;
/// The deepest nesting that is counted.
pub const MOST_NESTING: u32 = 1_025;

/// How many nodes an expression has, at most 200,001, and how deep they lie, at most 1,025. A
/// variable or a constant has depth 1.
#[derive(Clone, Copy)]
pub struct Size {
    pub nodes: u32,
    pub nesting: u32,
}

impl Size {
    /// No expression at all.
    pub fn none() -> Size
        ensures { IsSize result 0 0 }
    {
        Size {
            nodes: 0,
            nesting: 0,
        }
    }

    /// A variable or a constant.
    pub fn leaf() -> Size
        ensures { IsSize result 1 1 }
    {
        Size {
            nodes: 1,
            nesting: 1,
        }
    }

    /// An expression with these parts.
    pub fn around(self) -> Size
        ensures { (n d : ℕ) → IsSize self n d → IsSize result (1 + n) (1 + d) }
    {
        Size {
            nodes: self.nodes.saturating_add(1).min(MOST_NODES),
            nesting: self.nesting.saturating_add(1).min(MOST_NESTING),
        }
    }

    /// Two parts side by side.
    pub fn beside(self, other: Size) -> Size
        ensures { (n d m c : ℕ) → IsSize self n d → IsSize other m c
            → IsSize result (n + m) (max d c) }
    {
        Size {
            nodes: self.nodes.saturating_add(other.nodes).min(MOST_NODES),
            nesting: self.nesting.max(other.nesting),
        }
    }
}
