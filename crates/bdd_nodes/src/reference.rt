ghost use Rattle.std.specs.Prelude.{◌≡◌, ℕ};

use std::marker::Model;

/// A diagram, by its number in the store that made it: 0 and 1 are the constants, and any other is
/// the place of its triple in the table plus 2. Contracts read it as this number.
#[derive(Clone, Copy, Debug, PartialEq, Eq, Hash)]
pub struct Ref {
    pub(crate) number: u32,
}

impl Model for Ref {
    ghost Value = { ℕ };

    ghost view = { λ r. r.number };

    ghost inverse = { λ n. record { number = n } };
}

impl Ref {
    /// The diagram that is false at every list of bits.
    pub const FALSE: Ref = Ref { number: 0 };

    /// The diagram that is true at every list of bits.
    pub const TRUE: Ref = Ref { number: 1 };

    /// The diagram's number.
    pub fn number(&self) -> u32
        ensures { result ≡ self.now }
    {
        self.number
    }
}
