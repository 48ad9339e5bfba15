ghost use Rattle.std.specs.Prelude.{◌≡◌, ◌+◌};

use std::mem;
use std::snapshot::Snapshot;

/// A number, of which snapshots are taken: zero, or one more than another.
#[derive(Drop)]
enum Number {
    Zero,
    OneMore(Snapshot<Number>),
}

/// How often a store was asked to make a diagram. It takes no bytes at run time, and only `raise`
/// changes it.
#[derive(Drop)]
pub(crate) struct Makes {
    number: Snapshot<Number>,
}

impl Makes {
    ghost use Rattle.bdd_nodes.specs.Makes.{number_of};

    /// Not once yet.
    pub(crate) fn none() -> Makes
        ensures { number_of result ≡ 0 }
    {
        Makes {
            number: Snapshot::of(&Number::Zero),
        }
    }

    /// Once more.
    #[inline(always)]
    pub(crate) fn raise(&mut self)
        ensures { number_of self.new ≡ number_of self.old + 1 }
    {
        let before = mem::replace(&mut self.number, Snapshot::of(&Number::Zero));
        self.number = Snapshot::of(&Number::OneMore(before));
    }
}
