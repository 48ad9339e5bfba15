ghost use Rattle.std.specs.Prelude.{◌≡◌, ◌+◌, ◌*◌, ◌^◌, if◌then◌else◌};
ghost use Rattle.bdd_nodes.specs.Triple.{triple_number};

use crate::Ref;
use std::hash::{Hash, Hasher};

/// A decision node: where its level's bit is set it goes to the diagram `high`, and else to `low`.
#[derive(Clone, Copy, Debug, PartialEq, Eq)]
pub struct Triple {
    /// The place of the bit that decides, from 0.
    pub level: u32,
    /// The number of the child at bit 0.
    pub low: u32,
    /// The number of the child at bit 1.
    pub high: u32,
}

impl Triple {
    /// The child for a bit.
    pub fn child(&self, bit: bool) -> Ref
        ensures { result ≡ (if bit then self.now.high else self.now.low) }
    {
        Ref {
            number: if bit { self.high } else { self.low },
        }
    }

    /// A number of the triple's own, by which it is hashed.
    fn number(&self) -> u128
        ensures { result ≡ triple_number self.now }
    {
        self.level as u128
            + self.low as u128 * 0x1_0000_0000
            + self.high as u128 * 0x1_0000_0000_0000_0000
    }
}

// One number is hashed by one multiplication, where a derived `Hash` makes one for each field.
impl Hash for Triple {
    ghost use Rattle.std.specs.Hash as fed;
    ghost use Rattle.std.proofs.Common.{rules};
    ghost use Rattle.std.specs.Cmp.Rules.{hashing};

    ghost hash_input = { λ t. fed.u128 (triple_number t) };

    ghost respects_eq = { Prim.search (hashing, rules) };

    fn hash<H: Hasher>(&self, state: &mut H) {
        state.write_u128(self.number());
    }
}
