ghost use Rattle.std.specs.Prelude.{◌≡◌, ◌+◌, ◌*◌, ◌^◌};
ghost use Rattle.bdd_ops.specs.Key.{packed, key_number};

use bdd_nodes::Ref;
use std::hash::{Hash, Hasher};

/// What a cache entry answers: an operation with its operands. A list of levels is named by its
/// place among those that the engine keeps, as `Engine::list_key` gives it.
#[derive(Clone, Copy, Debug, PartialEq, Eq)]
pub enum Key {
    /// The negation.
    Not(Ref),
    /// The conjunction.
    And(Ref, Ref),
    /// The disjunction.
    Or(Ref, Ref),
    /// True where both operands have the same value.
    Iff(Ref, Ref),
    /// The second operand where the first is true, and else the third.
    Ite(Ref, Ref, Ref),
    /// True where some choice of the listed levels' bits makes the operand true.
    Exists(Ref, u32),
    /// The same of the conjunction of two operands.
    AndExists(Ref, Ref, u32),
    /// The operand with the levels 0 and 1, 2 and 3 and so on exchanged. The flag says whether the
    /// operand depends on even levels, which then become odd ones.
    Rename(Ref, bool),
}

impl Key {
    /// A number of the key's own, by which it is hashed.
    fn number(&self) -> u128
        ensures { result ≡ key_number self.now }
    {
        match *self {
            Key::Not(f) => pack(0, f.number(), 0, 0),
            Key::And(f, g) => pack(1, f.number(), g.number(), 0),
            Key::Or(f, g) => pack(2, f.number(), g.number(), 0),
            Key::Iff(f, g) => pack(3, f.number(), g.number(), 0),
            Key::Ite(f, g, h) => pack(4, f.number(), g.number(), h.number()),
            Key::Exists(f, list) => pack(5, f.number(), list, 0),
            Key::AndExists(f, g, list) => pack(6, f.number(), g.number(), list),
            Key::Rename(f, even) => pack(7, f.number(), even as u32, 0),
        }
    }
}

// One number is hashed by one multiplication, where a derived `Hash` makes one for each field.
impl Hash for Key {
    ghost use Rattle.std.specs.Hash as fed;
    ghost use Rattle.std.proofs.Common.{rules};
    ghost use Rattle.std.specs.Cmp.Rules.{hashing};

    ghost hash_input = { λ k. fed.u128 (key_number k) };

    ghost respects_eq = { Prim.search (hashing, rules) };

    fn hash<H: Hasher>(&self, state: &mut H) {
        state.write_u128(self.number());
    }
}

/// Four numbers in one, in 32 bits each, the first the lowest.
fn pack(a: u32, b: u32, c: u32, d: u32) -> u128
    ensures { result ≡ packed a b c d }
{
    a as u128
        + b as u128 * 0x1_0000_0000
        + c as u128 * 0x1_0000_0000_0000_0000
        + d as u128 * 0x1_0000_0000_0000_0000_0000_0000
}
