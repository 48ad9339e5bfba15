ghost use Rattle.std.specs.Prelude.{◌≡◌, ℕ, Bool, false, true, min};
ghost use Rattle.bdd_nodes.specs.Store.{Has, level_of, triples};
ghost use Rattle.bdd_ops.specs.Operand.{part_at};
ghost use Rattle.bdd_ops.specs.Operation.{part_of, with_operands};
ghost use Rattle.bdd_ops.specs.Result.{HasOperands, top_of};

use crate::operation::Operation;
use bdd_nodes::{Ref, Store};

/// An operand as one look-up of its node shows it. A constant lies at the number of levels, and is
/// its own child.
#[derive(Clone, Copy)]
struct Operand {
    own: Ref,
    level: u32,
    low: Ref,
    high: Ref,
}

impl Operand {
    /// The child for a bit of this level: the operand itself where its level is another.
    fn part(&self, level: u32, bit: bool) -> Ref
        ensures { result ≡ part_at self.now level bit }
    {
        if self.level != level {
            self.own
        } else if bit {
            self.high
        } else {
            self.low
        }
    }
}

/// The least level of the operands, and the same operation on their children there.
#[derive(Clone, Copy)]
pub(crate) struct Sides {
    pub(crate) level: u32,
    pub(crate) low: Operation,
    pub(crate) high: Operation,
}

/// The operand that a diagram is.
fn operand_of(store: &Store, r: Ref) -> Operand
    requires { Has store.now r }
    ensures level { result.level ≡ level_of store.now r }
    ensures parts { (level : ℕ) (bit : Bool)
        → part_at result level bit ≡ part_of (triples store.now) level bit r }
{
    match store.node(r) {
        Some(triple) => Operand {
            own: r,
            level: triple.level,
            low: triple.child(false),
            high: triple.child(true),
        },
        None => Operand {
            own: r,
            level: store.levels(),
            low: r,
            high: r,
        },
    }
}

/// The cofactors of two diagrams at the least of their levels: the children of one that lies there,
/// and else the diagram itself.
#[derive(Clone, Copy)]
pub struct Cofactors {
    pub level: u32,
    /// The cofactors for a bit that isn't set.
    pub low: (Ref, Ref),
    /// The cofactors for a bit that is set.
    pub high: (Ref, Ref),
}

/// The cofactors of two diagrams. The node of each is looked up once.
pub fn cofactors_of(store: &Store, f: Ref, g: Ref) -> Cofactors
    requires f { Has store.now f }
    requires g { Has store.now g }
    ensures level { result.level ≡ min (level_of store.now f) (level_of store.now g) }
    ensures low_f { result.low.0 ≡ part_of (triples store.now) result.level false f }
    ensures low_g { result.low.1 ≡ part_of (triples store.now) result.level false g }
    ensures high_f { result.high.0 ≡ part_of (triples store.now) result.level true f }
    ensures high_g { result.high.1 ≡ part_of (triples store.now) result.level true g }
{
    let f = operand_of(store, f);
    let g = operand_of(store, g);
    let level = f.level.min(g.level);
    Cofactors {
        level,
        low: (f.part(level, false), g.part(level, false)),
        high: (f.part(level, true), g.part(level, true)),
    }
}

/// The split of a choice between two operands.
fn choice(store: &Store, f: Ref, g: Ref, h: Ref) -> Sides
    requires f { Has store.now f }
    requires g { Has store.now g }
    requires h { Has store.now h }
    ensures level { result.level ≡ top_of store.now (Operation.Ite f g h) }
    ensures low { result.low
        ≡ with_operands (part_of (triples store.now) result.level false) (Operation.Ite f g h) }
    ensures high { result.high
        ≡ with_operands (part_of (triples store.now) result.level true) (Operation.Ite f g h) }
{
    let f = operand_of(store, f);
    let g = operand_of(store, g);
    let h = operand_of(store, h);
    let level = f.level.min(g.level.min(h.level));
    Sides {
        level,
        low: Operation::Ite(
            f.part(level, false),
            g.part(level, false),
            h.part(level, false),
        ),
        high: Operation::Ite(
            f.part(level, true),
            g.part(level, true),
            h.part(level, true),
        ),
    }
}

/// The operation at its operands' least level. Each operand's node is looked up once.
pub(crate) fn split(store: &Store, operation: Operation) -> Sides
    requires { HasOperands store.now operation }
    ensures level { result.level ≡ top_of store.now operation }
    ensures low { result.low
        ≡ with_operands (part_of (triples store.now) result.level false) operation }
    ensures high { result.high
        ≡ with_operands (part_of (triples store.now) result.level true) operation }
{
    match operation {
        Operation::Not(f) => {
            let f = operand_of(store, f);
            Sides {
                level: f.level,
                low: Operation::Not(f.part(f.level, false)),
                high: Operation::Not(f.part(f.level, true)),
            }
        }
        Operation::And(f, g) => {
            let p = cofactors_of(store, f, g);
            Sides {
                level: p.level,
                low: Operation::And(p.low.0, p.low.1),
                high: Operation::And(p.high.0, p.high.1),
            }
        }
        Operation::Or(f, g) => {
            let p = cofactors_of(store, f, g);
            Sides {
                level: p.level,
                low: Operation::Or(p.low.0, p.low.1),
                high: Operation::Or(p.high.0, p.high.1),
            }
        }
        Operation::Iff(f, g) => {
            let p = cofactors_of(store, f, g);
            Sides {
                level: p.level,
                low: Operation::Iff(p.low.0, p.low.1),
                high: Operation::Iff(p.high.0, p.high.1),
            }
        }
        Operation::Ite(f, g, h) => choice(store, f, g, h),
    }
}
