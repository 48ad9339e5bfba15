ghost use Rattle.std.specs.Prelude.{◌≡◌, ℕ, ◌<◌, ◌≤◌, ◌⊎◌, Bool, true, false, not, ◌&&◌, ◌||◌, if◌then◌else◌, max, IfSome, IfNone};

use crate::Key;
use bdd_nodes::Ref;

/// A pointwise operation with its operands: its value at a list of bits is made of theirs there.
#[derive(Clone, Copy)]
pub(crate) enum Operation {
    Not(Ref),
    And(Ref, Ref),
    Or(Ref, Ref),
    Iff(Ref, Ref),
    Ite(Ref, Ref, Ref),
}

impl Operation {
    ghost use Rattle.bdd_ops.specs.Operation.{combine, highest_of, key_of, SomeOperand, IsOpen};

    /// The key of its cache entry.
    pub(crate) fn key(self) -> Key
        ensures { result ≡ key_of self }
    {
        match self {
            Operation::Not(f) => Key::Not(f),
            Operation::And(f, g) => Key::And(f, g),
            Operation::Or(f, g) => Key::Or(f, g),
            Operation::Iff(f, g) => Key::Iff(f, g),
            Operation::Ite(f, g, h) => Key::Ite(f, g, h),
        }
    }

    /// The answer where the operands show it: a constant or one of them.
    pub(crate) fn answer(&self) -> Option<Ref>
        ensures value { IfSome result
            (λ r. (v : ℕ → Bool) → v 0 ≡ false → v 1 ≡ true → v r ≡ combine v self.now) }
        ensures among { IfSome result (λ r. (r < 2) ⊎ SomeOperand (λ f. f ≡ r) self.now) }
        ensures none { IfNone result (2 ≤ highest_of self.now) }
        ensures unsettled { IfNone result (IsOpen self.now) }
    {
        match *self {
            Operation::Not(f) => answer_not(f),
            Operation::And(f, g) => answer_and(f, g),
            Operation::Or(f, g) => answer_or(f, g),
            Operation::Iff(f, g) => answer_iff(f, g),
            Operation::Ite(f, g, h) => answer_ite(f, g, h),
        }
    }
}

fn answer_not(f: Ref) -> Option<Ref>
    ensures value { IfSome result
        (λ r. (v : ℕ → Bool) → v 0 ≡ false → v 1 ≡ true → v r ≡ not (v f)) }
    ensures among { IfSome result (λ r. r < 2) }
    ensures none { IfNone result (2 ≤ f) }
{
    if f == Ref::FALSE {
        Some(Ref::TRUE)
    } else if f == Ref::TRUE {
        Some(Ref::FALSE)
    } else {
        None
    }
}

fn answer_and(f: Ref, g: Ref) -> Option<Ref>
    ensures value { IfSome result
        (λ r. (v : ℕ → Bool) → v 0 ≡ false → v 1 ≡ true → v r ≡ v f && v g) }
    ensures among { IfSome result (λ r. (r < 2) ⊎ ((f ≡ r) ⊎ (g ≡ r))) }
    ensures none { IfNone result (2 ≤ max f g) }
    ensures unsettled { IfNone result ((2 ≤ f) × (2 ≤ g)) }
{
    if f == Ref::FALSE || g == Ref::FALSE {
        Some(Ref::FALSE)
    } else if f == Ref::TRUE || f == g {
        Some(g)
    } else if g == Ref::TRUE {
        Some(f)
    } else {
        None
    }
}

fn answer_or(f: Ref, g: Ref) -> Option<Ref>
    ensures value { IfSome result
        (λ r. (v : ℕ → Bool) → v 0 ≡ false → v 1 ≡ true → v r ≡ v f || v g) }
    ensures among { IfSome result (λ r. (r < 2) ⊎ ((f ≡ r) ⊎ (g ≡ r))) }
    ensures none { IfNone result (2 ≤ max f g) }
    ensures unsettled { IfNone result ((2 ≤ f) × (2 ≤ g)) }
{
    if f == Ref::TRUE || g == Ref::TRUE {
        Some(Ref::TRUE)
    } else if f == Ref::FALSE || f == g {
        Some(g)
    } else if g == Ref::FALSE {
        Some(f)
    } else {
        None
    }
}

fn answer_iff(f: Ref, g: Ref) -> Option<Ref>
    ensures value { IfSome result
        (λ r. (v : ℕ → Bool) → v 0 ≡ false → v 1 ≡ true → v r ≡ (if v f then v g else not (v g))) }
    ensures among { IfSome result (λ r. (r < 2) ⊎ ((f ≡ r) ⊎ (g ≡ r))) }
    ensures none { IfNone result (2 ≤ max f g) }
{
    if f == g {
        Some(Ref::TRUE)
    } else if f == Ref::TRUE {
        Some(g)
    } else if g == Ref::TRUE {
        Some(f)
    } else {
        None
    }
}

fn answer_ite(f: Ref, g: Ref, h: Ref) -> Option<Ref>
    ensures value { IfSome result
        (λ r. (v : ℕ → Bool) → v 0 ≡ false → v 1 ≡ true → v r ≡ (if v f then v g else v h)) }
    ensures among { IfSome result (λ r. (r < 2) ⊎ ((f ≡ r) ⊎ ((g ≡ r) ⊎ (h ≡ r)))) }
    ensures none { IfNone result (2 ≤ max f (max g h)) }
    ensures unsettled { IfNone result (2 ≤ f) }
{
    if f == Ref::TRUE || g == h {
        Some(g)
    } else if f == Ref::FALSE {
        Some(h)
    } else if f == h && g == Ref::FALSE {
        Some(Ref::FALSE)
    } else {
        None
    }
}
