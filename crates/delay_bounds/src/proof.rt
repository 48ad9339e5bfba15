//! Proofs of two delays.

ghost use Rattle.std.specs.Prelude.{◌≡◌, [], ◌∷◌};
ghost use Rattle.region_sets.specs.Sets.{Adds, AreDistinct};
ghost use Rattle.region_sets.specs.Ranks.{slots, AreLive};
ghost use Rattle.delay_bounds.specs.Form.{longest_sets, shortest_sets};
ghost use Rattle.delay_bounds.specs.Pinned.{proof_slots};
ghost use Rattle.delay_bounds.specs.Seen.{seen_longest, seen_shortest};

use kripke_model::states::{Lasso, State};
use region_sets::{Pin, StateSets, release_all};
use std::marker::Model;

/// Why the shortest delay is what it is.
pub enum Shortest {
    /// No reachable state is a start.
    NoStart {
        inside: Pin,
    },
    /// A path leads to a start, and none from there to a goal.
    Never {
        inside: Pin,
        back: Pin,
        way: Vec<State>,
    },
    /// The path comes by a start, and then by as many steps as `back` has sets to a goal; no path of fewer steps does.
    Steps {
        inside: Pin,
        back: Vec<Pin>,
        way: Vec<State>,
        start: u64,
    },
}

/// Why the longest delay is what it is.
pub enum Longest {
    /// No reachable state is a start.
    NoStart {
        inside: Pin,
    },
    /// The path comes by a start, and never again by a goal.
    Endless {
        lasso: Lasso,
        start: u64,
    },
    /// Each path of one step less than `stay` has sets comes by a goal, and the path shows that fewer steps don't suffice.
    Steps {
        inside: Pin,
        stay: Vec<Pin>,
        way: Vec<State>,
        start: u64,
    },
}

/// A proof of the shortest and of the longest delay. Its pins must be released.
pub struct DelayProof {
    pub shortest: Shortest,
    pub longest: Longest,
}

impl Model for DelayProof {
    ghost use Rattle.region_sets.specs.declared.pins.Pin.{Pin};
    ghost use Rattle.delay_bounds.specs.Form as plain;

    ghost Value = { plain.DelayProof Pin };

    ghost use Rattle.delay_bounds.specs.Seen.{seen_shortest, seen_longest};

    ghost view = { λ p. record {
      shortest = seen_shortest p.shortest;
      longest = seen_longest p.longest;
    } };
}

/// Releases both pins.
fn release_two<S: StateSets>(sets: &mut S, a: Pin, b: Pin)
    requires live { AreLive (S.seen sets.old) (a.slot ∷ b.slot ∷ []) }
    requires once { AreDistinct (a.slot ∷ b.slot ∷ []) }
    ensures pins { Adds (S.seen sets.new) (S.seen sets.old) (a.slot ∷ b.slot ∷ []) }
    ensures fulls { (S.seen sets.new).fulls ≡ (S.seen sets.old).fulls }
{
    sets.release(a);
    sets.release(b);
}

/// Releases the pin, and each one of the list.
fn release_with<S: StateSets>(sets: &mut S, first: Pin, list: Vec<Pin>)
    requires live { AreLive (S.seen sets.old) (first.slot ∷ slots list.items) }
    requires once { AreDistinct (first.slot ∷ slots list.items) }
    ensures pins { Adds (S.seen sets.new) (S.seen sets.old) (first.slot ∷ slots list.items) }
    ensures fulls { (S.seen sets.new).fulls ≡ (S.seen sets.old).fulls }
{
    sets.release(first);
    release_all(sets, list);
}

impl Shortest {
    /// Releases each pin.
    pub fn release<S: StateSets>(self, sets: &mut S)
        requires live { AreLive (S.seen sets.old) (slots (shortest_sets (seen_shortest self))) }
        requires once { AreDistinct (slots (shortest_sets (seen_shortest self))) }
        ensures pins { Adds (S.seen sets.new) (S.seen sets.old)
            (slots (shortest_sets (seen_shortest self))) }
        ensures fulls { (S.seen sets.new).fulls ≡ (S.seen sets.old).fulls }
    {
        match self {
            Shortest::NoStart { inside } => sets.release(inside),
            Shortest::Never {
                inside,
                back,
                way: _way,
            } => release_two(sets, inside, back),
            Shortest::Steps {
                inside,
                back,
                way: _way,
                start: _start,
            } => release_with(sets, inside, back),
        }
    }
}

impl Longest {
    /// Releases each pin.
    pub fn release<S: StateSets>(self, sets: &mut S)
        requires live { AreLive (S.seen sets.old) (slots (longest_sets (seen_longest self))) }
        requires once { AreDistinct (slots (longest_sets (seen_longest self))) }
        ensures pins { Adds (S.seen sets.new) (S.seen sets.old)
            (slots (longest_sets (seen_longest self))) }
        ensures fulls { (S.seen sets.new).fulls ≡ (S.seen sets.old).fulls }
    {
        match self {
            Longest::NoStart { inside } => sets.release(inside),
            Longest::Endless {
                lasso: _lasso,
                start: _start,
            } => {}
            Longest::Steps {
                inside,
                stay,
                way: _way,
                start: _start,
            } => release_with(sets, inside, stay),
        }
    }
}

impl DelayProof {
    /// Releases each pin.
    pub fn release<S: StateSets>(self, sets: &mut S)
        requires live { AreLive (S.seen sets.old) (proof_slots self) }
        requires once { AreDistinct (proof_slots self) }
        ensures pins { Adds (S.seen sets.new) (S.seen sets.old) (proof_slots self) }
        ensures fulls { (S.seen sets.new).fulls ≡ (S.seen sets.old).fulls }
    {
        let DelayProof { shortest, longest } = self;
        shortest.release(sets);
        longest.release(sets);
    }
}
