//! Pairs of strong fairness, and certificates that no path is strongly fair.

ghost use Rattle.std.specs.Prelude.{◌≡◌};
ghost use Rattle.region_sets.specs.Sets.{Adds, AreDistinct};
ghost use Rattle.region_sets.specs.Ranks.{AreLive};
ghost use Rattle.strong_fair.specs.Pinned.{certificate_slots, row_slots};

use kripke_model::expressions::Expr;
use region_sets::{Pin, StateSets};
use std::marker::Model;

/// If `p` holds again and again, so does `q`. Both are leaves of a model's formulas.
#[derive(Drop)]
pub struct Pair {
    pub p: Expr,
    pub q: Expr,
}

impl Model for Pair {
    ghost use Rattle.std.specs.Coded.{codes};
    ghost use Rattle.kripke_model.specs.TermCode.{term_code};
    ghost use Rattle.kripke_model.specs.Reading.{term_of};
    ghost use Rattle.strong_fair.specs.Strong as plain;

    ghost Value = { plain.Pair };

    ghost coded = { Prim.hlevel (codes, term_code) };

    ghost view = { λ pair. record { p = term_of pair.p; q = term_of pair.q } };
}

/// Why no strong path stays in a set. Constraints and pairs are counted from 1.
#[derive(Clone, Copy, PartialEq, Eq, Debug)]
pub enum Reason {
    /// No state has a next state that is left.
    Dead,
    /// Once there a path stays, and never meets the constraint.
    Avoid(u32),
    /// Once there a path stays, and never comes by the pair's `q`: so `p` may not hold.
    Pair(u32),
}

/// A set of states, and why no strong path stays in it.
pub struct Row {
    pub set: Pin,
    pub reason: Reason,
}

/// Why no path from an initial state is strongly fair. Its pins must be released.
pub struct Certificate {
    /// No path from an initial state leaves it.
    pub inside: Pin,
    /// They take all of it away, one after the other.
    pub rows: Vec<Row>,
}

impl Model for Certificate {
    ghost use Rattle.std.specs.Prelude.{map};
    ghost use Rattle.region_sets.specs.declared.pins.Pin.{Pin};
    ghost use Rattle.strong_fair.specs.Form as plain;
    ghost use Rattle.strong_fair.specs.Seen.{seen_row};

    ghost Value = { plain.Certificate Pin };

    ghost view = { λ c. record { inside = c.inside; rows = map seen_row c.rows.items } };
}

/// Releases the set of each row.
pub fn release_rows<S: StateSets>(sets: &mut S, mut rows: Vec<Row>)
    requires live { AreLive (S.seen sets.old) (row_slots rows.items) }
    requires once { AreDistinct (row_slots rows.items) }
    ensures pins { Adds (S.seen sets.new) (S.seen sets.old) (row_slots rows.items) }
    ensures fulls { (S.seen sets.new).fulls ≡ (S.seen sets.old).fulls }
{
    while let Some(row) = rows.pop() {
        let Row { set, reason: _ } = row;
        sets.release(set);
    }
    rows.destroy_empty();
}

impl Certificate {
    /// Releases each pin.
    pub fn release<S: StateSets>(self, sets: &mut S)
        requires live { AreLive (S.seen sets.old) (certificate_slots self) }
        requires once { AreDistinct (certificate_slots self) }
        ensures pins { Adds (S.seen sets.new) (S.seen sets.old) (certificate_slots self) }
        ensures fulls { (S.seen sets.new).fulls ≡ (S.seen sets.old).fulls }
    {
        let Certificate { inside, rows } = self;
        sets.release(inside);
        release_rows(sets, rows);
    }
}
