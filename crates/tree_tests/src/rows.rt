//! Rows whose sets are made one by one.

ghost use Rattle.std.specs.Prelude.{◌≡◌, [], IfErr, IfOk};
ghost use Rattle.kripke_model.specs.Leaves.{IsModelLeaf};
ghost use Rattle.kripke_model.specs.Reading.{term_of};
ghost use Rattle.region_sets.specs.Sets.{Adds, pin_slots};
ghost use Rattle.strong_fair.specs.Pinned.{row_slots};

use kripke_model::expressions::Expr;
use region_sets::{Pin, SetRefusal, StateSets};
use std::alloc::{AllocFailed, Global};
use strong_fair::certificate::{Reason, Row, release_rows};

/// Which states a set has.
#[derive(Clone, Copy)]
pub enum Which {
    All,
    Nothing,
    /// Those where the leaf is 1.
    Ones,
}

/// The set.
pub fn set_of<S: StateSets>(sets: &mut S, leaf: &Expr, which: Which) -> Result<Pin, SetRefusal>
    requires { IsModelLeaf (S.seen sets.old).over (term_of leaf.now) }
    ensures { Adds (S.seen sets.old) (S.seen sets.new) (pin_slots result) }
{
    match which {
        Which::All => sets.full(),
        Which::Nothing => sets.empty(),
        Which::Ones => sets.leaf(leaf),
    }
}

/// The rows in order.
pub fn rows_of<S: StateSets>(
    alloc: Global,
    sets: &mut S,
    leaf: &Expr,
    plans: &[(Which, Reason)],
) -> Result<Vec<Row>, SetRefusal>
    requires { IsModelLeaf (S.seen sets.old).over (term_of leaf.now) }
    ensures made { IfOk result (λ rows. Adds (S.seen sets.old) (S.seen sets.new)
        (row_slots rows.items)) }
    ensures refused { IfErr result (λ refusal. Adds (S.seen sets.old) (S.seen sets.new) []) }
{
    let mut rows = Vec::new(alloc);
    for (which, reason) in plans {
        match set_of(sets, leaf, *which) {
            Ok(set) => if let Err(failed) = rows.push(Row {
                set,
                reason: *reason,
            }) {
                let AllocFailed { value } = failed;
                let Row { set, reason: _ } = value;
                sets.release(set);
                release_rows(sets, rows);
                return Err(SetRefusal::Memory);
            },
            Err(refusal) => {
                release_rows(sets, rows);
                return Err(refusal);
            }
        }
    }
    Ok(rows)
}
