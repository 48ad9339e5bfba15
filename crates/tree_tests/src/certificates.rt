//! Certificates of rows, and whether they hold.

ghost use Rattle.std.specs.Prelude.{◌≡◌, [], All, IfErr, IfOk};
ghost use Rattle.kripke_model.specs.Leaves.{IsModelLeaf};
ghost use Rattle.kripke_model.specs.Reading.{term_of};
ghost use Rattle.region_sets.specs.Sets.{Adds};
ghost use Rattle.region_sets.specs.Ranks.{AreLive, regions, slots};
ghost use Rattle.fair_fixpoint.specs.Fairness.{AreConstraints};
ghost use Rattle.strong_fair.specs.Pinned.{certificate_slots};

use crate::rows::{Which, rows_of, set_of};
use fair_fixpoint::constraints::{Constraints, constraint_sets};
use kripke_model::expressions::Expr;
use kripke_model::models::Ruled;
use region_sets::{SetRefusal, StateSets};
use std::alloc::Global;
use strong_fair::certificate::{Certificate, Pair, Reason};
use strong_fair::testing::certificate_holds;

/// What a certificate is made of.
#[derive(Drop)]
pub struct Plan<'a> {
    pub inside: Which,
    pub rows: &'a [(Which, Reason)],
}

/// The certificate of the plan.
fn certificate_of<S: StateSets>(
    alloc: Global,
    sets: &mut S,
    leaf: &Expr,
    plan: &Plan,
) -> Result<Certificate, SetRefusal>
    requires { IsModelLeaf (S.seen sets.old).over (term_of leaf.now) }
    ensures made { IfOk result (λ certificate. Adds (S.seen sets.old) (S.seen sets.new)
        (certificate_slots certificate)) }
    ensures refused { IfErr result (λ refusal. Adds (S.seen sets.old) (S.seen sets.new) []) }
{
    let inside = set_of(sets, leaf, plan.inside)?;
    match rows_of(alloc, sets, leaf, plan.rows) {
        Ok(rows) => Ok(Certificate { inside, rows }),
        Err(refusal) => {
            sets.release(inside);
            Err(refusal)
        }
    }
}

/// Whether the plan's certificate holds, for these constraints. No pin is left.
fn holds_for<S: StateSets>(
    alloc: Global,
    sets: &mut S,
    model: &Ruled,
    constraints: &Constraints,
    pairs: &[Pair],
    leaf: &Expr,
    plan: &Plan,
) -> Result<bool, SetRefusal>
    requires over { (S.seen sets.old).over ≡ model.now }
    requires live { AreLive (S.seen sets.old) (slots constraints.now.visits.items) }
    requires made { AreConstraints model.now
        (regions (S.seen sets.old) constraints.now.visits.items) }
    requires pairs { All (λ pair. IsModelLeaf model.now pair.p
        × IsModelLeaf model.now pair.q) pairs.now }
    requires leaf { IsModelLeaf model.now (term_of leaf.now) }
    ensures { Adds (S.seen sets.old) (S.seen sets.new) [] }
{
    let certificate = certificate_of(alloc, sets, leaf, plan)?;
    let holds = certificate_holds(sets, model, constraints, pairs, &certificate);
    certificate.release(sets);
    holds
}

/// Whether the plan's certificate holds for the pairs. No pin is left.
pub fn holds<S: StateSets>(
    alloc: Global,
    sets: &mut S,
    model: &Ruled,
    pairs: &[Pair],
    leaf: &Expr,
    plan: &Plan,
) -> Result<bool, SetRefusal>
    requires over { (S.seen sets.old).over ≡ model.now }
    requires pairs { All (λ pair. IsModelLeaf model.now pair.p
        × IsModelLeaf model.now pair.q) pairs.now }
    requires leaf { IsModelLeaf model.now (term_of leaf.now) }
    ensures { Adds (S.seen sets.old) (S.seen sets.new) [] }
{
    let constraints = constraint_sets(alloc, sets, model)?;
    let holds = holds_for(alloc, sets, model, &constraints, pairs, leaf, plan);
    constraints.release(sets);
    holds
}
