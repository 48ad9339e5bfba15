//! Whether a certificate shows what it has to.

ghost use Rattle.std.specs.Prelude.{◌≡◌, ◌↔◌, [], All, IfOk, IsTrue, map};
ghost use Rattle.kripke_model.specs.Leaves.{IsModelLeaf};
ghost use Rattle.region_sets.specs.Sets.{IsCall};
ghost use Rattle.region_sets.specs.Ranks.{AreLive, regions, slots};
ghost use Rattle.fair_fixpoint.specs.Fairness.{AreConstraints};
ghost use Rattle.strong_fair.specs.Pinned.{certificate_slots, over_states};
ghost use Rattle.strong_fair.specs.Seen.{seen_row};
ghost use Rattle.strong_fair.specs.Shows.{IsCertificate};
ghost use Rattle.strong_fair.specs.Strong.{HasStrongPath};

use crate::certificate::{Certificate, Pair, Row};
use crate::rows::rows_hold;
use fair_fixpoint::constraints::Constraints;
use kripke_model::models::Ruled;
use region_sets::{Pin, SetRefusal, StateSets};
use state_reach::closed::is_closed;

/// The set that no path from an initial state leaves.
fn inside_of(certificate: &Certificate) -> &Pin
    ensures { result.now ≡ certificate.now.inside }
{
    &certificate.inside
}

/// The rows in order.
fn rows_of(certificate: &Certificate) -> &[Row]
    ensures { map seen_row result.now ≡ certificate.now.rows }
{
    &certificate.rows
}

/// Whether the certificate shows that no path from an initial state is strongly fair to the pairs. The pins stay live.
/// `Full` comes only where the store was full in this call.
pub fn certificate_holds<S: StateSets>(
    sets: &mut S,
    model: &Ruled,
    constraints: &Constraints,
    pairs: &[Pair],
    certificate: &Certificate,
) -> Result<bool, SetRefusal>
    requires over { (S.seen sets.old).over ≡ model.now }
    requires leaves { All (λ pair. IsModelLeaf model.now pair.p
        × IsModelLeaf model.now pair.q) pairs.now }
    requires live { AreLive (S.seen sets.old) (slots constraints.now.visits.items) }
    requires made { AreConstraints model.now
        (regions (S.seen sets.old) constraints.now.visits.items) }
    requires sets_live { AreLive (S.seen sets.old) (certificate_slots certificate.now) }
    ensures call { IsCall 8 (S.seen sets.old) (S.seen sets.new) [] result }
    ensures answer { IfOk result (λ yes. IsTrue yes ↔ IsCertificate model.now pairs.now
        (over_states (S.seen sets.old) certificate.now)) }
    ensures sound { IfOk result (λ yes. IsTrue yes → HasStrongPath model.now pairs.now → ⊥) }
{
    if !is_closed(sets, inside_of(certificate))? {
        return Ok(false);
    }
    rows_hold(
        sets,
        constraints,
        pairs,
        inside_of(certificate),
        rows_of(certificate),
    )
}
