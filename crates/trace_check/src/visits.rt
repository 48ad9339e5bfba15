// The constraints on the cycle of a path, one after the other.

ghost use Rattle.std.specs.Prelude.{◌≡◌, ◌+◌, ◌<◌, ◌↔◌, ℕ, All, IsTrue, length, MatchOption};
ghost use Rattle.kripke_model.specs.Step.{IsState};
ghost use Rattle.region_sets.specs.Ranks.{AreLive, regions, slots};
ghost use Rattle.fair_fixpoint.specs.Fairness.{AreConstraints};
ghost use Rattle.trace_check.specs.Judged.{IsFirstUnmet, MeetsOnCycle};
ghost use Rattle.kripke_model.specs.System.{IsConstraint};

use fair_fixpoint::constraints::Constraints;
use fair_fixpoint::fair_lassos::is_visited;
use kripke_model::models::Ruled;
use kripke_model::states::Lasso;
use region_sets::StateSets;

/// Whether the set of a constraint, at this place in their list, has a state of the cycle.
fn is_met<S: StateSets>(
    sets: &S,
    _model: &Ruled,
    constraints: &Constraints,
    lasso: &Lasso,
    place: usize,
) -> bool
    requires over { _model.now ≡ (S.seen sets.now).over }
    requires live { AreLive (S.seen sets.now) (slots constraints.now.visits.items) }
    requires made { AreConstraints _model.now
        (regions (S.seen sets.now) constraints.now.visits.items) }
    requires states { All (IsState _model.now) lasso.now.cycle }
    requires there { place < length constraints.now.visits.items }
    ensures { IsTrue result ↔ MeetsOnCycle _model.now lasso.now (place + 1) }
{
    is_visited(sets, &constraints.visits[place], lasso.cycle())
}

/// The first constraint that no state of the cycle meets, counted from 1.
pub(crate) fn first_unmet<S: StateSets>(
    sets: &S,
    model: &Ruled,
    constraints: &Constraints,
    lasso: &Lasso,
) -> Option<u32>
    requires over { model.now ≡ (S.seen sets.now).over }
    requires live { AreLive (S.seen sets.now) (slots constraints.now.visits.items) }
    requires made { AreConstraints model.now
        (regions (S.seen sets.now) constraints.now.visits.items) }
    requires states { All (IsState model.now) lasso.now.cycle }
    ensures { MatchOption result
        ((k : ℕ) → IsConstraint model.now k → MeetsOnCycle model.now lasso.now k)
        (IsFirstUnmet model.now lasso.now) }
{
    model.rules_law();
    for place in 0..constraints.visits.len() {
        if !is_met(sets, model, constraints, lasso, place) {
            return Some(place as u32 + 1);
        }
    }
    None
}
