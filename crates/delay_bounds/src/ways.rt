//! Finite paths and looping ones, tested place by place. Nothing here takes memory.

ghost use Rattle.std.specs.Prelude.{◌≡◌, ◌↔◌, ℕ, suc, ◌+◌, ◌-◌, ◌<◌, ◌≤◌, [], length, min, IsTrue, slice_index_or};
ghost use Rattle.kripke_model.specs.Path.{IsPath, at};
ghost use Rattle.kripke_model.specs.Step.{IsState, Initial, Step};
ghost use Rattle.path_laws.specs.Live.{IsRun, last_state};
ghost use Rattle.region_sets.specs.Sets.{In, IsLive};
ghost use Rattle.state_reach.specs.Covers.{Comes};
ghost use Rattle.delay_bounds.specs.Shows.{Waits};

use kripke_model::models::Ruled;
use kripke_model::states::{Lasso, State};
use region_sets::{Pin, StateSets};
use single_states::evaluation::is_state;
use single_states::steps::{is_initial, is_path, is_step};

/// Whether there is such a place.
fn is_there(way: &[State], place: u64) -> bool
    ensures { IsTrue result ↔ (place < length way.now) }
{
    place < way.len() as u64
}

/// The state at a place.
fn state_at(way: &[State], place: u64) -> &State
    requires { place < length way.now }
    ensures { result.now ≡ slice_index_or way.now place [] }
{
    &way[place as usize]
}

/// Whether each is a state of the model.
fn are_states(model: &Ruled, way: &[State]) -> bool
    ensures { IsTrue result ↔ ((i : ℕ) → i < length way.now
        → IsState model.now (slice_index_or way.now i [])) }
{
    for i in 0..way.len() as u64 {
        if !is_state(model, state_at(way, i)) {
            return false;
        }
    }
    true
}

/// Whether each steps to the one that comes after it.
fn are_steps(model: &Ruled, way: &[State]) -> bool
    ensures { IsTrue result ↔ ((i : ℕ) → i + 1 < length way.now
        → Step model.now (slice_index_or way.now i []) (slice_index_or way.now (i + 1) [])) }
{
    for i in 1..way.len() as u64 {
        if !is_step(model, state_at(way, i - 1), state_at(way, i)) {
            return false;
        }
    }
    true
}

/// Whether it is a finite path: at least one state, each of which steps to the one that comes after it.
fn is_run(model: &Ruled, way: &[State]) -> bool
    ensures { IsTrue result ↔ IsRun model.now way.now }
{
    if !is_there(way, 0) {
        return false;
    }
    if !are_states(model, way) {
        return false;
    }
    are_steps(model, way)
}

/// Whether there is such a place, and its state is in the set.
fn has_at<S: StateSets>(sets: &S, set: &Pin, way: &[State], place: u64) -> bool
    requires live { IsLive (S.seen sets.now) set.now.slot }
    requires run { IsRun (S.seen sets.now).over way.now }
    ensures { IsTrue result ↔ ((place < length way.now)
        × In (S.seen sets.now) set.now.slot (slice_index_or way.now place [])) }
{
    is_there(way, place) && sets.has(set, state_at(way, place))
}

/// Whether it is a finite path from an initial state, with a state of the set at the place.
pub fn comes<S: StateSets>(sets: &S, model: &Ruled, from: &Pin, way: &[State], start: u64) -> bool
    requires model { model.now ≡ (S.seen sets.now).over }
    requires live { IsLive (S.seen sets.now) from.now.slot }
    ensures { IsTrue result ↔ Comes model.now (In (S.seen sets.now) from.now.slot) way.now start }
{
    is_run(model, way) && is_initial(model, state_at(way, 0)) && has_at(sets, from, way, start)
}

/// Whether the last state is in the set.
pub fn ends_in<S: StateSets>(sets: &S, set: &Pin, way: &[State]) -> bool
    requires live { IsLive (S.seen sets.now) set.now.slot }
    requires run { IsRun (S.seen sets.now).over way.now }
    ensures { IsTrue result ↔ In (S.seen sets.now) set.now.slot (last_state way.now) }
{
    sets.has(set, state_at(way, way.len() as u64 - 1))
}

/// Whether no state from the place on is in the set.
fn avoids_from<S: StateSets>(sets: &S, set: &Pin, way: &[State], start: u64) -> bool
    requires live { IsLive (S.seen sets.now) set.now.slot }
    requires run { IsRun (S.seen sets.now).over way.now }
    ensures { IsTrue result ↔ ((j : ℕ) → start ≤ j → j < length way.now
        → In (S.seen sets.now) set.now.slot (slice_index_or way.now j []) → ⊥) }
{
    for j in start..way.len() as u64 {
        if sets.has(set, state_at(way, j)) {
            return false;
        }
    }
    true
}

/// Whether it is the number 0.
fn is_none(steps: u64) -> bool
    ensures { IsTrue result ↔ (steps ≡ 0) }
{
    steps == 0
}

/// Whether so many states are left from the place on.
fn is_left(way: &[State], start: u64, count: u64) -> bool
    requires { start < length way.now }
    ensures { IsTrue result ↔ (length way.now ≡ start + count) }
{
    way.len() as u64 - start == count
}

/// Whether the path waits so many steps from the place on: it ends there for none, and else one step before they are
/// over, without a state of the set.
pub fn waits<S: StateSets>(sets: &S, to: &Pin, way: &[State], start: u64, steps: u64) -> bool
    requires live { IsLive (S.seen sets.now) to.now.slot }
    requires run { IsRun (S.seen sets.now).over way.now }
    requires there { start < length way.now }
    ensures { IsTrue result ↔ Waits (In (S.seen sets.now) to.now.slot) way.now start steps }
{
    if is_none(steps) {
        return is_left(way, start, 1);
    }
    is_left(way, start, steps) && avoids_from(sets, to, way, start)
}

/// The first of the members that stand on the path from the place on. Members of the cycle all do.
fn first_member(lasso: &Lasso, start: u64) -> u64
    ensures { result ≡ min start (length lasso.now.stem) }
{
    start.min(lasso.stem.len() as u64)
}

/// Whether no state of the path from the place on is in the set.
fn avoids_for_ever<S: StateSets>(sets: &S, set: &Pin, lasso: &Lasso, start: u64) -> bool
    requires live { IsLive (S.seen sets.now) set.now.slot }
    requires path { IsPath (S.seen sets.now).over lasso.now }
    ensures { IsTrue result ↔ ((n : ℕ) → start ≤ n
        → In (S.seen sets.now) set.now.slot (at lasso.now n) → ⊥) }
{
    for n in first_member(lasso, start)..lasso.member_count() {
        if sets.has(set, lasso.at(n)) {
            return false;
        }
    }
    true
}

/// Whether it is an infinite path from an initial state, with a state of one set at the place and none of the other from
/// there on.
pub fn waits_for_ever<S: StateSets>(
    sets: &S,
    model: &Ruled,
    from: &Pin,
    to: &Pin,
    lasso: &Lasso,
    start: u64,
) -> bool
    requires model { model.now ≡ (S.seen sets.now).over }
    requires from { IsLive (S.seen sets.now) from.now.slot }
    requires to { IsLive (S.seen sets.now) to.now.slot }
    ensures { IsTrue result ↔ (IsPath model.now lasso.now × Initial model.now (at lasso.now 0)
        × In (S.seen sets.now) from.now.slot (at lasso.now start)
        × ((n : ℕ) → start ≤ n → In (S.seen sets.now) to.now.slot (at lasso.now n) → ⊥)) }
{
    if !is_path(model, lasso) {
        return false;
    }
    is_initial(model, lasso.at(0))
        && sets.has(from, lasso.at(start))
        && avoids_for_ever(sets, to, lasso, start)
}
