//! Tests of the states of a row: where they lead, and what they have.

ghost use Rattle.std.specs.Prelude.{◌≡◌, ◌↔◌, [], IfOk, IsTrue};
ghost use Rattle.kripke_model.specs.Leaves.{IsModelLeaf};
ghost use Rattle.kripke_model.specs.Reading.{term_of};
ghost use Rattle.region_sets.specs.Sets.{In, IsCall, IsLive};
ghost use Rattle.state_reach.specs.States.{HoldsAt};
ghost use Rattle.strong_fair.specs.Shows.{HasNone, HasNoStep, Stays};

use kripke_model::expressions::Expr;
use region_sets::{Pin, SetRefusal, StateSets};
use state_reach::steps::before;

/// Whether no state of the set has a next state in the other.
pub fn has_no_step<S: StateSets>(sets: &mut S, from: &Pin, into: &Pin) -> Result<bool, SetRefusal>
    requires from { IsLive (S.seen sets.old) from.now.slot }
    requires into { IsLive (S.seen sets.old) into.now.slot }
    ensures call { IsCall 2 (S.seen sets.old) (S.seen sets.new) [] result }
    ensures answer { IfOk result (λ yes. IsTrue yes ↔ HasNoStep (S.seen sets.old).over
        (In (S.seen sets.old) from.now.slot) (In (S.seen sets.old) into.now.slot)) }
{
    let leading = before(sets, from, into)?;
    let none = sets.is_empty(&leading);
    sets.release(leading);
    Ok(none)
}

/// Whether each next state of the set that is left is in it.
pub fn stays<S: StateSets>(sets: &mut S, here: &Pin, left: &Pin) -> Result<bool, SetRefusal>
    requires here { IsLive (S.seen sets.old) here.now.slot }
    requires left { IsLive (S.seen sets.old) left.now.slot }
    ensures call { IsCall 3 (S.seen sets.old) (S.seen sets.new) [] result }
    ensures answer { IfOk result (λ yes. IsTrue yes ↔ Stays (S.seen sets.old).over
        (In (S.seen sets.old) here.now.slot) (In (S.seen sets.old) left.now.slot)) }
{
    let outside = sets.minus(left, here)?;
    let yes = has_no_step(sets, here, &outside);
    sets.release(outside);
    yes
}

/// Whether no state is in both sets.
pub fn has_none<S: StateSets>(sets: &mut S, here: &Pin, there: &Pin) -> Result<bool, SetRefusal>
    requires here { IsLive (S.seen sets.old) here.now.slot }
    requires there { IsLive (S.seen sets.old) there.now.slot }
    ensures call { IsCall 1 (S.seen sets.old) (S.seen sets.new) [] result }
    ensures answer { IfOk result (λ yes. IsTrue yes ↔ HasNone (S.seen sets.old).over
        (In (S.seen sets.old) here.now.slot) (In (S.seen sets.old) there.now.slot)) }
{
    let both = sets.meet(here, there)?;
    let none = sets.is_empty(&both);
    sets.release(both);
    Ok(none)
}

/// Whether the leaf is 1 at no state of the set.
pub fn has_none_with<S: StateSets>(
    sets: &mut S,
    here: &Pin,
    leaf: &Expr,
) -> Result<bool, SetRefusal>
    requires here { IsLive (S.seen sets.old) here.now.slot }
    requires leaf { IsModelLeaf (S.seen sets.old).over (term_of leaf.now) }
    ensures call { IsCall 2 (S.seen sets.old) (S.seen sets.new) [] result }
    ensures answer { IfOk result (λ yes. IsTrue yes ↔ HasNone (S.seen sets.old).over
        (In (S.seen sets.old) here.now.slot)
        (HoldsAt (S.seen sets.old).over (term_of leaf.now))) }
{
    let ones = sets.leaf(leaf)?;
    let none = has_none(sets, here, &ones);
    sets.release(ones);
    none
}
