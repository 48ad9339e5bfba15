//! What is written for a sign of a node, by the sets by which the node's sets grew.

ghost use Rattle.std.specs.Prelude.{◌≡◌, true, false};
ghost use Rattle.region_sets.specs.Sets.{IsLive, region};
ghost use Rattle.region_sets.specs.Ranks.{AreLive, regions, list_regions};
ghost use Rattle.proof_form.specs.Form.{ER};
ghost use Rattle.fair_fixpoint.specs.Found.{ranks_view};
ghost use Rattle.fair_fixpoint.specs.Runs.{grown_slots, layered_slots, node_slots};
ghost use Rattle.rank_extract.specs.Given.{given};
ghost use Rattle.rank_extract.specs.Signs.{sign_pin};
ghost use Rattle.rank_extract.specs.Made.{IsMade, fair_of, rule_own, rule_seen, rule_size};

use crate::copying::{copy_fair, copy_layers, copy_list};
use fair_fixpoint::runs::{Layered, NodeRun, Ranks};
use proof_form::form::Rule;
use region_sets::{Pin, SetRefusal, StateSets};
use std::alloc::Global;

/// A fair set, and the sets that lead to where the first argument lets go.
fn layered_rule<S: StateSets>(
    alloc: Global,
    sets: &mut S,
    layered: &Layered,
) -> Result<Rule<Pin>, SetRefusal>
    requires { AreLive (S.seen sets.old) (layered_slots layered.now) }
    ensures { IsMade rule_own rule_seen rule_size (S.seen sets.old) (S.seen sets.new)
        (ER (fair_of (region (S.seen sets.old) layered.now.inside) (list_regions (S.seen sets.old)
        layered.now.reach.items)) (regions (S.seen sets.old) layered.now.until.items)) result }
{
    let fair = copy_fair(alloc, sets, &layered.inside, &layered.reach)?;
    match copy_list(alloc, sets, &layered.until) {
        Ok(untils) => Ok(Rule::ER(fair, untils)),
        Err(refusal) => {
            fair.release(sets);
            Err(refusal)
        }
    }
}

/// For the sign on which the operator speaks of some path.
fn some_rule<S: StateSets>(
    alloc: Global,
    sets: &mut S,
    fair: &Pin,
    set: &Pin,
    ranks: &Ranks,
) -> Result<Rule<Pin>, SetRefusal>
    requires set { IsLive (S.seen sets.old) set.now.slot }
    requires ranks { AreLive (S.seen sets.old) (grown_slots ranks.now) }
    ensures { IsMade rule_own rule_seen rule_size (S.seen sets.old) (S.seen sets.new)
        (given (region (S.seen sets.old) fair.now) true (region (S.seen sets.old) set.now)
        (ranks_view (S.seen sets.old) ranks.now)) result }
{
    match ranks {
        Ranks::Plain => {
            let set = sets.copy(set)?;
            Ok(Rule::EX(set))
        }
        Ranks::Reach(list) => {
            let list = copy_list(alloc, sets, list)?;
            Ok(Rule::EU(list))
        }
        Ranks::Layered(layered) => layered_rule(alloc, sets, layered),
    }
}

/// For the sign on which it speaks of every path.
fn every_rule<S: StateSets>(
    alloc: Global,
    sets: &mut S,
    fair: &Pin,
    set: &Pin,
    ranks: &Ranks,
) -> Result<Rule<Pin>, SetRefusal>
    requires fair { IsLive (S.seen sets.old) fair.now.slot }
    requires set { IsLive (S.seen sets.old) set.now.slot }
    requires ranks { AreLive (S.seen sets.old) (grown_slots ranks.now) }
    ensures { IsMade rule_own rule_seen rule_size (S.seen sets.old) (S.seen sets.new)
        (given (region (S.seen sets.old) fair.now) false (region (S.seen sets.old) set.now)
        (ranks_view (S.seen sets.old) ranks.now)) result }
{
    match ranks {
        Ranks::Plain => {
            let set = sets.copy(set)?;
            Ok(Rule::AX(set))
        }
        Ranks::Reach(_) => {
            let set = sets.meet(set, fair)?;
            Ok(Rule::AR(set))
        }
        Ranks::Layered(layered) => {
            let layers = copy_layers(alloc, sets, &layered.layers)?;
            Ok(Rule::AU(layers))
        }
    }
}

/// The set of a sign.
fn sign_pin(node: &NodeRun, plus: bool) -> &Pin
    ensures { result.now ≡ sign_pin plus node.now }
{
    if plus { &node.plus } else { &node.minus }
}

/// For a sign of a node. `some` says whether the operator speaks of some path there.
pub fn node_rule<S: StateSets>(
    alloc: Global,
    sets: &mut S,
    fair: &Pin,
    node: &NodeRun,
    some: bool,
    plus: bool,
) -> Result<Rule<Pin>, SetRefusal>
    requires fair { IsLive (S.seen sets.old) fair.now.slot }
    requires node { AreLive (S.seen sets.old) (node_slots node.now) }
    ensures { IsMade rule_own rule_seen rule_size (S.seen sets.old) (S.seen sets.new)
        (given (region (S.seen sets.old) fair.now) some
        (region (S.seen sets.old) (sign_pin plus node.now)) (ranks_view (S.seen sets.old)
        node.now.ranks)) result }
{
    let set = sign_pin(node, plus);
    if some {
        some_rule(alloc, sets, fair, set, &node.ranks)
    } else {
        every_rule(alloc, sets, fair, set, &node.ranks)
    }
}
