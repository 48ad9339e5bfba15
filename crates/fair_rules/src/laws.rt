//! Laws of the definitions. The functions compute nothing.

ghost use Rattle.std.specs.Prelude.{IfSome, IsSome};
ghost use Rattle.fair_rules.specs.Laws.{AreModelSets, BlocksSound, ClaimsSound, FairSetExact, FairSetSound, FalsifiedFalse, FreeProofsSound, NonfairSound, ProofsExact, ProofsSound};
ghost use Rattle.fair_rules.specs.LeafConstraints.{avoided_sets, visited_sets};
ghost use Rattle.fair_rules.specs.Nodes.{node_at};
ghost use Rattle.fair_rules.specs.WalkConditions.{AgreesWith};
ghost use Rattle.kripke_model.specs.Leaves.{HasLeafConstraints};
ghost use Rattle.kripke_model.specs.WellFormed.{ctl_of};
ghost use Rattle.kripke_model.specs.Walk.{IsFairWalk};

use kripke_model::expressions::Formula;
use kripke_model::models::Ruled;
use kripke_model::walks::Walk;

/// Nonfair layers and fair sets are what they are called.
pub fn fairness_law(model: &Ruled)
    ensures nonfair { NonfairSound model.now }
    ensures fair { FairSetSound model.now }
    ensures exact { FairSetExact model.now }
{}

/// The rules prove what they claim.
pub fn proof_law(model: &Ruled)
    ensures sets { ProofsSound model.now }
    ensures claims { ClaimsSound model.now }
    ensures exact { ProofsExact model.now }
{}

/// A block whose lines hold proves its claim.
pub fn block_law(model: &Ruled)
    ensures { BlocksSound model.now }
{}

/// Constraints without path operators have sets to visit and to avoid.
pub fn leaf_constraint_law(model: &Ruled)
    requires { HasLeafConstraints model.now }
    ensures { AreModelSets model.now (visited_sets model.now) (avoided_sets model.now) }
{}

/// Proofs of constraints that are formulas give the sets by which all others are proved.
pub fn free_part_law(model: &Ruled)
    ensures { FreeProofsSound model.now }
{}

/// A falsifying fair path shows that the formula is false.
pub fn falsified_law(model: &Ruled)
    ensures { FalsifiedFalse model.now }
{}

/// Truth over fair lassos is truth over all fair walks, at each node, counted from 1.
pub fn walk_law<W: Walk>(model: &Ruled, formula: &Formula, node: u32, walk: &W)
    requires there { IsSome (node_at (ctl_of formula.now) 1 node) }
    requires walk { IsFairWalk model.now (W.at walk.now) }
    ensures { IfSome (node_at (ctl_of formula.now) 1 node)
        (λ f. AgreesWith model.now f (W.at walk.now)) }
{}
