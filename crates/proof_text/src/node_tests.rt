//! Whether a node keeps the rules.

ghost use Rattle.std.specs.Prelude.{◌≡◌, ◌+◌, ◌↔◌, ◌++◌, ◌∷◌, [], length, IfOk, IsTrue, MatchBool, Contains};
ghost use Rattle.bdd_nodes.specs.Table.{IsGoodNode, level_of};

use bdd_nodes::Triple;
use indexmap::IndexSet;
use std::alloc::AllocError;

/// The level of a number: that of its triple, and for a constant the number of levels.
fn level_of(levels: u32, nodes: &[Triple], number: u32) -> u32
    ensures { result ≡ level_of levels nodes.now number }
{
    if number < 2 {
        return levels;
    }
    match nodes.get(number as usize - 2) {
        Some(node) => node.level,
        None => levels,
    }
}

/// Whether the node is a good one behind these.
pub(crate) fn is_good(levels: u32, nodes: &[Triple], node: &Triple) -> bool
    ensures { IsTrue result ↔ IsGoodNode levels nodes.now (length nodes.now + 2) node.now }
{
    let number = nodes.len() as u64 + 2;
    node.level < levels
        && node.level < level_of(levels, nodes, node.low)
        && node.level < level_of(levels, nodes, node.high)
        && u64::from(node.low) < number
        && u64::from(node.high) < number
        && node.low != node.high
}

/// Adds a node, and says whether it is none of the earlier ones.
pub(crate) fn is_new(nodes: &mut IndexSet<Triple>, node: Triple) -> Result<bool, AllocError>
    ensures { IfOk result (λ yes. MatchBool yes ((nodes.new.keys ≡ nodes.old.keys ++ node ∷ [])
        × (Contains nodes.old.keys node → ⊥)) (Contains nodes.old.keys node)) }
{
    let yes = nodes.insert(node)?;
    Ok(yes)
}
