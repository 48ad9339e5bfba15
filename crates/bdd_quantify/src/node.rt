ghost use Rattle.std.specs.Prelude.{◌≡◌, ◌<◌, Some, IfSome, IfNone, true, false, min};
ghost use Rattle.bdd_nodes.specs.Store.{Has, node_of, triple, triples, level_of};
ghost use Rattle.bdd_ops.specs.Operation.{part_of};

use bdd_nodes::{Ref, Store};

/// A decision node with its children as diagrams.
#[derive(Clone, Copy)]
pub(crate) struct Node {
    pub(crate) level: u32,
    pub(crate) low: Ref,
    pub(crate) high: Ref,
}

/// The decision node of a diagram, which the constants alone lack.
pub(crate) fn node_at(store: &Store, f: Ref) -> Option<Node>
    requires { Has store.now f }
    ensures some { IfSome result (λ n. node_of store.now f ≡ Some (triple n.level n.low n.high)) }
    ensures none { IfNone result (f < 2) }
{
    match store.node(f) {
        Some(triple) => Some(Node {
            level: triple.level,
            low: triple.child(false),
            high: triple.child(true),
        }),
        None => None,
    }
}
