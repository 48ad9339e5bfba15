//! Laws of diagrams, each as the contract of a function that does nothing.
ghost use Rattle.std.specs.Prelude.{◌≡◌, ℕ, ◌<◌, Bool, List, Some, true, false, slice_set};
ghost use Rattle.bdd_nodes.specs.Table.{child_of};
ghost use Rattle.bdd_nodes.specs.declared.triple.Triple.{Triple as Triples};
ghost use Rattle.bdd_nodes.specs.Store.{Has, HaveSameValues, node_of, level_of, value_of};

use crate::{Ref, Store};

/// Canonicity (Bryant): a store has one diagram for each function of the levels' bits.
pub fn canonical(store: &Store, r: Ref, q: Ref)
    requires has_r { Has store.now r }
    requires has_q { Has store.now q }
    requires same { HaveSameValues store.now r q }
    ensures { r ≡ q }
{}

/// Each store has the two constants, and their values are false and true at every list of bits.
pub fn constants(store: &Store)
    ensures has { Has store.now 1 }
    ensures always_false { (bits : List Bool) → value_of store.now 0 bits ≡ false }
    ensures always_true { (bits : List Bool) → value_of store.now 1 bits ≡ true }
{}

/// Shannon's expansion: a diagram with a triple has the value of the child that its level's bit
/// chooses.
pub fn expansion(store: &Store, r: Ref)
    ensures { (t : Triples) → node_of store.now r ≡ Some t → (bits : List Bool)
        → value_of store.now r bits ≡ value_of store.now (child_of bits t) bits }
{}

/// A value doesn't depend on the bits above the diagram's own level.
pub fn independence(store: &Store, r: Ref)
    requires { Has store.now r }
    ensures { (l : ℕ) (bit : Bool) (bits : List Bool) → l < level_of store.now r
        → value_of store.now r (slice_set bits l bit) ≡ value_of store.now r bits }
{}
