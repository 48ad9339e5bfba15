//! A law of answers. The function computes nothing: its contract is the law.

ghost use Rattle.std.specs.Prelude.{◌≡◌, ◌≤◌, Bool, List, length};
ghost use Rattle.bdd_nodes.specs.Store.{triples, Has, value_of};
ghost use Rattle.bdd_ops.specs.Engine.{store_of, lists_of};
ghost use Rattle.bdd_ops.specs.Answer.{meaning_of, key_highest, lists_named, IsAnswer};
ghost use Rattle.bdd_ops.specs.Independence.{DependsOnMoved};

use crate::{Engine, Key};
use bdd_nodes::Ref;

/// A diagram that has the value of a key's operation at every list of bits is the key's answer: it
/// lies at the key's level or deeper, since a reduced diagram depends on its own level (Bryant). An
/// operand whose even levels move to the next ones depends on even levels alone.
pub fn answer_law(engine: &Engine, key: Key, answer: Ref)
    requires operands { Has (store_of engine.now) (key_highest key) }
    requires listed { lists_named key ≤ length (lists_of engine.now) }
    requires has { Has (store_of engine.now) answer }
    requires value { (bits : List Bool) → value_of (store_of engine.now) answer bits
        ≡ meaning_of (lists_of engine.now) (triples (store_of engine.now)) key bits }
    requires moved { DependsOnMoved (store_of engine.now) key }
    ensures { IsAnswer (store_of engine.now) (lists_of engine.now) key answer }
{}
