ghost use Rattle.std.specs.Prelude.{◌≡◌, ◌≤◌, IfSome, MatchOption};
ghost use Rattle.bdd_nodes.specs.Store.{Has};
ghost use Rattle.bdd_ops.specs.Engine.{store_of, capacity_of, lists_of, refused_of};
ghost use Rattle.bdd_ops.specs.Answer.{list_at};
ghost use Rattle.bdd_quantify.specs.Product.{IsProduct, IsEntry, key_of};

use bdd_nodes::Ref;
use bdd_ops::laws::answer_law;
use bdd_ops::{Engine, Key};

/// The key of a conjunction with the levels of a list quantified. A true operand is left out, so
/// that `exists` and `and_exists` share their entries.
fn key(f: Ref, g: Ref, place: u32) -> Key
    ensures { result ≡ key_of f g place }
{
    if g == Ref::TRUE {
        Key::Exists(f, place)
    } else if f == Ref::TRUE {
        Key::Exists(g, place)
    } else {
        Key::AndExists(f, g, place)
    }
}

/// The remembered diagram. Nothing is remembered of a list that found no place.
pub(crate) fn remembered(engine: &mut Engine, f: Ref, g: Ref, place: Option<u32>) -> Option<Ref>
    requires f { Has (store_of engine.old) f }
    requires g { Has (store_of engine.old) g }
    ensures answer { IfSome result
        (λ r. MatchOption place ⊥
        (λ p. IsProduct (store_of engine.new) (list_at (lists_of engine.new) p) f g r)) }
    ensures store { store_of engine.new ≡ store_of engine.old }
    ensures lists { lists_of engine.new ≡ lists_of engine.old }
    ensures capacity { capacity_of engine.new ≡ capacity_of engine.old }
    ensures refused { refused_of engine.new ≡ refused_of engine.old }
{
    match place {
        Some(place) => engine.recall(key(f, g, place)),
        None => None,
    }
}

/// Remembers a diagram, unless its list found no place or the entry finds no memory.
#[inline(always)]
pub(crate) fn remember(engine: &mut Engine, f: Ref, g: Ref, place: Option<u32>, answer: Ref)
    requires { IfSome place (IsEntry (store_of engine.old) (lists_of engine.old) f g answer) }
    ensures store { store_of engine.new ≡ store_of engine.old }
    ensures lists { lists_of engine.new ≡ lists_of engine.old }
    ensures capacity { capacity_of engine.new ≡ capacity_of engine.old }
    ensures refused { refused_of engine.old ≤ refused_of engine.new }
{
    if let Some(place) = place {
        answer_law(engine, key(f, g, place), answer);
        engine.remember(key(f, g, place), answer);
    }
}
