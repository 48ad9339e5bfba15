ghost use Rattle.std.specs.Prelude.{◌≡◌};
ghost use Rattle.bdd_ops.specs.Engine.{capacity_of, refused_of};

use bdd_nodes::{Ref, StoreRefusal};
use bdd_ops::Engine;

/// What `make` answers; where a condition of it fails, `Memory`.
pub(crate) fn made(
    engine: &mut Engine,
    level: u32,
    low: Ref,
    high: Ref,
) -> Result<Ref, StoreRefusal>
    ensures capacity { capacity_of engine.new ≡ capacity_of engine.old }
    ensures refused { refused_of engine.new ≡ refused_of engine.old }
{
    let store = engine.store();
    let there = store.has(low) && store.has(high) && level < store.levels();
    if there && level < store.level(low) && level < store.level(high) {
        engine.make(level, low, high)
    } else {
        Err(StoreRefusal::Memory)
    }
}
