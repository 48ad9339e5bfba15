//! The operations on regions, with what the engine keeps said once.

ghost use Rattle.std.specs.Prelude.{◌≡◌, ◌&&◌, ◌||◌, not, if◌then◌else◌, IfOk};
ghost use Rattle.bdd_nodes.specs.Store.{Has, value_of};
ghost use Rattle.bdd_ops.specs.Engine.{store_of};
ghost use Rattle.bdd_ops.specs.Kept.{IsRegion};
ghost use Rattle.value_tables.specs.Work.{IsWork, Spends};

use bdd_nodes::{Ref, Steps, StoreRefusal};
use bdd_ops::Engine;
use std::sync::ledger::Ledger;

/// The region where both are.
pub(crate) fn meet<L: Ledger>(
    engine: &mut Engine,
    f: Ref,
    g: Ref,
    steps: &mut Steps<L>,
) -> Result<Ref, StoreRefusal>
    requires f { Has (store_of engine.old) f }
    requires g { Has (store_of engine.old) g }
    ensures region { IfOk result (λ r. IsRegion (store_of engine.new) r
        (λ bits. value_of (store_of engine.old) f bits && value_of (store_of engine.old) g bits)) }
    ensures call { IsWork engine.old engine.new steps.old steps.new result }
    ensures spends { Spends 1 (store_of engine.old) (store_of engine.new) }
    // an operation that answers the empty region adds nothing
    ensures stays { IfOk result (λ r. r ≡ 0
        → Spends 0 (store_of engine.old) (store_of engine.new)) }
{
    engine.and(f, g, steps)
}

/// The region where one of them is.
pub(crate) fn join<L: Ledger>(
    engine: &mut Engine,
    f: Ref,
    g: Ref,
    steps: &mut Steps<L>,
) -> Result<Ref, StoreRefusal>
    requires f { Has (store_of engine.old) f }
    requires g { Has (store_of engine.old) g }
    ensures region { IfOk result (λ r. IsRegion (store_of engine.new) r
        (λ bits. value_of (store_of engine.old) f bits || value_of (store_of engine.old) g bits)) }
    ensures call { IsWork engine.old engine.new steps.old steps.new result }
    ensures spends { Spends 1 (store_of engine.old) (store_of engine.new) }
{
    engine.or(f, g, steps)
}

/// The region where it is not.
pub(crate) fn outside<L: Ledger>(
    engine: &mut Engine,
    f: Ref,
    steps: &mut Steps<L>,
) -> Result<Ref, StoreRefusal>
    requires { Has (store_of engine.old) f }
    ensures region { IfOk result (λ r. IsRegion (store_of engine.new) r
        (λ bits. not (value_of (store_of engine.old) f bits))) }
    ensures call { IsWork engine.old engine.new steps.old steps.new result }
    ensures spends { Spends 1 (store_of engine.old) (store_of engine.new) }
{
    engine.not(f, steps)
}

/// The region where both are or neither is.
pub(crate) fn alike<L: Ledger>(
    engine: &mut Engine,
    f: Ref,
    g: Ref,
    steps: &mut Steps<L>,
) -> Result<Ref, StoreRefusal>
    requires f { Has (store_of engine.old) f }
    requires g { Has (store_of engine.old) g }
    ensures region { IfOk result (λ r. IsRegion (store_of engine.new) r
        (λ bits. if value_of (store_of engine.old) f bits then value_of (store_of engine.old) g bits
        else not (value_of (store_of engine.old) g bits))) }
    ensures call { IsWork engine.old engine.new steps.old steps.new result }
    ensures spends { Spends 1 (store_of engine.old) (store_of engine.new) }
{
    engine.iff(f, g, steps)
}

/// The region where the first one is, or both others are.
pub(crate) fn join_both<L: Ledger>(
    engine: &mut Engine,
    f: Ref,
    g: Ref,
    h: Ref,
    steps: &mut Steps<L>,
) -> Result<Ref, StoreRefusal>
    requires f { Has (store_of engine.old) f }
    requires g { Has (store_of engine.old) g }
    requires h { Has (store_of engine.old) h }
    ensures region { IfOk result (λ r. IsRegion (store_of engine.new) r
        (λ bits. value_of (store_of engine.old) f bits || (value_of (store_of engine.old) g bits &&
        value_of (store_of engine.old) h bits))) }
    ensures call { IsWork engine.old engine.new steps.old steps.new result }
    ensures spends { Spends 2 (store_of engine.old) (store_of engine.new) }
{
    let both = meet(engine, g, h, steps)?;
    join(engine, f, both, steps)
}

/// The region where neither is.
pub(crate) fn neither<L: Ledger>(
    engine: &mut Engine,
    f: Ref,
    g: Ref,
    steps: &mut Steps<L>,
) -> Result<Ref, StoreRefusal>
    requires f { Has (store_of engine.old) f }
    requires g { Has (store_of engine.old) g }
    ensures region { IfOk result (λ r. IsRegion (store_of engine.new) r
        (λ bits. not (value_of (store_of engine.old) f bits || value_of (store_of engine.old) g
        bits))) }
    ensures call { IsWork engine.old engine.new steps.old steps.new result }
    ensures spends { Spends 2 (store_of engine.old) (store_of engine.new) }
{
    let either = join(engine, f, g, steps)?;
    outside(engine, either, steps)
}

/// The region where the first one is and the second one is not.
pub(crate) fn only<L: Ledger>(
    engine: &mut Engine,
    f: Ref,
    g: Ref,
    steps: &mut Steps<L>,
) -> Result<Ref, StoreRefusal>
    requires f { Has (store_of engine.old) f }
    requires g { Has (store_of engine.old) g }
    ensures region { IfOk result (λ r. IsRegion (store_of engine.new) r
        (λ bits. value_of (store_of engine.old) f bits && not (value_of (store_of engine.old) g
        bits))) }
    ensures call { IsWork engine.old engine.new steps.old steps.new result }
    ensures spends { Spends 2 (store_of engine.old) (store_of engine.new) }
{
    let rest = outside(engine, g, steps)?;
    meet(engine, f, rest, steps)
}
