//! Laws of the definitions of states, paths and truth.

ghost use Rattle.std.specs.Prelude.{◌≡◌, length};
ghost use Rattle.path_laws.specs.Laws.{InvariantDecided, InvariantExact, RunsExtend, StatesRepeat};
ghost use Rattle.path_laws.specs.Live.{IsLive};

use kripke_model::models::Ruled;

/// A long sequence of states shows one of them twice (the pigeonhole on states).
pub fn states_repeat_law(model: &Ruled)
    ensures repeat { StatesRepeat model.now }
{}

/// Without constraints, where every state has a next one, each finite run begins a fair path.
pub fn runs_extend_law(model: &Ruled)
    requires none { length model.now.constraints ≡ 0 }
    requires live { IsLive model.now }
    ensures extend { RunsExtend model.now }
{}

/// Without constraints, where every state has a next one, the backward reach of an expression's violations
/// decides the invariant (`AG` of the expression), at each state and of the model (Clarke, Grumberg, Peled).
pub fn invariant_law(model: &Ruled)
    requires none { length model.now.constraints ≡ 0 }
    requires live { IsLive model.now }
    ensures exact { InvariantExact model.now }
    ensures decided { InvariantDecided model.now }
{}
