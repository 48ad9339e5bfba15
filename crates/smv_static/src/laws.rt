//! Laws of the static rules, for the layers above.

ghost use Rattle.std.specs.Prelude.{◌≡◌};
ghost use Rattle.kripke_model.specs.Static.{Breaks};
ghost use Rattle.kripke_model.specs.System.{System};
ghost use Rattle.kripke_model.specs.declared.refusals.StaticRefusal.{StaticRefusal};

/// A flat model is refused for one reason at most.
pub fn one_refusal()
    ensures { (m : System) (r q : StaticRefusal) → Breaks m r → Breaks m q → r ≡ q }
{}
