//! What the lines of entries are tested with.

ghost use Rattle.std.specs.Prelude.{◌≡◌, ◌≤◌};
ghost use Rattle.kripke_model.specs.Signs.{rule_of};
ghost use Rattle.claim_sets.specs.ConstraintClaims.{constraints_count};
ghost use Rattle.proof_lines.specs.Frames.{absent_pin};

use claim_sets::constraint_pins::Constraints;
use kripke_model::expressions::PathOp;
use region_sets::Pin;

/// The sets and the constraints that the lines of all entries share.
#[derive(Drop)]
pub struct Frame<'a> {
    /// All states.
    pub full: &'a Pin,
    /// No state.
    pub empty: &'a Pin,
    /// The states where fair paths are claimed to begin.
    pub fair: &'a Pin,
    /// The states of all layers in which no fair path begins.
    pub nonfair: &'a Pin,
    pub constraints: Constraints<'a>,
}

/// The set of the first argument of an operator that has one argument alone, by which its sign is claimed.
pub fn absent<'a>(frame: &Frame<'a>, op: PathOp, sign: bool) -> &'a Pin
    ensures { result.now ≡ absent_pin frame.now (rule_of op sign) }
{
    let until = match op {
        PathOp::EX | PathOp::AX => false,
        PathOp::EF | PathOp::AF => sign,
        PathOp::EG | PathOp::AG => !sign,
    };
    if until { frame.full } else { frame.empty }
}

/// The law that constraints can be counted by 32 bits.
pub fn few_law(constraints: &Constraints<'_>)
    ensures { constraints_count constraints.now ≤ 4294967295 }
{
    match constraints {
        Constraints::All => {}
        Constraints::Model(model, _) => model.rules_law(),
    }
}
