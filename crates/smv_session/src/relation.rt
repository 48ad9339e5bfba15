// The transition relation of a model within a node limit, or why there is none.
ghost use Rattle.std.specs.Prelude.{◌≡◌, ◌<◌, ◌≤◌, ◌^◌, IfErr, IfOk, MatchOption, OnOk};
ghost use Rattle.bit_encode.specs.Code.{state_bits};
ghost use Rattle.kripke_model.specs.Faults.{IsFaultless};
ghost use Rattle.smv_session.specs.Relation.{AreOver, IsNotBuilt, Stops};
ghost use Rattle.smv_session.specs.Source.{most_state_bits};
ghost use Rattle.smv_texts.specs.Evidence.{IsMet};
ghost use Rattle.bdd_nodes.specs.Steps.{IsBlankOf};

use bdd_nodes::{Held, Steps};
use bit_encode::orders::declared_order;
use kripke_model::models::Ruled;
use smv_texts::ItemFault;
use std::alloc::{AllocError, Global};
use std::marker::Brand;
use std::sync::ledger::{Blank, Ledger};
use trans_parts::{BuildRefusal, Parts};

/// How many answers of operations are remembered.
const REMEMBERED: u32 = 65_536;

/// Why a model is not taken.
#[derive(Drop)]
pub(crate) enum Stop {
    /// Its states have more bits than a state may have.
    TooManyBits { bits: u32 },
    /// An item faults.
    Fault(ItemFault),
    Memory,
}

impl From<AllocError> for Stop {
    ghost use Rattle.std.specs.Prelude.{◌≡◌};
    ghost use Rattle.smv_session.specs.declared.relation.Stop.TheVariants.{Memory};

    ghost from_gives = { λ _ e. e ≡ Memory };

    fn from(_: AllocError) -> Self {
        Stop::Memory
    }
}

/// The transition relation of the model, with the variables in declared order.
fn relation_in_steps<L: Ledger>(
    alloc: Global,
    model: &Ruled,
    limit: u32,
    blank: Blank,
) -> Result<Parts, BuildRefusal>
    requires blank { IsBlankOf L.name L.parts blank }
    requires limit { limit < 2 ^ 31 }
    ensures parts { IfOk result (AreOver model.now limit) }
    ensures few { OnOk result (state_bits model.now ≤ most_state_bits) }
    ensures faultless { OnOk result (IsFaultless model.now) }
    ensures refused { IfErr result (IsNotBuilt model.now limit) }
{
    model.rules_law();
    let Ok(order) = declared_order(alloc, model.vars().len()) else {
        return Err(BuildRefusal::Memory);
    };
    let Ok(copy) = model.copy(alloc) else {
        return Err(BuildRefusal::Memory);
    };
    let mut steps = Steps::<L>::new(blank);
    Parts::build(alloc, copy, &order, limit, REMEMBERED, &mut steps)
}

/// The same, where the steps are not counted.
pub(crate) fn relation(alloc: Global, model: &Ruled, limit: u32) -> Result<Parts, BuildRefusal>
    requires { limit < 2 ^ 31 }
    ensures parts { IfOk result (AreOver model.now limit) }
    ensures few { OnOk result (state_bits model.now ≤ most_state_bits) }
    ensures faultless { OnOk result (IsFaultless model.now) }
    ensures refused { IfErr result (IsNotBuilt model.now limit) }
{
    relation_in_steps::<Brand>(alloc, model, limit, Blank::new(1))
}

/// Why there is no relation: a store was full, or the model is not taken.
pub(crate) fn held_of(model: &Ruled, limit: u32, refusal: BuildRefusal) -> Result<Held, Stop>
    requires { IsNotBuilt model.now limit refusal }
    ensures few { OnOk result (state_bits model.now ≤ most_state_bits) }
    ensures held { IfOk result (IsMet model.now limit) }
    ensures stops { IfErr result (Stops model.now) }
{
    match refusal {
        BuildRefusal::Full { held } => Ok(held),
        BuildRefusal::TooManyBits { bits } => Err(Stop::TooManyBits { bits }),
        BuildRefusal::Fault(fault) => Err(Stop::Fault(ItemFault {
            kind: fault.kind,
            line: fault.line,
            here: fault.here,
            after: fault.after,
        })),
        BuildRefusal::BadOrder => unreachable!(),
        BuildRefusal::Memory => Err(Stop::Memory),
    }
}
