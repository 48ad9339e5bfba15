//! The sets over a transition relation that one test leaves for the next.

ghost use Rattle.std.specs.Prelude.{◌≡◌, ◌≤◌, ◌<◌, ◌^◌, ℕ, true, IfErr, IfOk, List, length};
ghost use Rattle.bdd_nodes.specs.Store.{limit_of};
ghost use Rattle.bit_encode.specs.Code.{IsOrder, declared, state_bits};
ghost use Rattle.kripke_model.specs.Faults.{IsFaultless};
ghost use Rattle.kripke_model.specs.System.{System};
ghost use Rattle.trans_parts.specs.Parts.{coding_of, model_of, store_of};
ghost use Rattle.proof_checker.specs.NoRoom.{IsNoRoom};
ghost use Rattle.proof_checker.specs.Ready.{IsClear, IsKept, IsReady};

use crate::relation::relation;
use diagram_sets::DiagramSets;
use kripke_model::models::Ruled;
use region_sets::SetRefusal;
use std::alloc::Global;
use trans_parts::Parts;

/// The transition relation with its store, as the last test left it. There is none before the first
/// test, nor after one that found no room.
#[derive(Drop)]
pub struct KeptSets {
    pub(crate) sets: Option<DiagramSets>,
}

impl KeptSets {
    /// None yet.
    pub fn new() -> KeptSets
        ensures { (m : System) (order : List ℕ) (limit : ℕ) → IsKept m order limit result }
    {
        KeptSets { sets: None }
    }

    /// The sets over these parts, if the order is the one in which the variables are declared, as
    /// it is that of the parts. Else none.
    pub fn over(alloc: Global, model: &Ruled, parts: Parts, order: &[u32]) -> KeptSets
        requires model { model_of parts ≡ model.now }
        requires declared { (coding_of parts).order ≡ declared (length model.now.vars) }
        ensures { (limit : ℕ) → limit_of (store_of parts) ≡ limit
            → IsKept model.now order.now limit result }
    {
        if order.len() != model.vars().len() {
            return KeptSets::new();
        }
        if !is_declared(order) {
            return KeptSets::new();
        }
        KeptSets {
            sets: Some(DiagramSets::new(alloc, parts)),
        }
    }
}

/// Whether the numbers are 0, 1, 2 and so on, as of variables in declared order.
fn is_declared(order: &[u32]) -> bool
    ensures { result ≡ true → order.now ≡ declared (length order.now) }
{
    for place in 0..order.len() {
        if order[place] as usize != place {
            return false;
        }
    }
    true
}

/// The sets that are kept, or new ones over the relation.
pub(crate) fn take(
    alloc: Global,
    model: &Ruled,
    order: &[u32],
    limit: u32,
    kept: &mut KeptSets,
) -> Result<DiagramSets, SetRefusal>
    requires limit { limit < 2 ^ 31 }
    requires faultless { IsFaultless model.now }
    requires few { state_bits model.now ≤ 128 }
    requires ordered { IsOrder (length model.now.vars) order.now }
    requires kept { IsKept model.now order.now limit kept.old }
    ensures ready { IfOk result (IsReady model.now order.now limit) }
    ensures refused { IfErr result (IsNoRoom model.now limit 1) }
    ensures kept { IsKept model.now order.now limit kept.new }
{
    match kept.sets.take() {
        Some(sets) => Ok(sets),
        None => {
            let parts = relation(alloc, model, order, limit)?;
            Ok(DiagramSets::new(alloc, parts))
        }
    }
}

/// Keeps the sets, unless a store was full.
pub(crate) fn keep(sets: DiagramSets, kept: &mut KeptSets)
    ensures { (m : System) (order : List ℕ) (limit : ℕ) → IsClear m order limit sets
        → IsKept m order limit kept.old → IsKept m order limit kept.new }
{
    if !sets.was_full() {
        kept.sets = Some(sets);
    }
}
