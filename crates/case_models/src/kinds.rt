//! The two kinds of sets of states over a model: trees, and diagrams.

ghost use Rattle.std.specs.Prelude.{◌≡◌, ◌<◌, IfOk, length};
ghost use Rattle.bit_encode.specs.Code.{declared};
ghost use Rattle.region_sets.specs.Sets.{Sets};
ghost use Rattle.bdd_nodes.specs.Steps.{IsBlankOf};

use bdd_nodes::Steps;
use bit_encode::orders::declared_order;
use diagram_sets::DiagramSets;
use kripke_model::models::Ruled;
use region_sets::StateSets;
use std::alloc::{AllocError, Global};
use std::marker::Brand;
use std::sync::ledger::{Blank, Ledger};
use trans_parts::{BuildRefusal, Parts};
use tree_sets::TreeSets;

/// The most triples of a store.
const LIMIT: u32 = 1_000_000;

/// How many answers are remembered.
const CACHE: u32 = 65_536;

/// Sets over the parts of the model.
fn sets_over<L: Ledger>(
    alloc: Global,
    model: Ruled,
    order: &[u32],
    blank: Blank,
) -> Result<DiagramSets, BuildRefusal>
    requires blank { IsBlankOf L.name L.parts blank }
    ensures over { IfOk result (λ sets. (⟦<DiagramSets as StateSets>⟧.seen sets).over ≡ model) }
    ensures order { IfOk result (λ sets.
        (⟦<DiagramSets as StateSets>⟧.seen sets).gauge.order ≡ order.now) }
{
    let mut steps = Steps::<L>::new(blank);
    let parts = Parts::build(alloc, model, order, LIMIT, CACHE, &mut steps)?;
    Ok(DiagramSets::new(alloc, parts))
}

/// Sets as diagrams, with the variables in declared order.
pub fn diagrams(alloc: Global, model: &Ruled) -> Result<DiagramSets, BuildRefusal>
    ensures over { IfOk result (λ sets.
        (⟦<DiagramSets as StateSets>⟧.seen sets).over ≡ model.now) }
    ensures order { IfOk result (λ sets.
        (⟦<DiagramSets as StateSets>⟧.seen sets).gauge.order ≡ declared (length model.now.vars)) }
{
    model.rules_law();
    let Ok(order) = declared_order(alloc, model.vars().len()) else {
        return Err(BuildRefusal::Memory);
    };
    let Ok(copy) = model.copy(alloc) else {
        return Err(BuildRefusal::Memory);
    };
    sets_over::<Brand>(alloc, copy, &order, Blank::new(1))
}

/// Sets as trees.
pub fn trees(alloc: Global, model: &Ruled) -> Result<TreeSets, AllocError>
    ensures { IfOk result (λ sets. (⟦<TreeSets as StateSets>⟧.seen sets).over ≡ model.now) }
{
    TreeSets::new(alloc, model.copy(alloc)?)
}
