//! The pass over items.

ghost use Rattle.std.specs.Prelude.{◌≡◌, [], All, List, MatchResult, Some};
ghost use Rattle.kripke_model.specs.Refusing.{First, Silent};
ghost use Rattle.smv_instances.specs.Program.{Program as Plain};
ghost use Rattle.smv_instances.specs.Instances.{Scope};
ghost use Rattle.smv_instances.specs.Numbered.{scope_at};
ghost use Rattle.smv_instances.specs.Answers.{Refused};
ghost use Rattle.smv_instantiate.specs.Flattens.{Placed, all_items};
ghost use Rattle.smv_instantiate.specs.Passes.{AreTables, IsPassed, HasTerm, PassesAll, placed};
ghost use Rattle.smv_instantiate.specs.Refuses.{item as item_rule};

use crate::checks::check_item;
use crate::items::{Item, items_of};
use crate::totals::{Totals, no_totals};
use kripke_model::refusals::FlatRefusal;
use smv_instances::Instances;
use smv_names::Paths;
use std::alloc::Global;

/// Goes over the items of an instance.
fn check_body<'p>(
    alloc: Global,
    instances: &Instances<'p>,
    paths: &Paths<'p>,
    firsts: &[Option<u32>],
    i: usize,
    items: &[Item<'p>],
    totals: &Totals,
) -> Result<Totals, FlatRefusal>
    requires { (p : Plain) × (s : Scope) × (before : List Placed)
        × AreTables p instances.now paths.now firsts.now × (scope_at p i ≡ Some s)
        × IsPassed p before totals.now }
    ensures { (p : Plain) (s : Scope) (before : List Placed)
        → AreTables p instances.now paths.now firsts.now → scope_at p i ≡ Some s
        → IsPassed p before totals.now → PassesAll p before (placed s items.now) result }
{
    let mut so_far = *totals;
    for item in items {
        so_far = check_item(alloc, instances, paths, firsts, i, item, &so_far)?;
    }
    Ok(so_far)
}

/// Goes over the items of all instances.
pub fn check_items<'p>(
    alloc: Global,
    instances: &Instances<'p>,
    paths: &Paths<'p>,
    firsts: &[Option<u32>],
) -> Result<(), FlatRefusal>
    requires { (p : Plain) × AreTables p instances.now paths.now firsts.now }
    ensures { (p : Plain) → AreTables p instances.now paths.now firsts.now
        → MatchResult result (λ _. All (HasTerm p) (all_items p)
        × Silent (First (item_rule p) [] (all_items p)))
        (Refused (First (item_rule p) [] (all_items p))) }
{
    let mut totals = no_totals();
    for i in 0..instances.len() {
        let items = items_of(alloc, instances.module(i))?;
        totals = check_body(alloc, instances, paths, firsts, i, &items, &totals)?;
    }
    Ok(())
}
