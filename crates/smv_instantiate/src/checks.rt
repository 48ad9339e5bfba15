//! What one item is refused for.

ghost use Rattle.std.specs.Prelude.{◌≡◌, ℕ, List, MatchResult, Some};
ghost use Rattle.kripke_model.specs.Refusing.{Silent};
ghost use Rattle.smv_instances.specs.Program.{Program as Plain};
ghost use Rattle.smv_instances.specs.Instances.{Scope};
ghost use Rattle.smv_instances.specs.Numbered.{scope_at};
ghost use Rattle.smv_instances.specs.Answers.{Refused};
ghost use Rattle.smv_names.specs.Abbreviations.{path_rows};
ghost use Rattle.smv_names.specs.Expands.{Selects};
ghost use Rattle.smv_names.specs.Sound.{AreSound};
ghost use Rattle.smv_names.specs.Written.{plain_path};
ghost use Rattle.smv_instantiate.specs.Flattens.{Placed};
ghost use Rattle.smv_instantiate.specs.Items.{item_mentions, plain_item};
ghost use Rattle.smv_instantiate.specs.Passes.{AreCounts, AreTables, CountsItem, HasTables, IsPassed, PassesItem, left_row};

use crate::expansion::selected;
use crate::items::{Item, mentions_of};
use crate::totals::{Totals, add_size, count_condition};
use kripke_model::refusals::FlatRefusal;
use smv_instances::Instances;
use smv_names::Paths;
use smv_names::checks::check_paths;
use smv_names::measures::size;
use smv_parser::Left;
use std::alloc::Global;

/// Refuses an item for its paths.
fn check_item_paths<'p>(
    alloc: Global,
    instances: &Instances<'p>,
    paths: &Paths<'p>,
    firsts: &[Option<u32>],
    i: usize,
    item: &Item<'p>,
) -> Result<(), FlatRefusal>
    requires { HasTables instances.now paths.now firsts.now i }
    ensures { (p : Plain) (s : Scope) → AreTables p instances.now paths.now firsts.now
        → scope_at p i ≡ Some s
        → MatchResult result (λ _. AreSound p s (item_mentions (plain_item item.now))
        × Silent (path_rows p s (item_mentions (plain_item item.now))))
        (Refused (path_rows p s (item_mentions (plain_item item.now)))) }
{
    let mentions = mentions_of(alloc, item)?;
    check_paths(
        alloc,
        instances,
        &paths.targets,
        &paths.numbers,
        i,
        &mentions,
    )
}

/// Refuses a left side that selects no flat variable.
fn check_left<'p>(
    alloc: Global,
    instances: &Instances<'p>,
    paths: &Paths<'p>,
    firsts: &[Option<u32>],
    i: usize,
    left: &'p Left,
) -> Result<(), FlatRefusal>
    requires { HasTables instances.now paths.now firsts.now i }
    ensures { (p : Plain) (s : Scope) → AreTables p instances.now paths.now firsts.now
        → scope_at p i ≡ Some s
        → MatchResult result (λ _. ((x : ℕ) × Selects p s (plain_path left.now.path) x)
        × Silent (left_row p s (plain_path left.now.path) left.now.line))
        (Refused (left_row p s (plain_path left.now.path) left.now.line)) }
{
    match selected(alloc, instances, paths, firsts, i, &left.path)? {
        Some(_) => Ok(()),
        None => Err(FlatRefusal::NotAssignable { line: left.line }),
    }
}

/// Refuses an assignment for its left side, or a condition for the count of its kind.
fn count_item<'p>(
    alloc: Global,
    instances: &Instances<'p>,
    paths: &Paths<'p>,
    firsts: &[Option<u32>],
    i: usize,
    item: &Item<'p>,
    totals: &Totals,
) -> Result<Totals, FlatRefusal>
    requires { HasTables instances.now paths.now firsts.now i }
    ensures { (p : Plain) (s : Scope) (before : List Placed)
        → AreTables p instances.now paths.now firsts.now → scope_at p i ≡ Some s
        → AreCounts totals.now before → CountsItem p before s (plain_item item.now) totals.now
        result }
{
    match item {
        Item::Assigns(assignment) => {
            check_left(alloc, instances, paths, firsts, i, &assignment.left)?;
            Ok(*totals)
        }
        Item::States { condition, .. } => count_condition(*condition, item.line(), totals),
    }
}

/// Goes over one item: counts it, or refuses it.
pub fn check_item<'p>(
    alloc: Global,
    instances: &Instances<'p>,
    paths: &Paths<'p>,
    firsts: &[Option<u32>],
    i: usize,
    item: &Item<'p>,
    totals: &Totals,
) -> Result<Totals, FlatRefusal>
    requires { (p : Plain) × (s : Scope) × (before : List Placed)
        × AreTables p instances.now paths.now firsts.now × (scope_at p i ≡ Some s)
        × IsPassed p before totals.now }
    ensures { (p : Plain) (s : Scope) (before : List Placed)
        → AreTables p instances.now paths.now firsts.now → scope_at p i ≡ Some s
        → IsPassed p before totals.now → PassesItem p before (s, plain_item item.now) result }
{
    check_item_paths(alloc, instances, paths, firsts, i, item)?;
    let counted = count_item(alloc, instances, paths, firsts, i, item, totals)?;
    let measured = size(
        alloc,
        instances,
        &paths.targets,
        &paths.sizes,
        i,
        item.right(),
    )?;
    add_size(item.line(), measured, &counted)
}
