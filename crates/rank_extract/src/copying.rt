//! Copies of the sets of a run. On a refusal the copies that were made are released.

ghost use Rattle.std.specs.Prelude.{◌∷◌, [], map};
ghost use Rattle.region_sets.specs.Sets.{IsLive, region};
ghost use Rattle.region_sets.specs.Ranks.{AreLive, slots, regions, lists_slots, list_regions};
ghost use Rattle.fair_fixpoint.specs.Runs.{layer_view, layer_views, layers_slots};
ghost use Rattle.rank_extract.specs.Given.{written_layer};
ghost use Rattle.rank_extract.specs.Made.{AreAdded, IsMade, pin_own, one, list_own, list_seen, lists_own, lists_seen, many, total, layer_own, layer_seen, layers_own, layers_seen, fair_of, fair_own, fair_seen, fair_size};

use fair_fixpoint::runs::RunLayer;
use proof_form::form::{FairPart, Layer};
use proof_form::releasing::release_layers;
use region_sets::{Pin, SetRefusal, StateSets, release_all, release_lists};
use std::alloc::{AllocFailed, Global};

/// Adds a copy of the set.
fn add_copy<S: StateSets>(sets: &mut S, set: &Pin, copies: &mut Vec<Pin>) -> Result<(), SetRefusal>
    requires { IsLive (S.seen sets.old) set.now.slot }
    ensures { AreAdded pin_own region one (S.seen sets.old) (S.seen sets.new)
        (region (S.seen sets.old) set.now ∷ []) copies.old.items copies.new.items result }
{
    let copy = sets.copy(set)?;
    match copies.push(copy) {
        Ok(()) => Ok(()),
        Err(failed) => {
            let AllocFailed { value } = failed;
            sets.release(value);
            Err(SetRefusal::Memory)
        }
    }
}

/// Adds a copy of each set.
fn add_copies<S: StateSets>(
    sets: &mut S,
    list: &[Pin],
    copies: &mut Vec<Pin>,
) -> Result<(), SetRefusal>
    requires { AreLive (S.seen sets.old) (slots list.now) }
    ensures { AreAdded pin_own region one (S.seen sets.old) (S.seen sets.new)
        (regions (S.seen sets.old) list.now) copies.old.items copies.new.items result }
{
    for k in 0..list.len() {
        add_copy(sets, &list[k], copies)?;
    }
    Ok(())
}

/// A copy of each set, in order.
pub fn copy_list<S: StateSets>(
    alloc: Global,
    sets: &mut S,
    list: &[Pin],
) -> Result<Vec<Pin>, SetRefusal>
    requires { AreLive (S.seen sets.old) (slots list.now) }
    ensures { IsMade list_own list_seen many (S.seen sets.old) (S.seen sets.new)
        (regions (S.seen sets.old) list.now) result }
{
    let mut copies = Vec::new(alloc);
    match add_copies(sets, list, &mut copies) {
        Ok(()) => Ok(copies),
        Err(refusal) => {
            release_all(sets, copies);
            Err(refusal)
        }
    }
}

/// Adds a copy of the list.
fn add_list<S: StateSets>(
    alloc: Global,
    sets: &mut S,
    list: &[Pin],
    copies: &mut Vec<Vec<Pin>>,
) -> Result<(), SetRefusal>
    requires { AreLive (S.seen sets.old) (slots list.now) }
    ensures { AreAdded list_own list_seen many (S.seen sets.old) (S.seen sets.new)
        (regions (S.seen sets.old) list.now ∷ []) copies.old.items copies.new.items result }
{
    let copy = copy_list(alloc, sets, list)?;
    match copies.push(copy) {
        Ok(()) => Ok(()),
        Err(failed) => {
            let AllocFailed { value } = failed;
            release_all(sets, value);
            Err(SetRefusal::Memory)
        }
    }
}

/// Adds a copy of each list.
fn add_lists<S: StateSets>(
    alloc: Global,
    sets: &mut S,
    lists: &[Vec<Pin>],
    copies: &mut Vec<Vec<Pin>>,
) -> Result<(), SetRefusal>
    requires { AreLive (S.seen sets.old) (lists_slots lists.now) }
    ensures { AreAdded list_own list_seen many (S.seen sets.old) (S.seen sets.new)
        (list_regions (S.seen sets.old) lists.now) copies.old.items copies.new.items result }
{
    for k in 0..lists.len() {
        add_list(alloc, sets, &lists[k], copies)?;
    }
    Ok(())
}

/// A copy of each list, in order.
pub fn copy_lists<S: StateSets>(
    alloc: Global,
    sets: &mut S,
    lists: &[Vec<Pin>],
) -> Result<Vec<Vec<Pin>>, SetRefusal>
    requires { AreLive (S.seen sets.old) (lists_slots lists.now) }
    ensures { IsMade lists_own lists_seen (total many) (S.seen sets.old) (S.seen sets.new)
        (list_regions (S.seen sets.old) lists.now) result }
{
    let mut copies = Vec::new(alloc);
    match add_lists(alloc, sets, lists, &mut copies) {
        Ok(()) => Ok(copies),
        Err(refusal) => {
            release_lists(sets, copies);
            Err(refusal)
        }
    }
}

/// Adds a copy of the layer.
fn add_layer<S: StateSets>(
    sets: &mut S,
    layer: &RunLayer,
    copies: &mut Vec<Layer<Pin>>,
) -> Result<(), SetRefusal>
    requires { IsLive (S.seen sets.old) layer.now.set.slot }
    ensures { AreAdded layer_own layer_seen one (S.seen sets.old) (S.seen sets.new)
        (written_layer (layer_view (S.seen sets.old) layer.now) ∷ []) copies.old.items
        copies.new.items result }
{
    let set = sets.copy(&layer.set)?;
    match copies.push(Layer {
        avoid: layer.avoid,
        set,
    }) {
        Ok(()) => Ok(()),
        Err(failed) => {
            let AllocFailed { value } = failed;
            let Layer { avoid: _, set } = value;
            sets.release(set);
            Err(SetRefusal::Memory)
        }
    }
}

/// Adds a copy of each layer.
fn add_layers<S: StateSets>(
    sets: &mut S,
    layers: &[RunLayer],
    copies: &mut Vec<Layer<Pin>>,
) -> Result<(), SetRefusal>
    requires { AreLive (S.seen sets.old) (layers_slots layers.now) }
    ensures { AreAdded layer_own layer_seen one (S.seen sets.old) (S.seen sets.new)
        (map written_layer (layer_views (S.seen sets.old) layers.now)) copies.old.items
        copies.new.items result }
{
    for k in 0..layers.len() {
        add_layer(sets, &layers[k], copies)?;
    }
    Ok(())
}

/// A copy of each layer, in order.
pub fn copy_layers<S: StateSets>(
    alloc: Global,
    sets: &mut S,
    layers: &[RunLayer],
) -> Result<Vec<Layer<Pin>>, SetRefusal>
    requires { AreLive (S.seen sets.old) (layers_slots layers.now) }
    ensures { IsMade layers_own layers_seen many (S.seen sets.old) (S.seen sets.new)
        (map written_layer (layer_views (S.seen sets.old) layers.now)) result }
{
    let mut copies = Vec::new(alloc);
    match add_layers(sets, layers, &mut copies) {
        Ok(()) => Ok(copies),
        Err(refusal) => {
            release_layers(sets, copies);
            Err(refusal)
        }
    }
}

/// A copy of a fair set and of its reach sets.
pub fn copy_fair<S: StateSets>(
    alloc: Global,
    sets: &mut S,
    inside: &Pin,
    reach: &[Vec<Pin>],
) -> Result<FairPart<Pin>, SetRefusal>
    requires inside { IsLive (S.seen sets.old) inside.now.slot }
    requires reach { AreLive (S.seen sets.old) (lists_slots reach.now) }
    ensures { IsMade fair_own fair_seen fair_size (S.seen sets.old) (S.seen sets.new)
        (fair_of (region (S.seen sets.old) inside.now) (list_regions (S.seen sets.old) reach.now))
        result }
{
    let inside = sets.copy(inside)?;
    match copy_lists(alloc, sets, reach) {
        Ok(reach) => Ok(FairPart { inside, reach }),
        Err(refusal) => {
            sets.release(inside);
            Err(refusal)
        }
    }
}
