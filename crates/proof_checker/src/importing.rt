//! The sets of a proof over numbers of nodes: a pin for each number that stands in some line.

ghost use Rattle.std.specs.Prelude.{◌≡◌, ◌<◌, ◌≤◌, ◌+◌, ◌^◌, All, IfOk, length};
ghost use Rattle.bdd_nodes.specs.Table.{Has, IsGood};
ghost use Rattle.bdd_walk.specs.List.{nodes_of, roots_of, IsGoodList};
ghost use Rattle.bit_encode.specs.Code.{bit_count};
ghost use Rattle.diagram_sets.specs.Exports.{coding_in};
ghost use Rattle.diagram_sets.specs.Imports.{IsWithin};
ghost use Rattle.proof_form.specs.Form.{sets_of};
ghost use Rattle.proof_checker.specs.Imported.{AreBelow, HasPlaces, HaveNumbers, IsPlaced};
ghost use Rattle.proof_checker.specs.Imported.{seen_in};
ghost use Rattle.proof_checker.specs.ImportCalls.{HasTimes, IsImportCall};

use bdd_nodes::Triple;
use bdd_walk::NodeList;
use block_proofs::marking::mark_sets;
use block_proofs::numbered::{Numbered, marked_numbers, slots_by_number};
use diagram_sets::DiagramSets;
use proof_form::form::Proof;
use region_sets::{Pin, SetRefusal, release_all};
use std::alloc::{AllocError, Global};

/// A list of so many marks, none of which is set.
fn no_marks(alloc: Global, count: usize) -> Result<Vec<bool>, AllocError>
    ensures { IfOk result (λ marks. length marks.items ≡ count) }
{
    let mut marks = Vec::new(alloc);
    for _ in 0..count {
        marks.push(false)?;
    }
    Ok(marks)
}

/// The numbers of the proof's sets, each of which is below the end.
fn numbers_in(alloc: Global, proof: &Proof<u32>, end: usize) -> Result<Numbered, AllocError>
    requires known { All (λ number. number < end) (sets_of proof.now) }
    requires few { end < 2 ^ 32 }
    ensures below { IfOk result (AreBelow end) }
    ensures few { IfOk result (λ list. length list.numbers.items ≤ end) }
    ensures placed { IfOk result (λ list. All (IsPlaced list) (sets_of proof.now)) }
{
    let mut marks = no_marks(alloc, end)?;
    mark_sets(proof, &mut marks);
    marked_numbers(alloc, &marks)
}

/// The pins of a proof's sets.
pub(crate) struct Imported {
    /// For each number the slot of its pin.
    pub(crate) table: Vec<u64>,
    /// The pins, which stay live.
    pub(crate) pins: Vec<Pin>,
}

/// The pins of the roots, and the slot of the pin of each number with a place among them.
fn import_list(
    alloc: Global,
    sets: &mut DiagramSets,
    list: &NodeList,
    places: &[u32],
) -> Result<Imported, SetRefusal>
    requires { IsGoodList (bit_count (coding_in sets.old).types) list.now }
    ensures call { IsImportCall sets.old sets.new result }
    ensures fit { IsWithin (seen_in sets.old) list.now
        → (seen_in sets.new).fulls ≡ (seen_in sets.old).fulls }
    ensures few { IfOk result (λ made. length made.pins.items ≡ length (roots_of list.now)) }
    ensures states { IfOk result (λ made.
        HasPlaces sets.new list.now places.now made.table.items) }
{
    sets.coding_law();
    let pins = sets.import_pins(list)?;
    sets.coding_law();
    match slots_by_number(alloc, places, &pins) {
        Ok(table) => Ok(Imported { table, pins }),
        Err(_) => {
            release_all(sets, pins);
            Err(SetRefusal::Memory)
        }
    }
}

/// A pin for each number of the proof's sets.
pub(crate) fn import_numbers(
    alloc: Global,
    sets: &mut DiagramSets,
    nodes: &[Triple],
    proof: &Proof<u32>,
) -> Result<Imported, SetRefusal>
    requires good { IsGood (bit_count (coding_in sets.old).types) nodes.now }
    requires known { All (Has nodes.now) (sets_of proof.now) }
    requires few { length nodes.now + 2 < 2 ^ 32 }
    ensures call { IsImportCall sets.old sets.new result }
    ensures fit { HasTimes (length nodes.now + 2) (seen_in sets.old)
        → (seen_in sets.new).fulls ≡ (seen_in sets.old).fulls }
    ensures few { IfOk result (λ made. length made.pins.items ≤ length nodes.now + 2) }
    ensures states { IfOk result (λ made.
        HaveNumbers sets.new nodes.now made.table.items (sets_of proof.now)) }
{
    let Ok(Numbered { numbers, places }) = numbers_in(alloc, proof, nodes.len() + 2) else {
        return Err(SetRefusal::Memory);
    };
    let Ok(copy) = nodes.to_vec(alloc) else {
        return Err(SetRefusal::Memory);
    };
    let list = NodeList {
        nodes: copy,
        roots: numbers,
    };
    import_list(alloc, sets, &list, &places)
}
