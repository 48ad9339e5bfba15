//! The text of a block, from a proof over diagrams.

ghost use Rattle.std.specs.Prelude.{◌≡◌, [], IfOk, length};
ghost use Rattle.bdd_walk.specs.List.{roots_of};
ghost use Rattle.region_sets.specs.Sets.{IsCall};
ghost use Rattle.region_sets.specs.Ranks.{AreLive};
ghost use Rattle.proof_form.specs.Form.{sets_of};
ghost use Rattle.proof_form.specs.Meaning.{ProvesSpec};
ghost use Rattle.proof_form.specs.Pinned.{over_states, proof_slots};
ghost use Rattle.proof_text.specs.Written.{own_order};
ghost use Rattle.proof_export.specs.Exported.{IsBlockText};
ghost use Rattle.proof_export.specs.Listed.{IsTextOver};

use crate::listing::list_sets;
use bdd_walk::NodeList;
use diagram_sets::DiagramSets;
use kripke_model::models::Ruled;
use proof_form::form::Proof;
use proof_text::writing::write_block;
use region_sets::{Pin, SetRefusal, StateSets};
use std::alloc::{AllocError, Global};

/// The text of the block over the list's nodes, with its roots in the places of the proof's sets.
fn text_over(
    alloc: Global,
    model: &Ruled,
    spec: u32,
    proof: &Proof<Pin>,
    list: &NodeList,
) -> Result<Vec<u8>, AllocError>
    requires { length (roots_of list.now) ≡ length (sets_of proof.now) }
    ensures { IfOk result (λ text. IsTextOver model.now spec proof.now list.now text.items) }
{
    let numbered = proof.with_numbers(alloc, &list.roots)?;
    write_block(alloc, model, spec, &numbered, &list.nodes)
}

/// The text of the block with a proof of a specification, counted from 1, as `write_block` gives
/// it. The proof's pins stay where they are.
///
/// `Full` comes only from a store that met its limit. No set is live after the call that was not
/// before.
pub fn block_text(
    alloc: Global,
    sets: &mut DiagramSets,
    model: &Ruled,
    spec: u32,
    proof: &Proof<Pin>,
) -> Result<Vec<u8>, SetRefusal>
    requires over { (⟦<DiagramSets as StateSets>⟧.seen sets.old).over ≡ model.now }
    requires order { (⟦<DiagramSets as StateSets>⟧.seen sets.old).gauge.order
        ≡ own_order model.now }
    requires live { AreLive (⟦<DiagramSets as StateSets>⟧.seen sets.old) (proof_slots proof.now) }
    requires proves { ProvesSpec model.now spec
        (over_states (⟦<DiagramSets as StateSets>⟧.seen sets.old) proof.now) }
    ensures call { IsCall (length (sets_of proof.now)) (⟦<DiagramSets as StateSets>⟧.seen sets.old)
        (⟦<DiagramSets as StateSets>⟧.seen sets.new) [] result }
    ensures block { IfOk result (λ text.
        IsBlockText model.now spec proof.now.claim proof.now.at text.items) }
{
    let list = list_sets(alloc, sets, proof)?;
    let text = text_over(alloc, model, spec, proof, &list)?;
    Ok(text)
}
